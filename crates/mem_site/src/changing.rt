// Changing a site in memory by a plan.
ghost use Rattle.std.specs.Prelude.{◌≡◌, Ok, IfOk, IsOk, OnOk, IfErr, OnErr, IfSome};
ghost use Rattle.host_types.specs.Change.{apply};
ghost use Rattle.host_types.specs.AllChanges.{all_applied};
ghost use Rattle.change_plan.specs.Replacements.{replaced, all_replaced, IsInPlace, AreInPlace, OnlyFirstIsNew, AreFit};
ghost use Rattle.mem_site.specs.ShortEntries.{HasShortViews};
ghost use Rattle.mem_site.specs.MemoryFaults.{IsMemoryFault, IsMemoryFaultOfAll};

use crate::MemSite;
use change_plan::{Plan, Replacement, plan_change};
use host_types::{Change, ChangesFault, SiteFault, Stamp};

impl MemSite {
    /// Replaces what stands at a selector. Its only fault is that of memory, and then nothing is changed.
    fn replace(&mut self, replacement: Replacement) -> Result<(), SiteFault>
        requires { IfSome replacement.after HasShortViews }
        ensures ok { OnOk result (self.new ≡ replaced self.old replacement) }
        ensures err { IfErr result (λ e. (e ≡ SiteFault.Memory) × (self.new ≡ self.old)) }
        ensures in_place { IsInPlace self.old replacement → IsOk result }
    {
        let Replacement {
            selector,
            before: _,
            after,
        } = replacement;
        match after {
            Some(item) => self.insert(selector, item),
            None => {
                self.take_out(&selector);
                Ok(())
            }
        }
    }

    /// Makes replacements that put items only where one stands. No memory is taken.
    fn replace_in_place(&mut self, replacements: Vec<Replacement>)
        requires in_place { AreInPlace self.old replacements.items }
        requires fit { AreFit HasShortViews replacements.items }
        ensures { self.new ≡ all_replaced self.old replacements.items }
    {
        let mut rest = replacements;
        while !rest.is_empty() {
            let replacement = rest.remove(0);
            let _ = self.replace(replacement);
        }
    }

    /// Makes replacements of which only the first may put an item where none stands: where memory is lacking nothing is changed.
    fn replace_all(&mut self, replacements: Vec<Replacement>) -> Result<(), SiteFault>
        requires first { OnlyFirstIsNew self.old replacements.items }
        requires fit { AreFit HasShortViews replacements.items }
        ensures ok { OnOk result (self.new ≡ all_replaced self.old replacements.items) }
        ensures err { IfErr result (λ e. (e ≡ SiteFault.Memory) × (self.new ≡ self.old)) }
    {
        let mut rest = replacements;
        if rest.is_empty() {
            return Ok(());
        }
        let first = rest.remove(0);
        self.replace(first)?;
        self.replace_in_place(rest);
        Ok(())
    }

    /// Makes a change, or answers its first refusal.
    pub(crate) fn make(&mut self, change: Change, now: Stamp) -> Result<(), SiteFault>
        ensures done { OnOk result (apply self.old change now ≡ Ok self.new) }
        ensures kept { OnErr result (self.new ≡ self.old) }
        ensures refused { IfErr result (λ e. IsMemoryFault e (apply self.old change now)) }
    {
        self.long_selectors();
        let alloc = self.alloc();
        let plan = match plan_change(alloc, self, change, now) {
            Ok(plan) => plan,
            Err(fault) => return Err(fault),
        };
        let Plan {
            replacements,
            host,
            admin,
        } = plan;
        self.replace_all(replacements)?;
        self.set_host(host);
        self.set_admin(admin);
        Ok(())
    }

    /// Makes all of these changes, each at its own moment on the site with those before it, or none of them: they are made on a copy of the site.
    pub(crate) fn make_all(&mut self, changes: Vec<(Change, Stamp)>) -> Result<(), ChangesFault>
        ensures done { OnOk result (all_applied self.old changes.items ≡ Ok self.new) }
        ensures kept { OnErr result (self.new ≡ self.old) }
        ensures refused { IfErr result (λ e. IsMemoryFaultOfAll e (all_applied self.old changes.items)) }
    {
        let mut made = self.copy()?;
        let mut place = 0;
        let mut rest = changes;
        while !rest.is_empty() {
            let (change, now) = rest.remove(0);
            if let Err(fault) = made.make(change, now) {
                return Err(ChangesFault::at(place, fault));
            }
            place += 1;
        }
        *self = made;
        Ok(())
    }
}
