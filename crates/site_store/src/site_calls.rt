// The calls of a site over a key-value store.
ghost use Rattle.std.specs.Prelude.{◌≡◌, ◌+◌, ◌*◌, ◌∷◌, [], false, true, IsTrue, IfOk, IfErr, IsErrOf};
ghost use Rattle.common_types.specs.CrashStates.{AddsNone};
ghost use Rattle.host_types.specs.AllChanges.{all_applied};
ghost use Rattle.host_types.specs.Card.{card_at};
ghost use Rattle.host_types.specs.Change.{apply};
ghost use Rattle.host_types.specs.Fronts.{front_at};
ghost use Rattle.host_types.specs.ChangesFaults.{as_one, IsChangesFault};
ghost use Rattle.host_types.specs.Counting.{CountsReads};
ghost use Rattle.host_types.specs.Pins.{Numbered, is_out, IsPinned, IsPinFault};
ghost use Rattle.host_types.specs.SiteCalls.{pinned_view, GivesChunk, GivesKnownChunk, ReadsOnly, ReadsOrFails, ChangesSite, ChangesNoMore, CountsChange, ChangeCrashes};
ghost use Rattle.host_types.specs.SiteState.{HasRead, LacksTheSame, IsReadFault, IsChangeFault};
ghost use Rattle.host_types.specs.declared.changes_fault.ChangesFault.TheVariants.{Failed as AllFailed};
ghost use Rattle.host_types.specs.declared.pin_fault.SitePinFault.TheVariants.{Failed as PinFailed, Memory as PinMemory};
ghost use Rattle.host_types.specs.declared.site_fault.SiteFault.TheVariants.{Failed};
ghost use Rattle.page_store.specs.StoreState.{most_levels};
ghost use Rattle.page_store.specs.Work.{ReadsPages, WritesAtMost};
ghost use Rattle.site_store.specs.Represented.{site_state_of, site_of, Represents};
ghost use Rattle.site_store.specs.Lacking.{IsLacking};
ghost use Rattle.site_store.specs.CrashStatesRepresent.{crash_states_represent_site};
ghost use Rattle.site_store.specs.Seen.{seen, lacks_of, crashes_of};
ghost use Rattle.site_store.specs.Work.{MakesLookUps, most_menu_chunks};

use crate::DiskSite;
use crate::cards::card_in;
use crate::pinned_chunks::{chunk_in_at, document_chunk_at};
use crate::records::front_at;
use crate::to_site_fault::{changes_fault_comes, pin_fault_comes, to_site_fault};
use crate::writing::{banner_after, write_replacements};
use change_plan::plan_all;
use host_types::{
    Address, Card, CardFront, Change, ChangesFault, Selector, SiteFault, SiteKeeper, SitePinFault,
    Stamp,
};
use page_store::{LONGEST_VALUE, PinKeeper};
use std::alloc::{AllocError, Global};

/// One change at its moment.
fn only(alloc: Global, change: Change, now: Stamp) -> Result<Vec<(Change, Stamp)>, AllocError>
    ensures { IfOk result (λ changes. changes.items ≡ (change, now) ∷ []) }
{
    let mut changes = Vec::new(alloc);
    changes.push((change, now))?;
    Ok(changes)
}

impl<K: PinKeeper> SiteKeeper for DiskSite<K> {
    ghost site_state = { λ d. site_state_of (K.store_state d.keeper) d.kept };

    ghost lacks = { λ d. IsLacking K.store_state K.may_need d.keeper (site_of (K.store_state d.keeper) d.kept) };

    ghost CrashState = { K.CrashState };

    ghost represents = { Represents K.has_content };

    ghost crash_states = { λ d. K.crash_states d.keeper };

    ghost crash_states_represent = { λ d c honest usable left. crash_states_represent_site K.has_content (K.store_state d.keeper) d.kept c honest (K.crash_states_represent d.keeper c honest usable left) };

    type Pin = K::Pin;

    ghost pinned = { λ p. Numbered (K.number p) };

    fn front(&self) -> Address<'_> {
        let banner = self.keeper.banner();
        Address {
            host: &banner.host,
            port: banner.port,
            admin: &banner.admin,
        }
    }

    fn is_usable(&self) -> bool {
        self.keeper.is_usable()
    }

    fn card(&mut self, selector: &Selector) -> Result<Option<Card>, SiteFault>
        ensures card { IsTrue (seen self.old).honest → IfOk result (λ card. card ≡ card_at (seen self.old).site selector.now) }
        ensures kept { HasRead (seen self.old) (seen self.new) }
        ensures fault { IfErr result (IsReadFault true (seen self.old) (seen self.new)) }
        ensures reads { CountsReads result (seen self.old) (seen self.new) }
        ensures closed { (seen self.old).usable ≡ false → IsErrOf result Failed }
        ensures lacking { LacksTheSame (lacks_of self.old) (lacks_of self.new) }
        ensures at_crash { IsTrue (seen self.old).honest → AddsNone (K.crash_states self.old.keeper) (K.crash_states self.new.keeper) }

        // Its record is looked up, and each chunk behind it, once.
        ensures work { MakesLookUps (1 + most_menu_chunks) (K.store_state self.old.keeper) (K.store_state self.new.keeper) }
    {
        match card_in(self.alloc, &mut self.keeper, selector) {
            Ok(card) => Ok(card),
            Err(fault) => Err(to_site_fault(fault)),
        }
    }

    fn card_front(&mut self, selector: &Selector) -> Result<Option<CardFront>, SiteFault>
        ensures front { IsTrue (seen self.old).honest → IfOk result (λ front. front ≡ front_at (seen self.old).site selector.now) }
        ensures kept { HasRead (seen self.old) (seen self.new) }
        ensures fault { IfErr result (IsReadFault true (seen self.old) (seen self.new)) }
        ensures reads { CountsReads result (seen self.old) (seen self.new) }
        ensures closed { (seen self.old).usable ≡ false → IsErrOf result Failed }
        ensures lacking { LacksTheSame (lacks_of self.old) (lacks_of self.new) }
        ensures at_crash { IsTrue (seen self.old).honest → AddsNone (K.crash_states self.old.keeper) (K.crash_states self.new.keeper) }

        // Its record is looked up.
        ensures work { ReadsPages (K.store_state self.old.keeper).height (K.store_state self.old.keeper).made (K.store_state self.new.keeper).made }
    {
        let mut buffer = [0; LONGEST_VALUE];
        match front_at(&mut self.keeper, selector, &mut buffer) {
            Ok(front) => Ok(front),
            Err(fault) => Err(to_site_fault(fault)),
        }
    }

    fn pin_site(&mut self) -> Result<K::Pin, SitePinFault>
        ensures pinned { IfOk result (λ pin. IsPinned (seen self.old) (seen self.new) (Numbered (K.number pin))) }
        ensures fault { IfErr result (IsPinFault (seen self.old) (seen self.new)) }
        ensures closed { (seen self.old).usable ≡ false → IsErrOf result PinFailed }
        ensures lacking { LacksTheSame (lacks_of self.old) (lacks_of self.new) }
        ensures at_crash { IsTrue (seen self.old).honest → AddsNone (K.crash_states self.old.keeper) (K.crash_states self.new.keeper) }

        // It takes no memory, so that there is another cause of each fault.
        ensures memory { IfErr result (λ e. e ≡ PinMemory → ⊥) }
    {
        match self.keeper.pin() {
            Ok(pin) => Ok(pin),
            Err(fault) => Err(pin_fault_comes(fault)),
        }
    }

    fn unpin_site(&mut self, pin: K::Pin) {
        self.keeper.unpin(pin);
    }

    fn chunk(
        &mut self,
        pin: &K::Pin,
        selector: &Selector,
        view: usize,
        k: usize,
        buffer: &mut [u8; 1000],
    ) -> Result<usize, SiteFault>
        requires out { IsTrue (is_out (seen self.old) (Numbered (K.number pin.now))) }
        ensures gives { GivesChunk (IsTrue (seen self.old).honest) (pinned_view (seen self.old) (Numbered (K.number pin.now)) selector.now view) k buffer.old buffer.new result }
        ensures only { ReadsOnly seen lacks_of (crashes_of K.crash_states) self.old self.new }
        ensures reads { ReadsOrFails false (seen self.old) (seen self.new) result }

        // Two values are looked up in the tree that was pinned: the document's, and the chunk.
        ensures work { ReadsPages (2 * most_levels) (K.store_state self.old.keeper).made (K.store_state self.new.keeper).made }
    {
        match chunk_in_at(&mut self.keeper, pin, selector, view, k, buffer) {
            Ok(length) => Ok(length),
            Err(fault) => Err(to_site_fault(fault)),
        }
    }

    fn known_chunk(
        &mut self,
        pin: &K::Pin,
        selector: &Selector,
        view: usize,
        k: usize,
        buffer: &mut [u8; 1000],
    ) -> Result<usize, SiteFault>
        requires out { IsTrue (is_out (seen self.old) (Numbered (K.number pin.now))) }
        ensures gives { GivesKnownChunk (seen self.old).honest (pinned_view (seen self.old) (Numbered (K.number pin.now)) selector.now view) k buffer.old buffer.new result }
        ensures only { ReadsOnly seen lacks_of (crashes_of K.crash_states) self.old self.new }
        ensures reads { ReadsOrFails false (seen self.old) (seen self.new) result }

        // One value is looked up in the tree that was pinned.
        ensures work { ReadsPages most_levels (K.store_state self.old.keeper).made (K.store_state self.new.keeper).made }
    {
        match document_chunk_at(&mut self.keeper, pin, selector, view, k, buffer) {
            Ok(length) => Ok(length),
            Err(fault) => Err(to_site_fault(fault)),
        }
    }

    fn change(&mut self, change: Change, now: Stamp) -> Result<(), SiteFault>
        ensures done { ChangesSite (seen self.old) (seen self.new) (apply (seen self.old).site change now) result }
        ensures fault { IfErr result (IsChangeFault (lacks_of self.old ((change, now) ∷ [])) (seen self.old) (seen self.new) (apply (seen self.old).site change now)) }
        ensures lacking { IfErr result (λ e. (seen self.new).usable ≡ (seen self.old).usable → LacksTheSame (lacks_of self.old) (lacks_of self.new)) }
        ensures ended { ChangesNoMore (lacks_of self.old ((change, now) ∷ [])) Failed (seen self.old).usable result result }
        ensures counts { CountsChange (seen self.old) (seen self.new) result }
        ensures at_crash { ChangeCrashes seen (crashes_of K.crash_states) (Represents K.has_content) self.old self.new (apply (seen self.old).site change now) result }

        // At most all free pages and the page of a root are written, with two syncs.
        ensures work { WritesAtMost (K.store_state self.old.keeper).free (K.store_state self.old.keeper).made (K.store_state self.new.keeper).made }
    {
        if !self.keeper.is_usable() {
            return Err(SiteFault::Failed);
        }
        let changes = only(self.alloc, change, now)?;
        match self.change_all(changes) {
            Ok(()) => Ok(()),
            Err(fault) => Err(fault.of_one()),
        }
    }

    fn change_all(&mut self, changes: Vec<(Change, Stamp)>) -> Result<(), ChangesFault>
        ensures done { ChangesSite (seen self.old) (seen self.new) (all_applied (seen self.old).site changes.items) result }
        ensures fault { IfErr result (IsChangesFault (lacks_of self.old changes.items) (seen self.old) (seen self.new) (all_applied (seen self.old).site changes.items)) }
        ensures lacking { IfErr result (λ e. (seen self.new).usable ≡ (seen self.old).usable → LacksTheSame (lacks_of self.old) (lacks_of self.new)) }
        ensures ended { ChangesNoMore (lacks_of self.old changes.items) AllFailed (seen self.old).usable (as_one result) result }
        ensures counts { CountsChange (seen self.old) (seen self.new) (as_one result) }
        ensures at_crash { ChangeCrashes seen (crashes_of K.crash_states) (Represents K.has_content) self.old self.new (all_applied (seen self.old).site changes.items) result }

        // At most all free pages and the page of a root are written, with two syncs.
        ensures work { WritesAtMost (K.store_state self.old.keeper).free (K.store_state self.old.keeper).made (K.store_state self.new.keeper).made }
    {
        if !self.keeper.is_usable() {
            return Err(ChangesFault::Failed);
        }
        let alloc = self.alloc;
        let plan = match plan_all(alloc, self, changes) {
            Ok(plan) => plan,
            Err(fault) => return Err(fault),
        };
        let banner = banner_after(self.keeper.banner(), &plan)?;
        match write_replacements(alloc, &mut self.keeper, &plan.replacements, banner) {
            Ok(()) => Ok(()),
            Err(fault) => Err(changes_fault_comes(fault)),
        }
    }
}
