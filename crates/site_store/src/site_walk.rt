// The items of a site over a keeper, one after another.
ghost use Rattle.std.specs.Prelude.{◌≡◌, true, false, IfOk, IfErr, IsErrOf, IsTrue, option_map};
ghost use Rattle.host_types.specs.Counting.{CountsReads};
ghost use Rattle.host_types.specs.SiteState.{HasRead, LacksTheSame, IsReadFault};
ghost use Rattle.host_types.specs.CrashStates.{AddsNone};
ghost use Rattle.host_types.specs.declared.site_fault.SiteFault.TheVariants.{Failed};
ghost use Rattle.site_store.specs.Represented.{site_state_of, site_of};
ghost use Rattle.site_store.specs.Lacking.{IsLacking};
ghost use Rattle.site_store.specs.Walking.{card_after};

use crate::DiskSite;
use crate::to_site_fault::to_site_fault;
use crate::walking::next_in;
use host_types::{Card, Selector, SiteFault};
use page_store::Keeper;

impl<K: Keeper> DiskSite<K> {
    /// The first item above a selector with its card, or none where no item stands above; with no selector, the first of all.
    pub fn next_card(
        &mut self,
        after: Option<&Selector>,
    ) -> Result<Option<(Selector, Card)>, SiteFault>
        ensures next { IsTrue (K.store_state self.old.keeper).honest → IfOk result (λ next. next ≡ card_after (site_state_of (K.store_state self.old.keeper) self.old.kept).site (option_map (λ selector. selector.now) after.entry)) }
        ensures reads { CountsReads result (site_state_of (K.store_state self.old.keeper) self.old.kept) (site_state_of (K.store_state self.new.keeper) self.new.kept) }
        ensures lacking { LacksTheSame (IsLacking K.store_state K.may_need self.old.keeper (site_of (K.store_state self.old.keeper) self.old.kept)) (IsLacking K.store_state K.may_need self.new.keeper (site_of (K.store_state self.new.keeper) self.new.kept)) }
        ensures kept { HasRead (site_state_of (K.store_state self.old.keeper) self.old.kept) (site_state_of (K.store_state self.new.keeper) self.new.kept) }
        ensures fault { IfErr result (IsReadFault true (site_state_of (K.store_state self.old.keeper) self.old.kept) (site_state_of (K.store_state self.new.keeper) self.new.kept)) }
        ensures closed { (K.store_state self.old.keeper).usable ≡ false → IsErrOf result Failed }
        ensures at_crash { IsTrue (K.store_state self.old.keeper).honest → AddsNone (K.crash_states self.old.keeper) (K.crash_states self.new.keeper) }
    {
        match next_in(self.alloc, &mut self.keeper, after) {
            Ok(next) => Ok(next),
            Err(fault) => Err(to_site_fault(fault)),
        }
    }
}
