// How much a site over a keeper holds.
ghost use Rattle.std.specs.Prelude.{◌≡◌, ◌+◌, ◌*◌, true, length, IfOk};
ghost use Rattle.host_types.specs.SiteCalls.{ReadsOnly, ReadsOrFails};
ghost use Rattle.page_store.specs.Work.{WritesNothing, ReadsPages, pages_tried};
ghost use Rattle.site_store.specs.Counting.{TellsFigures};
ghost use Rattle.site_store.specs.Represented.{RepresentedBy};
ghost use Rattle.site_store.specs.Reads.{ReadsKnown};
ghost use Rattle.site_store.specs.Seen.{seen, seen_site, lacks_of, crashes_of};

use crate::to_site_fault::to_site_fault;
use crate::walking::selector_after;
use crate::{DiskSite, SiteOpenFault};
use host_types::{Selector, SiteFault};
use page_store::{Figures, Keeper};

/// How much a site over a keeper holds.
#[derive(Clone, Copy, Debug, PartialEq, Eq)]
pub struct SiteFigures {
    /// How many items there are.
    pub items: u64,
    /// What the keeper tells.
    pub store: Figures,
}

/// How many items there are.
fn items_in<K: Keeper>(keeper: &mut K) -> Result<u64, SiteOpenFault>
    ensures items { ReadsKnown K.store_state K.may_need K.crash_states keeper.old keeper.new result RepresentedBy (λ s items. items ≡ length s.items) }
    ensures work { IfOk result (λ items. ReadsPages ((items + 1) * pages_tried (K.store_state keeper.old).height) (K.store_state keeper.old).made (K.store_state keeper.new).made) }
    ensures calls { WritesNothing (K.store_state keeper.old).made (K.store_state keeper.new).made }
{
    let mut selector = Selector::root();
    for counted in 1..u64::MAX {
        match selector_after(keeper, &selector) {
            Ok(Some(next)) => selector = next,
            Ok(None) => return Ok(counted),
            Err(fault) => return Err(fault),
        }
    }
    // No device that can be had holds so many items.
    Err(SiteOpenFault::Memory)
}

impl<K: Keeper> DiskSite<K> {
    /// How many items and pairs there are, how much room is left, and of which generation the image is.
    pub fn figures(&mut self) -> Result<SiteFigures, SiteFault>
        ensures figures { IfOk result (λ figures. TellsFigures (K.store_state self.old.keeper) (seen_site self.old) figures.items figures.store) }
        // It goes through the items once.
        ensures work { IfOk result (λ figures. ReadsPages ((figures.items + 1) * pages_tried (K.store_state self.old.keeper).height) (K.store_state self.old.keeper).made (K.store_state self.new.keeper).made) }
        ensures calls { WritesNothing (K.store_state self.old.keeper).made (K.store_state self.new.keeper).made }
        ensures ended { ReadsOrFails true (seen self.old) (seen self.new) result }
        ensures only { ReadsOnly seen lacks_of (crashes_of K.crash_states) self.old self.new }
    {
        if !self.keeper.is_usable() {
            return Err(SiteFault::Failed);
        }
        let store = self.keeper.figures();
        match items_in(&mut self.keeper) {
            Ok(items) => Ok(SiteFigures { items, store }),
            Err(fault) => Err(to_site_fault(fault)),
        }
    }
}
