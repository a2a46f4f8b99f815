// A site over a key-value store is written anew.
ghost use Rattle.std.specs.Prelude.{OnOk, IfErr};
ghost use Rattle.site_store.specs.Compacting.{SiteAndPinsStay, WritesSiteAnew, FailsToCompactSite, CompactsNoMore, TriesToCompact, SiteCompactionCrashes};
ghost use Rattle.site_store.specs.Seen.{seen, seen_site};

use crate::DiskSite;
use crate::to_site_fault::store_fault_comes;
use host_types::SiteFault;
use page_store::CompactKeeper;

impl<K: CompactKeeper> DiskSite<K> {
    /// Writes the same site anew, in as few pages as hold its pairs in order, in one step. It needs room for all of it beside what is there.
    ///
    /// Faults in order: `Failed`, `Spent`, `Read`, `Full`, and `Failed` again once a write or a sync has failed; never `Deep`. `Memory` may stand in place of any fault or success after `Spent`; nothing is written then.
    pub fn compact(&mut self) -> Result<(), SiteFault>
        ensures kept { SiteAndPinsStay (seen self.old) (seen self.new) }
        ensures done { OnOk result (WritesSiteAnew (K.store_state self.old.keeper) (K.store_state self.new.keeper) (K.is_filled self.new.keeper) (K.compact_need self.old.keeper)) }
        ensures fault { IfErr result (FailsToCompactSite K.store_state K.compact_need self.old.keeper self.new.keeper) }
        ensures ended { CompactsNoMore (K.store_state self.old.keeper) result }
        ensures counts { TriesToCompact (K.store_state self.old.keeper) (K.store_state self.new.keeper) }
        ensures at_crash { SiteCompactionCrashes K.crash_states K.has_content K.store_state self.old.keeper self.new.keeper (seen_site self.old) result }
    {
        match self.keeper.compact() {
            Ok(()) => Ok(()),
            Err(fault) => Err(store_fault_comes(fault)),
        }
    }
}
