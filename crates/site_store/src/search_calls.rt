// A site over a key-value store is searched.
use crate::DiskSite;
use crate::searching::search_all;
use crate::to_site_fault::to_site_fault;
use host_types::{Selector, SiteFault, Stamp};
use page_store::PinKeeper;
use word_search::{FindList, SearchKeeper};

impl<K: PinKeeper> SearchKeeper for DiskSite<K> {
    fn search(
        &mut self,
        scope: &Selector,
        query: &[u8],
        now: Stamp,
    ) -> Result<FindList, SiteFault> {
        if !self.keeper.is_usable() {
            return Err(SiteFault::Failed);
        }
        match search_all(self.alloc, &mut self.keeper, scope, query, now) {
            Ok(found) => Ok(found),
            Err(fault) => Err(to_site_fault(fault)),
        }
    }
}
