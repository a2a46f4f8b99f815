// A site over a key-value store.
ghost use Rattle.std.specs.Prelude.{◌<◌};
ghost use Rattle.site_store.specs.Represented.{HasSite, HasSite-prop};

use host_types::SiteKeeper;
use page_store::{Keeper, PinKeeper};
use std::alloc::Global;

/// A site over any key-value store. It reads through the keeper: no copy of the site stands in memory.
#[derive(Drop)]
pub struct DiskSite<K: Keeper> {
    pub(crate) alloc: Global,
    pub(crate) keeper: K,
    ghost kept: { HasSite (K.store_state keeper) } by { HasSite-prop (K.store_state keeper) },
    ghost port: { 0 < (K.store_state keeper).banner.port },
}

impl<K: PinKeeper> DiskSite<K> {
    ghost use Rattle.std.specs.Prelude.{◌↔◌, ◌≡◌, [], IsTrue};
    ghost use Rattle.site_store.specs.Seen.{keeper_of};

    /// Whether no pin is out. It takes no memory.
    pub fn is_unpinned(&self) -> bool
        ensures { IsTrue result ↔ ((⟦<DiskSite<K> as SiteKeeper>⟧.site_state self.now).pins ≡ []) }
    {
        self.keeper.is_unpinned()
    }

    /// The key-value store. No pin is out.
    pub fn into_keeper(self) -> K
        requires unpinned { (⟦<DiskSite<K> as SiteKeeper>⟧.site_state self).pins ≡ [] }
        ensures keeper { result ≡ keeper_of self }
        ensures unpinned { (K.store_state result).pins ≡ [] }
    {
        let DiskSite { alloc: _, keeper } = self;
        keeper
    }
}
