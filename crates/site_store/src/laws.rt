// Of what the faults of changes on a site over a key-value store come, as a law of the definitions.
ghost use Rattle.std.specs.Prelude.{ℕ, IsTrue};
ghost use Rattle.host_types.specs.AllChanges.{Changes};
ghost use Rattle.host_types.specs.declared.site_fault.SiteFault.TheVariants.{Full, Deep};
ghost use Rattle.site_store.specs.Seen.{keeper_of};

use crate::DiskSite;
use host_types::SiteKeeper;
use page_store::PinKeeper;

/// Changes that would make too many levels are told that, and not that they have no room.
pub fn deep_comes_before_full<K: PinKeeper>(site: &DiskSite<K>)
    ensures { (changes : Changes) (need free : ℕ) → IsTrue (K.store_state (keeper_of site.now)).honest → ⟦<DiskSite<K> as SiteKeeper>⟧.lacks site.now changes (Full need free) →
        ⟦<DiskSite<K> as SiteKeeper>⟧.lacks site.now changes Deep → ⊥ }
{}
