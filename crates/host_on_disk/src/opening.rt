// Opening a device as a site.
ghost use Rattle.std.specs.Prelude.{◌≡◌, ◌<◌, IfOk, IfErr, IsErrAnd, IsTrue};
ghost use Rattle.host_types.specs.Site.{Site};
ghost use Rattle.page_store.specs.Steps.{crash_states_of};
ghost use Rattle.page_store.specs.declared.fault.KeeperFault.TheVariants.{Small};
ghost use Rattle.page_store.specs.Work.{SyncsOnceAtMost};
ghost use Rattle.site_store.specs.Seen.{keeper_of, seen_site};
ghost use Rattle.host_on_disk.specs.DiskOpening.{OpensDisk};
ghost use Rattle.host_on_disk.specs.ImageSites.{ImageRepresents};
ghost use Rattle.host_on_disk.specs.OpenFaults.{IsOpeningFault, HandsBack};
ghost use Rattle.host_on_disk.specs.declared.open_fault.OpenFault.TheVariants.{Keeper};

use crate::open_fault::OpenFault;
use cow_tree::TreeKeeper;
use host_types::SiteKeeper;
use sector_device::Device;
use site_store::DiskSite;
use std::alloc::Global;

/// The site of the image on a device.
pub type SiteOn<D> = DiskSite<TreeKeeper<D>>;

/// Opens the site that a device shows. It writes nothing, and a refusal hands the device back.
///
/// Refusals in order: those of `TreeKeeper::open`, each by its own cause, where `Small` leaves the device as it was; `BadRecord` where the content represents no site. `Memory` may stand in place of `Damaged`, of `BadRecord` and of success.
pub fn open_site<D: Device>(alloc: Global, device: D) -> Result<SiteOn<D>, (OpenFault, D)>
    ensures site { IsTrue (D.state device).honest → IfOk result (λ d. ImageRepresents (D.state device).disk.view (seen_site d)) }
    ensures alone { IsTrue (D.state device).honest → (s : Site) → ImageRepresents (D.state device).disk.view s → IfOk result (λ d. s ≡ seen_site d) }
    ensures opened { IfOk result (λ d. OpensDisk D.state (crash_states_of D.moment D.possible_since) device (keeper_of d) (⟦<SiteOn<D> as SiteKeeper>⟧.site_state d)) }
    ensures work_on_fault { IfErr result (λ e. SyncsOnceAtMost (D.state device).made (D.state e.1).made) }
    ensures small { (D.state device).size < 128 → IsErrAnd result (λ e. (e.0 ≡ Keeper Small) × (e.1 ≡ device)) }
    ensures refused { IfErr result (λ e. HandsBack IsOpeningFault D.state (crash_states_of D.moment D.possible_since) device e.1 e.0) }
{
    let keeper = match TreeKeeper::open(alloc, device) {
        Ok(keeper) => keeper,
        Err((fault, device)) => return Err((OpenFault::of_keeper(fault), device)),
    };
    match DiskSite::open(alloc, keeper) {
        Ok(site) => Ok(site),
        Err((fault, keeper)) => Err((OpenFault::of_site(fault), keeper.into_device())),
    }
}
