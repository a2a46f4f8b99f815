// Makes changes on a site that is handed in, and on the site of an image.
ghost use Rattle.std.specs.Prelude.{◌≡◌, true, IfOk, IfErr, OnErr, IsTrue, length};
ghost use Rattle.page_store.specs.Steps.{crash_states_of};
ghost use Rattle.change_file.specs.Applied.{MakesAll, StopsAt, HasSeen};
ghost use Rattle.host_on_disk.specs.OpenFaults.{IsOpeningFault, HandsBack};
ghost use Rattle.image_runs.specs.ImageChanges.{AppliesTo, AppliesToImage, CountsChangesOn, StopsOnImage};

use change_file::{ApplyFault, FileChange, Progress, apply_changes};
use host_on_disk::{OpenFault, SiteOn, open_site};
use host_types::{SiteKeeper, Stamp};
use sector_device::Device;
use std::alloc::Global;

/// Makes changes on a site, one after another, and hands it back with how many they are, or with the one that was not made. The progress sees each that is made.
pub fn apply_over<S: SiteKeeper, P: Progress>(
    site: S,
    changes: Vec<FileChange>,
    now: Stamp,
    progress: &mut P,
) -> (Result<u64, ApplyFault>, S)
    requires { (S.site_state site).usable ≡ true }
    ensures applied { IsTrue (S.site_state site).honest → AppliesTo S.site_state S.crash_states S.represents site result.1 changes.items now result.0 }
    ensures made { MakesAll S.site_state site result.1 changes.items now result.0 }
    ensures stopped { StopsAt S.site_state S.lacks site result.1 changes.items now result.0 }
    ensures honest { (S.site_state result.1).honest ≡ (S.site_state site).honest }
    ensures pins { (S.site_state result.1).pins ≡ (S.site_state site).pins }
    ensures seen { HasSeen P.seen changes.items progress.old progress.new result.0 }
{
    let mut site = site;
    let applied = apply_changes(&mut site, changes, now, progress);
    (applied, site)
}

/// Opens the image on a device, makes changes on its site, one after another, and hands the device back.
///
/// A crash at any moment leaves on the device what represents the site after some of the changes, from the front; where all were made, after all of them; and where one
/// was not, and no write or sync failed, after those before it.
pub fn apply_on<D: Device, P: Progress>(
    alloc: Global,
    device: D,
    changes: Vec<FileChange>,
    now: Stamp,
    progress: &mut P,
) -> Result<(Result<u64, ApplyFault>, D), (OpenFault, D)>
    ensures applied { IsTrue (D.state device).honest → IfOk result (λ r. AppliesToImage D.state (crash_states_of D.moment D.possible_since) device r.1 changes.items now r.0) }
    ensures stopped { IfOk result (λ r. IfErr r.0 (StopsOnImage ⟦<SiteOn<D> as SiteKeeper>⟧ device r.1 changes.items now)) }
    ensures count { IfOk result (λ r. IfOk r.0 (λ n. n ≡ length changes.items)) }
    ensures counts { IfOk result (λ r. CountsChangesOn D.state device r.1 r.0) }
    ensures seen { IfOk result (λ r. HasSeen P.seen changes.items progress.old progress.new r.0) }
    ensures unseen { OnErr result (progress.new ≡ progress.old) }
    ensures refused { IfErr result (λ e. HandsBack IsOpeningFault D.state (crash_states_of D.moment D.possible_since) device e.1 e.0) }
{
    let site = match open_site(alloc, device) {
        Ok(site) => site,
        Err(refused) => return Err(refused),
    };
    let (applied, site) = apply_over(site, changes, now, progress);
    Ok((applied, site.into_keeper().into_device()))
}
