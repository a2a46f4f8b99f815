// A script over a site, and over the site of an image.
ghost use Rattle.std.specs.Prelude.{◌≡◌, true, [], IfOk, IfErr};
ghost use Rattle.page_store.specs.Steps.{crash_states_of};
ghost use Rattle.host_on_disk.specs.OpenFaults.{IsOpeningFault, HandsBack};
ghost use Rattle.host_on_disk.specs.declared.open_fault.OpenFault.TheVariants.{Memory};
ghost use Rattle.group_hub.specs.Worlds.{IsValidWhereGrouped};
ghost use Rattle.image_runs.specs.ImageRuns.{OverSite, OnImage, Replays};

use group_hub::Hub;
use host_on_disk::{OpenFault, SiteOn, open_site};
use host_script::{ReplayFault, replay};
use host_types::SiteKeeper;
use sector_device::Device;
use std::alloc::Global;
use std::io::{Read, Write};
use word_search::SearchKeeper;

/// Replays a script over a site in one hub, whose sessions count from 1, and hands the site back. Where posts are to wait in it for one another, the site is a valid one. What it answers beside that is what `replay` of `host_script`
/// does. `Memory` comes before the script is read.
pub fn replay_over<S: SearchKeeper, R: Read, W: Write>(
    alloc: Global,
    grouped: bool,
    site: S,
    reader: &mut R,
    writer: &mut W,
) -> Result<(Result<(), ReplayFault>, S), (OpenFault, S)>
    requires usable { (S.site_state site).usable ≡ true }
    requires unpinned { (S.site_state site).pins ≡ [] }
    requires valid { IsValidWhereGrouped grouped (S.site_state site) }
    ensures replayed { IfOk result (λ r. Replays (OverSite grouped S.SiteKeeper) site r.1 (R.remaining reader.old) (R.remaining reader.new) (W.contents writer.old) (W.contents writer.new) r.0) }
    ensures unpinned { IfOk result (λ r. (S.site_state r.1).pins ≡ []) }
    ensures err { IfErr result (λ e. (e.0 ≡ Memory) × (e.1 ≡ site)) }
    ensures unread { IfErr result (λ e. (reader.new ≡ reader.old) × (writer.new ≡ writer.old)) }
{
    let mut hub = match Hub::started(alloc, grouped, site, 1) {
        Ok(hub) => hub,
        Err((_, site)) => return Err((OpenFault::Memory, site)),
    };
    let ended = replay(alloc, reader, writer, &mut hub);
    Ok((ended, hub.close()))
}

/// Opens the image on a device, replays a script over its site, where posts wait for one another or don't, and hands the device back.
///
/// What a crash at any moment leaves on the device represents the site after the first so many commits of the events that the script made, with each that was acknowledged by
/// then.
pub fn replay_on<D: Device, R: Read, W: Write>(
    alloc: Global,
    grouped: bool,
    device: D,
    reader: &mut R,
    writer: &mut W,
) -> Result<(Result<(), ReplayFault>, D), (OpenFault, D)>
    ensures replayed { IfOk result (λ r. Replays (OnImage grouped ⟦<SiteOn<D> as SiteKeeper>⟧) device r.1 (R.remaining reader.old) (R.remaining reader.new) (W.contents writer.old) (W.contents writer.new) r.0) }
    ensures refused { IfErr result (λ e. HandsBack IsOpeningFault D.state (crash_states_of D.moment D.possible_since) device e.1 e.0) }
    ensures unread { IfErr result (λ e. (reader.new ≡ reader.old) × (writer.new ≡ writer.old)) }
{
    let site = match open_site(alloc, device) {
        Ok(site) => site,
        Err(refused) => return Err(refused),
    };
    match replay_over(alloc, grouped, site, reader, writer) {
        Ok((ended, site)) => Ok((ended, site.into_keeper().into_device())),
        Err((fault, site)) => Err((fault, site.into_keeper().into_device())),
    }
}
