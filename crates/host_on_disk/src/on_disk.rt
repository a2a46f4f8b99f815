// Runs of events over a site on a disk, and what survives a crash.
ghost use Rattle.std.specs.Prelude.{◌≡◌, true, [], IfOk, IfErr};
ghost use Rattle.page_store.specs.Steps.{crash_states_of};
ghost use Rattle.cow_tree.specs.TreeSeen.{device_of};
ghost use Rattle.site_store.specs.Seen.{keeper_of};
ghost use Rattle.group_hub.specs.Worlds.{IsValidWhereGrouped};
ghost use Rattle.host_on_disk.specs.Headline.{RunsOver, RunsAndSurvives};
ghost use Rattle.host_on_disk.specs.OpenFaults.{IsOpeningFault, HandsBack};
ghost use Rattle.host_on_disk.specs.declared.open_fault.OpenFault.TheVariants.{Memory};

use crate::open_fault::OpenFault;
use crate::opening::{SiteOn, open_site};
use group_hub::{Hub, OutcomeList};
use group_world::Event;
use host_types::SiteKeeper;
use sector_device::Device;
use std::alloc::Global;
use word_search::SearchKeeper;

/// Runs events over a site of which no pin is out, in one hub whose first session has this number, and hands the site back, again with no pin out. Where posts are to wait in it for one another, the site is a valid one. `Memory` comes before the first event.
pub fn run_over<S: SearchKeeper>(
    alloc: Global,
    grouped: bool,
    site: S,
    first: u64,
    events: &[Event],
) -> Result<(OutcomeList, S), (OpenFault, S)>
    requires usable { (S.site_state site).usable ≡ true }
    requires unpinned { (S.site_state site).pins ≡ [] }
    requires valid { IsValidWhereGrouped grouped (S.site_state site) }
    ensures ran { IfOk result (λ r. RunsOver S.site_state S.lacks S.crash_states S.represents site r.1 grouped first events.now r.0) }
    ensures unpinned { IfOk result (λ r. (S.site_state r.1).pins ≡ []) }
    ensures err { IfErr result (λ e. (e.0 ≡ Memory) × (e.1 ≡ site)) }
{
    let mut hub = match Hub::started(alloc, grouped, site, first) {
        Ok(hub) => hub,
        Err((_, site)) => return Err((OpenFault::Memory, site)),
    };
    match hub.run(events) {
        Ok(outcomes) => Ok((outcomes, hub.close())),
        Err(_) => Err((OpenFault::Memory, hub.close())),
    }
}

/// Opens the image on a device, runs events over its site in one hub, where posts wait for one another or don't, and hands the device back.
///
/// What a crash at any moment leaves on the device represents the site after the first so many of the accepted commits, with each that was acknowledged by
/// then. A device that shows it, where it opens, gives that site.
pub fn run_on<D: Device>(
    alloc: Global,
    grouped: bool,
    device: D,
    first: u64,
    events: &[Event],
) -> Result<(OutcomeList, D), (OpenFault, D)>
    ensures ran { let k = ⟦<SiteOn<D> as SiteKeeper>⟧ in IfOk result (λ r. RunsAndSurvives D.state (λ d. device_of (keeper_of d)) k.site_state k.lacks k.crash_states k.represents (crash_states_of D.moment D.possible_since) device r.1 grouped first events.now r.0) }
    ensures refused { IfErr result (λ e. HandsBack IsOpeningFault D.state (crash_states_of D.moment D.possible_since) device e.1 e.0) }
{
    let site = match open_site(alloc, device) {
        Ok(site) => site,
        Err(refused) => return Err(refused),
    };
    match run_over(alloc, grouped, site, first, events) {
        Ok((outcomes, site)) => Ok((outcomes, site.into_keeper().into_device())),
        Err((fault, site)) => Err((fault, site.into_keeper().into_device())),
    }
}
