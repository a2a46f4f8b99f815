// All of a site, read from its image.
ghost use Rattle.std.specs.Prelude.{◌≡◌, ◌≤◌, ◌<◌, [], true, IsTrue, IfOk, IfErr, IsErrAnd, length};
ghost use Rattle.std.specs.Option.{is_some};
ghost use Rattle.common_types.specs.CrashStates.{AddsNone};
ghost use Rattle.sector_device.specs.Device.{NothingCounted};
ghost use Rattle.page_store.specs.Roots.{current};
ghost use Rattle.page_store.specs.Steps.{crash_states_of};
ghost use Rattle.page_store.specs.declared.fault.KeeperFault.TheVariants.{Small};
ghost use Rattle.cow_tree.specs.TreeSeen.{held, device_of, is_open};
ghost use Rattle.site_store.specs.Seen.{keeper_of, seen_site};
ghost use Rattle.host_on_disk.specs.OpenFaults.{HandsBack};
ghost use Rattle.image_commands.specs.Faults.{IsNotRead, IsReadingFault};
ghost use Rattle.image_commands.specs.declared.fault.ImageFault.TheVariants.{Store};
ghost use Rattle.image_copies.specs.SitesRead.{IsReadOf, IsSiteRead, ReadsAllPairs, HandsOver};

use crate::all_pairs::all_pairs;
use crate::site_read::SiteRead;
use cow_tree::TreeKeeper;
use host_on_disk::{SiteOn, open_site};
use host_types::SiteKeeper;
use image_commands::ImageFault;
use page_store::Keeper;
use sector_device::Device;
use site_store::DiskSite;
use std::alloc::Global;

/// All pairs of a keeper and its banner, beside the count of items that is known.
fn read_keeper<D: Device>(
    alloc: Global,
    keeper: &mut TreeKeeper<D>,
    items: u64,
) -> Result<SiteRead, ImageFault>
    requires usable { is_open keeper.old ≡ true }
    ensures pairs { IsTrue (held D.state keeper.old).honest → IfOk result (λ read. read.pairs.items ≡ (held D.state keeper.old).pairs) }
    ensures counted { IfOk result (λ read. length read.pairs.items ≡ (held D.state keeper.old).keys) }
    ensures banner { IfOk result (λ read. read.banner ≡ (held D.state keeper.old).banner) }
    ensures items { IfOk result (λ read. read.items ≡ items) }
    ensures reads { ReadsAllPairs (held D.state) (λ k. crash_states_of D.moment D.possible_since (device_of k)) keeper.old keeper.new result }
{
    let banner = match keeper.banner().clone() {
        Ok(banner) => banner,
        Err(_) => return Err(ImageFault::Memory),
    };
    match all_pairs(alloc, keeper) {
        Ok(pairs) => Ok(SiteRead {
            pairs,
            banner,
            items,
        }),
        Err(fault) => Err(fault),
    }
}

/// Reads all of an open site, and hands its device back. Nothing is written.
fn read_open<D: Device>(alloc: Global, site: SiteOn<D>) -> Result<(SiteRead, D), (ImageFault, D)>
    requires usable { is_open (keeper_of site) ≡ true }
    requires large { 128 ≤ (D.state (device_of (keeper_of site))).size }
    requires unpinned { (⟦<SiteOn<D> as SiteKeeper>⟧.site_state site).pins ≡ [] }
    ensures read { IsTrue (D.state (device_of (keeper_of site))).honest → IfOk result (λ r. IsReadOf (seen_site site) r.0) }
    ensures rooted { IsTrue (D.state (device_of (keeper_of site))).honest → IfOk result (λ r. is_some (current (D.state r.1).disk.view) ≡ true) }
    ensures back { IfOk result (λ r. HandsOver D.state (crash_states_of D.moment D.possible_since) (device_of (keeper_of site)) r.1) }
    ensures refused { IfErr result (λ e. HandsBack IsNotRead D.state (crash_states_of D.moment D.possible_since) (device_of (keeper_of site)) e.1 e.0) }
{
    let mut site = site;
    let items = match site.figures() {
        Ok(figures) => figures.items,
        Err(fault) => return Err((ImageFault::from(fault), site.into_keeper().into_device())),
    };
    let mut keeper = site.into_keeper();
    match read_keeper(alloc, &mut keeper, items) {
        Ok(read) => Ok((read, keeper.into_device())),
        Err(fault) => Err((fault, keeper.into_device())),
    }
}

/// Opens the image on a device, reads all of its site, and hands the device back. Nothing is written.
pub(crate) fn read_image<D: Device>(
    alloc: Global,
    device: D,
) -> Result<(SiteRead, D), (ImageFault, D)>
    ensures read { IsTrue (D.state device).honest → IfOk result (λ r. IsSiteRead (D.state device).disk.view r.0) }
    ensures rooted { IsTrue (D.state device).honest → IfOk result (λ r. is_some (current (D.state r.1).disk.view) ≡ true) }
    ensures counts { IfOk result (λ r. NothingCounted (D.state device) (D.state r.1)) }
    ensures honest { IfOk result (λ r. (D.state r.1).honest ≡ (D.state device).honest) }
    ensures at_crash { IsTrue (D.state device).honest → IfOk result (λ r. AddsNone (crash_states_of D.moment D.possible_since device) (crash_states_of D.moment D.possible_since r.1)) }
    ensures large { IfOk result (λ r. (128 ≤ (D.state device).size) × (128 ≤ (D.state r.1).size)) }
    ensures refused { IfErr result (λ e. HandsBack IsReadingFault D.state (crash_states_of D.moment D.possible_since) device e.1 e.0) }
    ensures small { (D.state device).size < 128 → IsErrAnd result (λ e. (e.0 ≡ Store Small) × (e.1 ≡ device)) }
{
    let site = match open_site(alloc, device) {
        Ok(site) => site,
        Err((fault, device)) => return Err((ImageFault::from(fault), device)),
    };
    match read_open(alloc, site) {
        Ok((read, device)) => Ok((read, device)),
        Err((fault, device)) => Err((fault, device)),
    }
}
