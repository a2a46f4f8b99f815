// A site is read, and its copy worked out whole before anything is written.
ghost use Rattle.std.specs.Prelude.{◌≡◌, ◌≤◌, ◌⊎◌, ◌<◌, true, Option, Some, None, IsTrue, IfOk, IfErr, IsErrAnd, OnOk};
ghost use Rattle.std.specs.Option.{is_some};
ghost use Rattle.page_store.specs.Sizes.{least_pages, most_pages};
ghost use Rattle.common_types.specs.CrashStates.{AddsNone};
ghost use Rattle.host_types.specs.Site.{Site};
ghost use Rattle.sector_device.specs.Device.{NothingCounted};
ghost use Rattle.page_store.specs.DeviceEffects.{IsReadCall};
ghost use Rattle.page_store.specs.Roots.{current};
ghost use Rattle.page_store.specs.Steps.{crash_states_of};
ghost use Rattle.page_store.specs.declared.fault.KeeperFault.TheVariants.{Small};
ghost use Rattle.host_on_disk.specs.OpenFaults.{HandsBack};
ghost use Rattle.image_commands.specs.Faults.{IsNotRead};
ghost use Rattle.image_commands.specs.declared.fault.ImageFault.TheVariants.{Store};
ghost use Rattle.image_copies.specs.SitesRead.{IsReadOf};
ghost use Rattle.image_copies.specs.Copies.{HasCount, IsCopyOf, IsPlannedCopy};
ghost use Rattle.image_copies.specs.CopyFaults.{IsNoCopyMade, IsNotPlanned};
ghost use Rattle.image_copies.specs.declared.fault.CopyFault.TheVariants.{Image as OfImage};

use crate::site_read::SiteRead;
use crate::site_reading::read_image;
use crate::{CopyFault, SiteCopy};
use filled_images::FilledImage;
use image_commands::ImageFault;
use page_store::{KeeperFault, open_roots};
use sector_device::Device;
use std::alloc::Global;

/// A read failed. A device that gives something else than before is told so too.
const NOT_READ: ImageFault = ImageFault::Store(KeeperFault::Device);

/// The copy of what was read of a site, in so many pages.
fn copy_of(alloc: Global, read: SiteRead, count: u32) -> Result<SiteCopy, CopyFault>
    ensures copy { (s : Site) → IsReadOf s read → IfOk result (IsCopyOf s count) }
    ensures fault { IfErr result (IsNoCopyMade count read.pairs.items) }
{
    let SiteRead {
        pairs,
        banner,
        items,
    } = read;
    match FilledImage::new(alloc, count, banner, pairs) {
        Ok(image) => Ok(SiteCopy { image, items }),
        Err(fault) => Err(CopyFault::of_new(fault)),
    }
}

/// How many pages the new image is to have: as many as were asked for, or where no count was, as many as the current root slot says.
fn count_for<D: Device>(device: &mut D, asked: Option<u32>) -> Result<u32, ImageFault>
    requires large { 128 ≤ (D.state device.old).size }
    requires rooted { IsTrue (D.state device.old).honest → is_some (current (D.state device.old).disk.view) ≡ true }
    ensures count { IsTrue (D.state device.old).honest → IfOk result (HasCount asked (D.state device.new).disk.view) }
    ensures possible { IfOk result (λ n. (asked ≡ Some n) ⊎ ((least_pages ≤ n) × (n ≤ most_pages))) }
    ensures reads { IsReadCall D.state (crash_states_of D.moment D.possible_since) device.old device.new }
    ensures counts { OnOk result ((D.state device.new).failed_reads ≡ (D.state device.old).failed_reads) }
    ensures fault { IfErr result (IsNotRead (D.state device.old) (D.state device.new)) }
{
    if let Some(asked) = asked {
        return Ok(asked);
    }
    match open_roots(device) {
        Ok(roots) => match roots.current {
            Some(slot) => Ok(slot.root.pages),
            None => Err(NOT_READ),
        },
        Err(_) => Err(NOT_READ),
    }
}

/// Opens the image on a device, reads all of its site, works out the copy of it, and hands the device back. The new image is to have as many pages as are asked for, or as many as the old one has. Nothing is written.
///
/// Refusals in order: those of a command that only reads an image; `Small` where no image can have so many pages; `Full` where the site takes more, filled, than there are but for the root slots. `Memory` may stand in place of each but the first of an opening, and of success.
pub fn plan_copy<D: Device>(
    alloc: Global,
    device: D,
    pages: Option<u32>,
) -> Result<(SiteCopy, D), (CopyFault, D)>
    ensures planned { IsTrue (D.state device).honest → IfOk result (λ r. IsPlannedCopy D.state pages device r.1 r.0) }
    ensures counts { IfOk result (λ r. NothingCounted (D.state device) (D.state r.1)) }
    ensures honest { IfOk result (λ r. (D.state r.1).honest ≡ (D.state device).honest) }
    ensures at_crash { IsTrue (D.state device).honest → IfOk result (λ r. AddsNone (crash_states_of D.moment D.possible_since device) (crash_states_of D.moment D.possible_since r.1)) }
    ensures refused { IfErr result (λ e. HandsBack (IsNotPlanned pages) D.state (crash_states_of D.moment D.possible_since) device e.1 e.0) }
    ensures small { (D.state device).size < 128 → IsErrAnd result (λ e. (e.0 ≡ OfImage (Store Small)) × (e.1 ≡ device)) }
{
    let (read, device) = match read_image(alloc, device) {
        Ok((read, device)) => (read, device),
        Err((fault, device)) => return Err((CopyFault::Image(fault), device)),
    };
    let mut device = device;
    let count = match count_for(&mut device, pages) {
        Ok(count) => count,
        Err(fault) => return Err((CopyFault::Image(fault), device)),
    };
    let copy = match copy_of(alloc, read, count) {
        Ok(copy) => copy,
        Err(fault) => return Err((fault, device)),
    };
    Ok((copy, device))
}
