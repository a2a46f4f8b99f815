// A document, or the posts of a board, of an image.
ghost use Rattle.std.specs.Prelude.{◌≡◌, ◌<◌, IfOk, IfErr, IsErrAnd, IsTrue};
ghost use Rattle.std.specs.Option.{option_copied};
ghost use Rattle.host_types.specs.CrashStates.{AddsNone};
ghost use Rattle.sector_device.specs.Device.{NothingCounted};
ghost use Rattle.page_store.specs.Steps.{crash_states_of};
ghost use Rattle.page_store.specs.declared.fault.KeeperFault.TheVariants.{Small};
ghost use Rattle.host_on_disk.specs.OpenFaults.{HandsBack};
ghost use Rattle.image_commands.specs.Faults.{IsReadingFault};
ghost use Rattle.image_commands.specs.declared.fault.ImageFault.TheVariants.{Store};
ghost use Rattle.image_items.specs.Documents.{bytes_in};
ghost use Rattle.image_items.specs.Got.{ArePosts, IsGot};

use crate::ItemFault;
use crate::documents::document;
use crate::posts::board_posts;
use host_on_disk::open_site;
use host_types::Selector;
use image_commands::ImageFault;
use sector_device::Device;
use std::alloc::Global;

/// Opens the image on a device, gives the bytes of a document, and hands the device back. Nothing is written.
pub fn get_image<D: Device>(
    alloc: Global,
    device: D,
    selector: &Selector,
    view: Option<&[u8]>,
) -> Result<(Result<Vec<u8>, ItemFault>, D), (ImageFault, D)>
    ensures got { IsTrue (D.state device).honest → IfOk result (λ r. IsGot (D.state device).disk.view selector.now (option_copied view.entry) (bytes_in (λ v. v.items) r.0)) }
    ensures refused { IfErr result (λ e. HandsBack IsReadingFault D.state (crash_states_of D.moment D.possible_since) device e.1 e.0) }
    ensures small { (D.state device).size < 128 → IsErrAnd result (λ e. (e.0 ≡ Store Small) × (e.1 ≡ device)) }
    ensures counts { IfOk result (λ r. NothingCounted (D.state device) (D.state r.1)) }
    ensures at_crash { IsTrue (D.state device).honest → IfOk result (λ r. AddsNone (crash_states_of D.moment D.possible_since device) (crash_states_of D.moment D.possible_since r.1)) }
    ensures honest { IfOk result (λ r. (D.state r.1).honest ≡ (D.state device).honest) }
{
    let mut site = match open_site(alloc, device) {
        Ok(site) => site,
        Err((fault, device)) => return Err((ImageFault::from(fault), device)),
    };
    let found = document(alloc, &mut site, selector, view);
    let device = site.into_keeper().into_device();
    match found {
        Ok(found) => Ok((found, device)),
        Err(fault) => Err((ImageFault::from(fault), device)),
    }
}

/// Opens the image on a device, gives the lines of the posts of a board, newest last, and hands the device back. Nothing is written.
pub fn posts_image<D: Device>(
    alloc: Global,
    device: D,
    board: &Selector,
) -> Result<(Result<Vec<u8>, ItemFault>, D), (ImageFault, D)>
    ensures posts { IsTrue (D.state device).honest → IfOk result (λ r. ArePosts (D.state device).disk.view board.now (bytes_in (λ v. v.items) r.0)) }
    ensures refused { IfErr result (λ e. HandsBack IsReadingFault D.state (crash_states_of D.moment D.possible_since) device e.1 e.0) }
    ensures small { (D.state device).size < 128 → IsErrAnd result (λ e. (e.0 ≡ Store Small) × (e.1 ≡ device)) }
    ensures counts { IfOk result (λ r. NothingCounted (D.state device) (D.state r.1)) }
    ensures at_crash { IsTrue (D.state device).honest → IfOk result (λ r. AddsNone (crash_states_of D.moment D.possible_since device) (crash_states_of D.moment D.possible_since r.1)) }
    ensures honest { IfOk result (λ r. (D.state r.1).honest ≡ (D.state device).honest) }
{
    let mut site = match open_site(alloc, device) {
        Ok(site) => site,
        Err((fault, device)) => return Err((ImageFault::from(fault), device)),
    };
    let listed = board_posts(alloc, &mut site, board);
    let device = site.into_keeper().into_device();
    match listed {
        Ok(listed) => Ok((listed, device)),
        Err(fault) => Err((ImageFault::from(fault), device)),
    }
}
