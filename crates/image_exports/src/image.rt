// The file of changes of an image.
ghost use Rattle.std.specs.Prelude.{◌≡◌, ◌<◌, IfOk, IfErr, IsErrAnd, IsTrue};
ghost use Rattle.host_types.specs.CrashStates.{AddsNone};
ghost use Rattle.sector_device.specs.Device.{NothingCounted};
ghost use Rattle.page_store.specs.Steps.{crash_states_of};
ghost use Rattle.page_store.specs.declared.fault.KeeperFault.TheVariants.{Small};
ghost use Rattle.host_on_disk.specs.OpenFaults.{HandsBack};
ghost use Rattle.image_commands.specs.Faults.{IsReadingFault};
ghost use Rattle.image_commands.specs.declared.fault.ImageFault.TheVariants.{Store};
ghost use Rattle.image_exports.specs.Exports.{IsExported};

use crate::exporting::export_site;
use host_on_disk::open_site;
use image_commands::ImageFault;
use sector_device::Device;
use std::alloc::Global;

/// Opens the image on a device, gives the file of changes that put its items, and hands the device back. Nothing is written.
pub fn export_image<D: Device>(alloc: Global, device: D) -> Result<(Vec<u8>, D), (ImageFault, D)>
    ensures exported { IsTrue (D.state device).honest → IfOk result (λ r. IsExported (D.state device).disk.view r.0.items) }
    ensures refused { IfErr result (λ e. HandsBack IsReadingFault D.state (crash_states_of D.moment D.possible_since) device e.1 e.0) }
    ensures small { (D.state device).size < 128 → IsErrAnd result (λ e. (e.0 ≡ Store Small) × (e.1 ≡ device)) }
    ensures counts { IfOk result (λ r. NothingCounted (D.state device) (D.state r.1)) }
    ensures at_crash { IsTrue (D.state device).honest → IfOk result (λ r. AddsNone (crash_states_of D.moment D.possible_since device) (crash_states_of D.moment D.possible_since r.1)) }
    ensures honest { IfOk result (λ r. (D.state r.1).honest ≡ (D.state device).honest) }
{
    let mut site = match open_site(alloc, device) {
        Ok(site) => site,
        Err((fault, device)) => return Err((ImageFault::from(fault), device)),
    };
    let exported = export_site(alloc, &mut site);
    let device = site.into_keeper().into_device();
    match exported {
        Ok(text) => Ok((text, device)),
        Err(fault) => Err((ImageFault::from(fault), device)),
    }
}
