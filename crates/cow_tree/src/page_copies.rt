// Copies of pages.
ghost use Rattle.std.specs.Prelude.{◌≡◌, ◌≤◌, ◌+◌, ◌*◌, IsTrue, IfOk, IfErr};
ghost use Rattle.sector_device.specs.Effects.{MadeAtMost};
ghost use Rattle.page_store.specs.Sectors.{page_of};
ghost use Rattle.page_store.specs.Steps.{crash_states_of};
ghost use Rattle.cow_tree.specs.Walks.{ReadsTreePages};
ghost use Rattle.cow_tree.specs.declared.page_fault.PageFault.TheVariants.{Device as NoRead};

use crate::opening_walk::load_page;
use crate::page_fault::PageFault;
use sector_device::{Device, PAGE_SIZE};

/// Copies a page that the device lends, or else reads it.
pub(crate) fn copy_page<D: Device>(
    device: &mut D,
    page: u32,
    bytes: &mut [u8; PAGE_SIZE],
) -> Result<(), PageFault>
    requires { 8 * page + 8 ≤ (D.state device.old).size }
    ensures page { IsTrue (D.state device.old).honest → IfOk result (λ done. page_of (D.state device.old).disk.view page ≡ bytes.new) }
    ensures fault { IfErr result (λ e. e ≡ NoRead) }
    ensures reads { ReadsTreePages D.state (crash_states_of D.moment D.possible_since) device.old device.new result }
    ensures work { MadeAtMost 8 0 0 (D.state device.old) (D.state device.new) }
{
    if let Some(lent) = device.page(page) {
        *bytes = *lent;
        return Ok(());
    }
    load_page(device, page, bytes)
}
