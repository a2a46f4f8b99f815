// New pages, and a new root over them.
ghost use Rattle.std.specs.Prelude.{length, ◌≤◌, ◌+◌, ◌*◌, IsTrue, All};
ghost use Rattle.sector_device.specs.Effects.{WriteOutcome, MadeIfOk};
ghost use Rattle.page_store.specs.Switch.{IsSlotPage};
ghost use Rattle.page_store.specs.Steps.{crash_states_of, AllAre};
ghost use Rattle.page_store.specs.DeviceEffects.{WritesDevice};
ghost use Rattle.page_store.specs.Commit.{numbers, IsSameOutside, ArePatched, MayBeCommitted};
ghost use Rattle.page_store.specs.CommitPages.{CommitsPages};

use crate::Slot;
use crate::pages::{switch_root, sync_all, write_page};
use sector_device::{Device, DeviceFault, PAGE_SIZE};

/// A page that is to be written.
#[derive(Clone, Copy)]
pub struct NewPage {
    pub number: u32,
    pub bytes: [u8; PAGE_SIZE],
}

/// Writes pages, one after another.
pub fn write_pages<D: Device>(device: &mut D, pages: &[NewPage]) -> Result<(), DeviceFault>
    requires { All (λ page. 8 * page.number + 8 ≤ (D.state device.old).size) pages.now }
    ensures pages { WritesDevice D.state (crash_states_of D.moment D.possible_since) device.old device.new result (ArePatched pages.now) (IsSameOutside (numbers pages.now)) }
    ensures work { MadeIfOk result 0 (8 * length pages.now) 0 (D.state device.old) (D.state device.new) }
{
    for page in pages {
        write_page(device, page.number, &page.bytes)?;
    }
    Ok(())
}

/// Writes pages to free places, makes sure of them, and then writes a root over them and makes sure of it. All else has to be sure before.
pub fn commit_pages<D: Device>(
    device: &mut D,
    pages: &[NewPage],
    slot: &Slot,
    root: &[u8; PAGE_SIZE],
) -> Result<(), DeviceFault>
    requires fits { All (λ page. 8 * page.number + 8 ≤ (D.state device.old).size) pages.now }
    requires slot { 8 * slot.now.number + 8 ≤ (D.state device.old).size }
    requires page { IsTrue (D.state device.old).honest → IsSlotPage (D.state device.old).size slot.now root.now }
    requires sure { IsTrue (D.state device.old).honest → AllAre (crash_states_of D.moment D.possible_since device.old) (D.state device.old).disk.view }
    requires ready { IsTrue (D.state device.old).honest → MayBeCommitted slot.now pages.now (D.state device.old).disk.view }
    ensures commits { CommitsPages D.state (crash_states_of D.moment D.possible_since) device.old device.new slot.now pages.now result }
    ensures outcome { WriteOutcome result (D.state device.old) (D.state device.new) }
    ensures work { MadeIfOk result 0 (8 * length pages.now + 8) 2 (D.state device.old) (D.state device.new) }
{
    write_pages(device, pages)?;
    sync_all(device)?;
    switch_root(device, slot, root)
}
