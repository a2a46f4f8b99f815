// Sectors and pages of a device.
ghost use Rattle.std.specs.Prelude.{◌≡◌, ◌+◌, ◌*◌, ◌<◌, ◌≤◌, IsTrue, OnOk, IfErr};
ghost use Rattle.sector_device.specs.Effects.{WriteOutcome, MadeExactly, MadeIfOk};
ghost use Rattle.common_types.specs.CrashStates.{AddsNone, AddsOnly};
ghost use Rattle.page_store.specs.Sectors.{sector, page_of};
ghost use Rattle.page_store.specs.Switch.{IsSlotPage, IsAbove, IsSwitching, IsSwitched};
ghost use Rattle.page_store.specs.Steps.{crash_states_of, AllAre, AreWritten, MayBeAllWritten};
ghost use Rattle.page_store.specs.DeviceEffects.{ReadsDevice, WritesDevice};

use crate::Slot;
use sector_device::{Device, DeviceFault, PAGE_SIZE, SECTOR_SIZE};

/// Reads one sector. A fault leaves the buffer. It takes no memory.
pub fn read_sector<D: Device>(
    device: &mut D,
    n: u64,
    buffer: &mut [u8; SECTOR_SIZE],
) -> Result<(), DeviceFault>
    requires { n < (D.state device.old).size }
    ensures sector { ReadsDevice D.state (crash_states_of D.moment D.possible_since) device.old device.new result (λ view _. sector view n ≡ buffer.new) }
    ensures untouched { IfErr result (λ e. buffer.new ≡ buffer.old) }
    ensures work { MadeExactly 1 0 0 (D.state device.old) (D.state device.new) }
{
    device.read(n, buffer)
}

/// Reads the eight sectors of a page. A fault may leave some of them in the buffer. It takes no memory.
pub fn fill_page<D: Device>(
    device: &mut D,
    page: u32,
    bytes: &mut [u8; PAGE_SIZE],
) -> Result<(), DeviceFault>
    requires { 8 * page + 8 ≤ (D.state device.old).size }
    ensures page { ReadsDevice D.state (crash_states_of D.moment D.possible_since) device.old device.new result (λ view _. page_of view page ≡ bytes.new) }
    ensures work { MadeIfOk result 8 0 0 (D.state device.old) (D.state device.new) }
{
    let first = 8 * page as u64;
    let mut sector = [0; SECTOR_SIZE];
    for part in 0..8 {
        read_sector(device, first + part as u64, &mut sector)?;
        bytes[SECTOR_SIZE * part..SECTOR_SIZE * part + SECTOR_SIZE].copy_from_slice(&sector);
    }
    Ok(())
}

/// Reads the eight sectors of a page. A fault leaves the buffer. It takes no memory.
pub fn read_page<D: Device>(
    device: &mut D,
    page: u32,
    bytes: &mut [u8; PAGE_SIZE],
) -> Result<(), DeviceFault>
    requires { 8 * page + 8 ≤ (D.state device.old).size }
    ensures page { ReadsDevice D.state (crash_states_of D.moment D.possible_since) device.old device.new result (λ view _. page_of view page ≡ bytes.new) }
    ensures untouched { IfErr result (λ e. bytes.new ≡ bytes.old) }
    ensures work { MadeIfOk result 8 0 0 (D.state device.old) (D.state device.new) }
{
    let mut read = [0; PAGE_SIZE];
    fill_page(device, page, &mut read)?;
    *bytes = read;
    Ok(())
}

/// Makes sure of all that the view shows.
pub fn sync_all<D: Device>(device: &mut D) -> Result<(), DeviceFault>
    ensures shows { IsTrue (D.state device.old).honest → OnOk result ((D.state device.new).disk.view ≡ (D.state device.old).disk.view) }
    ensures sure { IsTrue (D.state device.old).honest → OnOk result (AllAre (crash_states_of D.moment D.possible_since device.new) (D.state device.new).disk.view) }
    ensures outcome { WriteOutcome result (D.state device.old) (D.state device.new) }
    ensures at_crash { IsTrue (D.state device.old).honest → AddsNone (crash_states_of D.moment D.possible_since device.old) (crash_states_of D.moment D.possible_since device.new) }
    ensures work { MadeExactly 0 0 1 (D.state device.old) (D.state device.new) }
{
    device.sync()
}

/// Writes a page.
pub fn write_page<D: Device>(
    device: &mut D,
    page: u32,
    bytes: &[u8; PAGE_SIZE],
) -> Result<(), DeviceFault>
    requires { 8 * page + 8 ≤ (D.state device.old).size }
    ensures sectors { WritesDevice D.state (crash_states_of D.moment D.possible_since) device.old device.new result (AreWritten (8 * page) 8 bytes.now) (MayBeAllWritten (8 * page) 8 bytes.now) }
    ensures page { IsTrue (D.state device.old).honest → OnOk result (page_of (D.state device.new).disk.view page ≡ bytes.now) }
    ensures work { MadeIfOk result 0 8 0 (D.state device.old) (D.state device.new) }
{
    device.write_page(page, bytes)
}

/// Writes a slot's page over one of lesser generations, and makes sure of it. All else has to be sure before.
pub fn switch_root<D: Device>(
    device: &mut D,
    slot: &Slot,
    bytes: &[u8; PAGE_SIZE],
) -> Result<(), DeviceFault>
    requires fits { 8 * slot.now.number + 8 ≤ (D.state device.old).size }
    requires page { IsTrue (D.state device.old).honest → IsSlotPage (D.state device.old).size slot.now bytes.now }
    requires above { IsTrue (D.state device.old).honest → IsAbove slot.now.seal slot.now.number (D.state device.old).disk.view }
    requires sure { IsTrue (D.state device.old).honest → AllAre (crash_states_of D.moment D.possible_since device.old) (D.state device.old).disk.view }
    ensures done { IsTrue (D.state device.old).honest → OnOk result (IsSwitched slot.now (D.state device.old).disk.view (D.state device.new).disk.view × AllAre (crash_states_of D.moment D.possible_since device.new) (D.state device.new).disk.view) }
    ensures at_crash { IsTrue (D.state device.old).honest → AddsOnly (crash_states_of D.moment D.possible_since device.old) (crash_states_of D.moment D.possible_since device.new) (IsSwitching slot.now (D.state device.old).disk.view) }
    ensures outcome { WriteOutcome result (D.state device.old) (D.state device.new) }
    ensures work { MadeIfOk result 0 8 1 (D.state device.old) (D.state device.new) }
{
    write_page(device, slot.number, bytes)?;
    sync_all(device)
}
