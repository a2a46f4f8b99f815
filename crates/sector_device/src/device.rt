// A disk of sectors, as the layers above see it.
ghost use Rattle.std.specs.Prelude.{◌≡◌, ◌<◌, ◌≤◌, ◌+◌, ◌*◌, List, ℕ, IfOk, OnOk, OnErr, IfErr, IfSome, IsTrue, length, slice_get, Some};
ghost use Rattle.sector_device.specs.declared.device.DeviceFault.{DeviceFault as Fault};
ghost use Rattle.sector_device.specs.declared.device.DeviceFault.TheVariants.{Device as Failing};
ghost use Rattle.sector_device.specs.Disk.{Sectors, Disk, IsImage, written, synced, WriteFailed, SyncFailed};
ghost use Rattle.common_types.specs.Counts.{counted, Counts};
ghost use Rattle.sector_device.specs.Device.{State, Elapses};
ghost use Rattle.sector_device.specs.Sectors.{page_of};
ghost use Rattle.sector_device.specs.DeviceEffects.{WritesDevice};
ghost use Rattle.sector_device.specs.Effects.{ReadOutcome, WriteOutcome, MadeExactly, MadeIfOk};
ghost use Rattle.sector_device.specs.Steps.{crash_states_of, AreWritten, MayBeAllWritten};

use crate::chunks::sector_of;
use crate::{PAGE_SIZE, SECTOR_SIZE};
use thiserror::Error;

/// Why a call of a device fails.
#[derive(Clone, Copy, Debug, PartialEq, Eq, Error)]
pub enum DeviceFault {
    /// A read, a write or a sync failed, and was counted.
    #[error("Device")]
    Device,
    /// A file can't be opened as a device.
    #[error("NoFile")]
    NoFile,
    /// Out of memory. No call of the trait answers it.
    #[error("Memory")]
    Memory,
}

/// Counts one more. At the greatest u64 the count stays.
#[tactic(auto, unfolding(common_types::specs::Counts::counted))]
pub(crate) fn count(calls: &mut u64)
    ensures { calls.new ≡ counted calls.old }
{
    *calls = calls.saturating_add(1);
}

/// Counts a call that fails, and gives its fault.
pub(crate) fn counted(failed: &mut u64) -> DeviceFault
    ensures next { failed.new ≡ counted failed.old }
    ensures fault { result ≡ Failing }
{
    count(failed);
    DeviceFault::Device
}

/// A disk of sectors of 512 bytes.
///
/// Whatever speaks of sectors, or of what a crash may leave, holds where the device is honest, that is, keeps its written meaning. No call
/// makes an honest device dishonest, or the other way round. Sizes, counts and the kind of a fault hold on every device.
pub trait Device {
    /// The disk, its size in sectors, whether the device is honest, the counts of failed calls, and how many calls were made.
    ghost state: { Self → State };

    /// The moment, as a number that doesn't fall.
    ghost moment: { Self → ℕ };

    /// What a crash at some moment from that one on might have left.
    ghost possible_since: { Self → ℕ → Sectors → Type 0 };

    /// How many sectors there are. It takes no memory.
    fn sectors(&self) -> u64
        ensures { result ≡ (state self.now).size };

    /// Reads sector n. A read that fails changes nothing but its count, and leaves the buffer. It takes no memory.
    fn read(&mut self, n: u64, buffer: &mut [u8; SECTOR_SIZE]) -> Result<(), DeviceFault>
        requires { n < (state self.old).size }
        ensures read { IsTrue (state self.old).honest → OnOk result (slice_get (state self.old).disk.view n ≡ Some buffer.new) }
        ensures untouched { IfErr result (λ e. buffer.new ≡ buffer.old) }
        ensures outcome { ReadOutcome result (state self.old) (state self.new) }
        ensures time { IsTrue (state self.old).honest → Elapses (moment self.old) (moment self.new) (possible_since self.old) (possible_since self.new) }
        ensures work { MadeExactly 1 0 0 (state self.old) (state self.new) };

    /// Lends the bytes of page n, the eight sectors from sector 8 n on, where the device keeps them in memory side by side; none else. No call is made for it. It takes no memory.
    fn page(&self, _n: u32) -> Option<&[u8; PAGE_SIZE]>
        ensures { IsTrue (state self.now).honest → IfSome result (λ bytes. page_of (state self.now).disk.view _n ≡ bytes.now) }
    {
        None
    }

    /// Writes sector n. Reads show it at once; a crash may leave it or not until a sync succeeds.
    fn write(&mut self, n: u64, bytes: &[u8; SECTOR_SIZE]) -> Result<(), DeviceFault>
        requires { n < (state self.old).size }
        ensures written { IsTrue (state self.old).honest → OnOk result ((state self.new).disk ≡ written n bytes.now (state self.old).disk) }
        ensures failed { IsTrue (state self.old).honest → OnErr result (WriteFailed n bytes.now (state self.old).disk (state self.new).disk) }
        ensures outcome { WriteOutcome result (state self.old) (state self.new) }
        ensures time { IsTrue (state self.old).honest → Elapses (moment self.old) (moment self.new) (possible_since self.old) (possible_since self.new) }
        ensures work { MadeExactly 0 1 0 (state self.old) (state self.new) };

    /// Writes page n, the eight sectors from sector 8 n on. A crash may leave each of them or not until a sync succeeds, also where the call fails. It counts as eight writes.
    fn write_page(&mut self, n: u32, bytes: &[u8; PAGE_SIZE]) -> Result<(), DeviceFault>
        requires { 8 * n + 8 ≤ (state self.old).size }
        ensures sectors { WritesDevice state (crash_states_of moment possible_since) self.old self.new result (AreWritten (8 * n) 8 bytes.now) (MayBeAllWritten (8 * n) 8 bytes.now) }
        ensures page { IsTrue (state self.old).honest → OnOk result (page_of (state self.new).disk.view n ≡ bytes.now) }
        ensures work { MadeIfOk result 0 8 0 (state self.old) (state self.new) }
    {
        let first = 8 * n as u64;
        for k in 0..8 {
            let sector = sector_of(bytes, k);
            self.write(first + k as u64, &sector)?;
        }
        Ok(())
    }

    /// Makes sure of all that reads give.
    fn sync(&mut self) -> Result<(), DeviceFault>
        ensures synced { IsTrue (state self.old).honest → OnOk result ((state self.new).disk ≡ synced (state self.old).disk) }
        ensures failed { IsTrue (state self.old).honest → OnErr result (SyncFailed (state self.old).disk (state self.new).disk) }
        ensures outcome { WriteOutcome result (state self.old) (state self.new) }
        ensures time { IsTrue (state self.old).honest → Elapses (moment self.old) (moment self.new) (possible_since self.old) (possible_since self.new) }
        ensures work { MadeExactly 0 0 1 (state self.old) (state self.new) };

    /// A crash at this moment leaves an image.
    ghost crash_states_are_images: { (d : Self) (c : Sectors) → IsTrue (state d).honest → possible_since d (moment d) c → IsImage (state d).disk c };

    /// Each image may be left by a crash at this moment.
    ghost each_image_is_a_crash_state: { (d : Self) (c : Sectors) → IsTrue (state d).honest → IsImage (state d).disk c → possible_since d (moment d) c };

    /// What reads give is an image.
    ghost view_is_image: { (d : Self) → IsTrue (state d).honest → IsImage (state d).disk (state d).disk.view };

    ghost base_has_size: { (d : Self) → IsTrue (state d).honest → length (state d).disk.base ≡ (state d).size };
}
