// What holds of the definitions, and a caller over any device.
ghost use Rattle.std.specs.Prelude.{◌≡◌, ◌<◌, ℕ, List, Some, IfOk, IfErr, IsTrue, slice_get};
ghost use Rattle.sector_device.specs.Disk.{Sectors, Disk, IsImage};
ghost use Rattle.sector_device.specs.Device.{CountsFirst};
ghost use Rattle.sector_device.specs.Effects.{IsSameDevice};
ghost use Rattle.sector_device.specs.declared.device.DeviceFault.TheVariants.{Device as Failing};
ghost use Rattle.sector_device.specs.AfterStop.{after_stop};
ghost use Rattle.sector_device.specs.CrashExamples.{CrashExamples};
ghost use Rattle.sector_device.specs.Once.{OnlyFails};

use crate::{Device, DeviceFault, SECTOR_SIZE};

/// Worked examples of what a crash leaves.
pub fn worked_examples()
    ensures { CrashExamples }
{}

/// Whatever places are picked, what is left is an image.
pub fn picks_leave_images()
    ensures { (picks : List ℕ) (disk : Disk) → IsImage disk (after_stop picks disk) }
{}

/// Every image is left by some picks.
pub fn each_image_is_picked()
    ensures { (disk : Disk) (image : Sectors) → IsImage disk image → (picks : List ℕ) × (after_stop picks disk ≡ image) }
{}

/// Of a device of which one call fails, it is the call of the number that it was made with.
pub fn only_that_call_fails()
    ensures { (call : ℕ) → OnlyFails call }
{}

/// Writes a sector, makes sure of it, and reads it again, up to the first call that fails.
pub fn store<D: Device>(
    device: &mut D,
    n: u64,
    bytes: &[u8; SECTOR_SIZE],
) -> Result<[u8; SECTOR_SIZE], DeviceFault>
    requires { n < (D.state device.old).size }
    ensures same { IsSameDevice (D.state device.old) (D.state device.new) }
    ensures read { IsTrue (D.state device.old).honest → IfOk result (λ read. read ≡ bytes.now) }
    ensures counts { CountsFirst result (D.state device.old) (D.state device.new) }
    ensures fault { IfErr result (λ e. e ≡ Failing) }
    ensures stays { IsTrue (D.state device.old).honest → IfOk result (λ _. (image : Sectors) → D.possible_since device.new (D.moment device.new) image → slice_get image n ≡ Some bytes.now) }
{
    device.write(n, bytes)?;
    device.sync()?;
    let mut buffer = [0; SECTOR_SIZE];
    device.read(n, &mut buffer)?;
    Ok(buffer)
}
