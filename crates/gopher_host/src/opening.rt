// Opens the image in a file, and lets go of it.
ghost use Rattle.std.specs.Prelude.{◌≡◌, [], ◌∷◌, ◌++◌, IfOk, IfErr};
ghost use Rattle.file_device.specs.FileUses.{asked_for, Left};
ghost use Rattle.file_device.specs.Opening.{IsOpened, IsUnused};
ghost use Rattle.file_device.specs.declared.file_call.FileCall.TheVariants.{Lock, Open};
ghost use Rattle.gopher_host.specs.Endings as spec;
ghost use Rattle.gopher_host.specs.ImageFiles.{IsNotThere};

use file_device::{FileDevice, UsedFiles};
use image_commands::ImageFault;

/// The image in a file.
pub fn open(used: &mut UsedFiles<'_, HostRuntime>, image: &str) -> Result<FileDevice, ImageFault>
    ensures noted { used.new.log.uses ≡ used.old.log.uses ++ asked_for image.now result ∷ [] }
    ensures opened { IfOk result (λ device. IsOpened (Lock ∷ Open ∷ []) device) }
    ensures named { IfOk result (λ device. device.path ≡ image.now) }
    ensures unused { IfOk result (λ device. IsUnused device) }
    ensures fault { IfErr result IsNotThere }
{
    match used.open(image) {
        Ok(device) => Ok(device),
        Err(fault) => Err(ImageFault::from(fault)),
    }
}

/// Lets go of the device that was given beside an answer, and gives the answer.
pub fn closed<A, E>(
    used: &mut UsedFiles<'_, HostRuntime>,
    given: Result<(A, FileDevice), (E, FileDevice)>,
) -> Result<A, E>
    ensures given { result ≡ spec.given_beside given }
    ensures left { used.new.log.uses ≡ used.old.log.uses ++ Left (spec.device_beside given) ∷ [] }
{
    match given {
        Ok((answer, device)) => {
            used.close(device);
            Ok(answer)
        }
        Err((fault, device)) => {
            used.close(device);
            Err(fault)
        }
    }
}
