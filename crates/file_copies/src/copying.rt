// The image on a device, copied to a new file.
ghost use Rattle.std.specs.Prelude.{◌≡◌};
ghost use Rattle.std.specs.String.{string_bytes};
ghost use Rattle.file_copies.specs.FileCopies.{part_of, text_of, ComesOfOld};

use crate::new_file::make_new;
use file_device::{FileDevice, UsedFiles};
use file_names::NameLog;
use image_copies::{CopyFault, plan_copy};
use std::fs::{File, Files};

/// Copies the image on a device to a new file, lets go of the device behind that, and gives the line to print. The new image has as many pages as are asked for, or as many as the old one has. Nothing is written to the old one.
///
/// It is written under the name of its part, and gets its own once it is whole; what is left of an earlier such file is written over.
pub fn copy_opened<R: Files<File = File> + AllocGlobal>(
    rt: &R,
    used: &mut UsedFiles<'_, R>,
    names: &mut NameLog,
    old: FileDevice,
    part: &str,
    new: &str,
    pages: Option<u32>,
) -> Result<String, CopyFault>
    ensures { part.now ≡ part_of new.now → ComesOfOld new.now pages used.old.log.uses used.new.log.uses names.old.calls names.new.calls (text_of string_bytes result) old }
{
    let (copy, old) = match plan_copy(rt.alloc(), old, pages) {
        Ok((copy, old)) => (copy, old),
        Err((fault, old)) => {
            used.close(old);
            return Err(fault);
        }
    };
    let made = make_new(rt, used, names, &copy, part, new);
    used.close(old);
    made
}
