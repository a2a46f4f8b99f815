// A new image in a file, which gets its name once it is whole.
ghost use Rattle.std.specs.Prelude.{◌≡◌, ◌⊎◌, ◌*◌, ◌++◌, ◌∷◌, [], true, false, ℕ, IfOk, IfErr, OnOk};
ghost use Rattle.std.specs.String.{string_bytes};
ghost use Rattle.host_types.specs.Site.{Site};
ghost use Rattle.file_names.specs.NameCalls.{Looked, Renamed, Synced};
ghost use Rattle.file_names.specs.declared.names.Look.{Look as Answer};
ghost use Rattle.file_names.specs.declared.names.Look.TheVariants.{Missing};
ghost use Rattle.image_copies.specs.Copies.{IsCopyOf};
ghost use Rattle.image_copies.specs.declared.fault.CopyFault.TheVariants.{Failed};
ghost use Rattle.file_copies.specs.FileCopies as spec;
ghost use Rattle.file_copies.specs.FileCopies.{part_of, text_of, IsRefused, NamesOf, MakesNew};

use file_device::{FileDevice, UsedFiles};
use file_names::{Look, NameLog, look_for, rename, sync_folder};
use image_commands::ImageFault;
use image_copies::{CopyFault, SiteCopy};
use sector_device::DeviceFault;
use std::alloc::{AllocError, Global};
use std::fs::{File, Files};

/// The name under which a new image is written.
pub fn part_name(alloc: Global, new: &str) -> Result<String, AllocError>
    ensures { IfOk result (λ part. string_bytes part ≡ part_of new.now) }
{
    format!(in alloc; "{new}.part")
}

/// Refuses where there may be a file of this name.
pub fn expect_missing<R: Files>(files: &R, names: &mut NameLog, new: &str) -> Result<(), CopyFault>
    ensures missing { OnOk result (names.new.calls ≡ names.old.calls ++ Looked new.now Missing ∷ []) }
    ensures refused { IfErr result (λ e. (answer : Answer) × IsRefused answer e × (names.new.calls ≡ names.old.calls ++ Looked new.now answer ∷ [])) }
{
    match look_for(files, names, new) {
        Look::Missing => Ok(()),
        Look::There => Err(CopyFault::There),
        Look::Unknown => Err(CopyFault::NoFile),
    }
}

/// A fault of having the new file.
fn not_had(fault: DeviceFault) -> CopyFault
    ensures { result ≡ spec.of_new_file fault }
{
    match fault {
        DeviceFault::NoFile => CopyFault::NoFile,
        DeviceFault::Device | DeviceFault::Memory => CopyFault::Image(ImageFault::from(fault)),
    }
}

/// Gives a file its name, and makes sure of that.
fn name_new<R: Files>(
    files: &R,
    names: &mut NameLog,
    part: &str,
    new: &str,
) -> Result<(), CopyFault>
    ensures named { OnOk result (names.new.calls ≡ names.old.calls ++ Renamed part.now new.now true ∷ Synced new.now true ∷ []) }
    ensures failed { IfErr result (λ e. (e ≡ Failed) × ((names.new.calls ≡ names.old.calls ++ Renamed part.now new.now false ∷ []) ⊎ (names.new.calls ≡ names.old.calls ++ Renamed part.now new.now true ∷ Synced new.now false ∷ []))) }
{
    if !rename(files, names, part, new) {
        return Err(CopyFault::Failed);
    }
    if !sync_folder(files, names, new) {
        return Err(CopyFault::Failed);
    }
    Ok(())
}

/// Writes a new image, gives its file its name, and gives the line to print.
fn write_new<R: Files + AllocGlobal>(
    rt: &R,
    names: &mut NameLog,
    copy: &SiteCopy,
    device: &mut FileDevice,
    part: &str,
    new: &str,
) -> Result<String, CopyFault>
    ensures { (s : Site) (count : ℕ) → IsCopyOf s count copy.now → part.now ≡ part_of new.now → NamesOf s count new.now device.old device.new names.old.calls names.new.calls (text_of string_bytes result) }
{
    let line = match copy.write(rt.alloc(), device) {
        Ok(line) => line,
        Err(fault) => return Err(fault),
    };
    match name_new(rt, names, part, new) {
        Ok(()) => {}
        Err(fault) => return Err(fault),
    }
    Ok(line)
}

/// How many sectors the file of a new image has.
fn sectors_of(copy: &SiteCopy) -> u64
    ensures { (s : Site) (count : ℕ) → IsCopyOf s count copy.now → result ≡ 8 * count }
{
    8 * u64::from(copy.pages())
}

/// Makes the file of a new image beside its name, writes the image, gives the file its name, and gives the line to print.
pub(crate) fn make_new<R: Files<File = File> + AllocGlobal>(
    rt: &R,
    used: &mut UsedFiles<'_, R>,
    names: &mut NameLog,
    copy: &SiteCopy,
    part: &str,
    new: &str,
) -> Result<String, CopyFault>
    ensures { (s : Site) (count : ℕ) → IsCopyOf s count copy.now → part.now ≡ part_of new.now → MakesNew s count new.now used.old.log.uses used.new.log.uses names.old.calls names.new.calls (text_of string_bytes result) }
{
    let sectors = sectors_of(copy);
    let mut device = match used.create(part, sectors) {
        Ok(device) => device,
        Err(fault) => return Err(not_had(fault)),
    };
    let made = write_new(rt, names, copy, &mut device, part, new);
    used.close(device);
    made
}
