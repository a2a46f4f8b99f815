// Items that are removed.
ghost use Rattle.std.specs.Prelude.{◌≡◌, Some, Ok, IfOk, IfErr, map};
ghost use Rattle.std.specs.String.{string_bytes};
ghost use Rattle.change_file.specs.Changes as file;
ghost use Rattle.image_commands.specs.declared.fault.ImageFault.TheVariants.{Memory};
ghost use Rattle.gopher_host.specs.Kept as spec;

use change_file::FileChange;
use change_writer::ChangeWriter;
use host_types::{Change, Selector};
use image_commands::ImageFault;
use std::alloc::{AllocError, Global};

/// The change that removes the item of this name. One that is no selector is refused in its turn.
fn removal(name: &str) -> FileChange
    ensures { result ≡ spec.removal name.now }
{
    match Selector::new(name.as_bytes()) {
        Ok(selector) => FileChange::Change(Change::Remove(selector)),
        Err(refused) => FileChange::Refused(refused),
    }
}

/// The changes that remove the items of these names, one after another.
pub fn removals(alloc: Global, names: &[&str]) -> Result<Vec<FileChange>, ImageFault>
    ensures changes { IfOk result (λ changes. changes.items ≡ map (λ name. spec.removal name.now) names.now) }
    ensures fault { IfErr result (λ e. e ≡ Memory) }
{
    let mut changes = Vec::new(alloc);
    for name in names {
        changes.push(removal(name))?;
    }
    Ok(changes)
}

/// The file of changes that removes the items of these names, one after another.
pub fn removals_file(alloc: Global, names: &[&str]) -> Result<String, ImageFault>
    ensures text { IfOk result (λ t. file.read (string_bytes t) ≡ Some (Ok (map (λ name. spec.removal name.now) names.now))) }
    ensures fault { IfErr result (λ e. e ≡ Memory) }
{
    let mut file = ChangeWriter::new(alloc);
    for name in names {
        if file.remove(name).is_err() {
            return Err(ImageFault::Memory);
        }
    }
    Ok(file.text()?)
}

/// The line of how many items were removed, without its LF.
pub fn dropped_line(alloc: Global, count: u64) -> Result<String, AllocError>
    ensures { IfOk result (λ t. string_bytes t ≡ spec.dropped_line count) }
{
    format!(in alloc; "dropped {count}")
}
