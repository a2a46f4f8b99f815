// What is printed of a file of changes.
ghost use Rattle.std.specs.Prelude.{◌≡◌, IfOk};
ghost use Rattle.std.specs.String.{string_bytes};
ghost use Rattle.change_file.specs.Printed as spec;

use crate::fault::ChangeFileFault;
use std::alloc::{AllocError, Global};

/// The line of a file whose changes are made, without its LF.
pub fn applied_line(alloc: Global, count: u64) -> Result<String, AllocError>
    ensures { IfOk result (λ t. string_bytes t ≡ spec.applied_line count) }
{
    format!(in alloc; "applied {count}")
}

/// What standard error gets of a file that says no changes, without its LF.
pub fn file_line(alloc: Global, fault: ChangeFileFault) -> Result<String, AllocError>
    ensures { IfOk result (λ t. string_bytes t ≡ spec.file_line fault) }
{
    match fault {
        ChangeFileFault::NotToml => String::from_str(alloc, "file: not TOML"),
        ChangeFileFault::Table(number) => format!(in alloc; "file: change {number}"),
        ChangeFileFault::Memory => String::from_str(alloc, "memory"),
    }
}
