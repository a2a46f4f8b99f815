// Faults of a copy as lines of standard error.
ghost use Rattle.std.specs.Prelude.{◌≡◌, IfOk};
ghost use Rattle.std.specs.String.{string_bytes};
ghost use Rattle.image_copies.specs.CopyFaults as spec;

use crate::CopyFault;
use common_types::full_name;
use image_commands::{advice, fault_line};
use std::alloc::{AllocError, Global};

/// What standard error gets of a copy that is not made, without its LF.
pub fn copy_fault_line(alloc: Global, fault: CopyFault) -> Result<String, AllocError>
    ensures { IfOk result (λ t. string_bytes t ≡ spec.copy_fault_line fault) }
{
    match fault {
        CopyFault::Image(fault) => fault_line(alloc, fault),
        CopyFault::Small => String::from_str(alloc, "copy: Small"),
        CopyFault::Full { need, free } => {
            let name = full_name(alloc, need, free)?;
            format!(in alloc; "copy: {name}")
        }
        CopyFault::Failed => String::from_str(alloc, "copy: Failed"),
        CopyFault::NoFile => String::from_str(alloc, "copy: NoFile"),
        CopyFault::There => String::from_str(alloc, "copy: There"),
    }
}

/// What to do about a fault, as a sentence for a line of its own; empty where nothing is said.
pub fn copy_advice(fault: CopyFault) -> &'static str
    ensures { result.now ≡ spec.copy_advice fault }
{
    match fault {
        CopyFault::Image(fault) => advice(fault),
        CopyFault::Small => "An image has 16 to 65536 pages.",
        CopyFault::Full { .. } => "The site takes more pages than that: give more by --pages.",
        CopyFault::Failed => "",
        CopyFault::NoFile => "The new file can not be made, or another program has it open.",
        CopyFault::There => {
            "There is such a file already, which stays as it is: give another name, or remove it first."
        }
    }
}
