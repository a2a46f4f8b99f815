// Faults of commands as lines of standard error.
ghost use Rattle.std.specs.Prelude.{◌≡◌, IfOk};
ghost use Rattle.std.specs.String.{string_bytes};
ghost use Rattle.image_commands.specs.FaultLines as spec;

use crate::ImageFault;
use common_types::{change_line, full_name, refused_name};
use page_store::KeeperFault;
use std::alloc::{AllocError, Global};

fn store_line(alloc: Global, fault: KeeperFault) -> Result<String, AllocError>
    ensures { IfOk result (λ t. string_bytes t ≡ spec.store_line fault) }
{
    match fault {
        KeeperFault::Device => String::from_str(alloc, "image: Device"),
        KeeperFault::NoImage => String::from_str(alloc, "image: NoImage"),
        KeeperFault::Version => String::from_str(alloc, "image: Version"),
        KeeperFault::Damaged { page } => format!(in alloc; "image: Damaged {page}"),
        KeeperFault::Small => String::from_str(alloc, "image: Small"),
        KeeperFault::Spent => String::from_str(alloc, "image: Spent"),
        KeeperFault::Deep => String::from_str(alloc, "image: Deep"),
        KeeperFault::Full { need, free } => {
            let name = full_name(alloc, need, free)?;
            format!(in alloc; "image: {name}")
        }
        KeeperFault::Failed => String::from_str(alloc, "image: Failed"),
        KeeperFault::Memory => String::from_str(alloc, "memory"),
    }
}

/// What standard error gets of a command that ends with status 1, without its LF.
pub fn fault_line(alloc: Global, fault: ImageFault) -> Result<String, AllocError>
    ensures { IfOk result (λ t. string_bytes t ≡ spec.fault_line fault) }
{
    match fault {
        ImageFault::Refused(refused) => change_line(alloc, 0, refused_name(refused)),
        ImageFault::NoFile => String::from_str(alloc, "image: NoFile"),
        ImageFault::BadRecord => String::from_str(alloc, "image: BadRecord"),
        ImageFault::Store(fault) => store_line(alloc, fault),
        ImageFault::Memory => String::from_str(alloc, "memory"),
    }
}

fn store_advice(fault: KeeperFault) -> &'static str
    ensures { result.now ≡ spec.store_advice fault }
{
    match fault {
        KeeperFault::NoImage => "The command `format` makes an image; what is in the file is lost.",
        KeeperFault::Version => {
            "The image was made by another version of the program: the command `upgrade` takes over one of an older version."
        }
        KeeperFault::Small => "An image has 16 to 65536 pages, and its file 4096 bytes for each.",
        KeeperFault::Device => {
            "A read of the file failed: the disk may be failing. Copy the file to another one first."
        }
        KeeperFault::Damaged { .. } => {
            "That page is not what the image says of it: take the last copy of the image."
        }
        KeeperFault::Spent => {
            "The image takes no further change: the command `copy` makes a new one of the same site."
        }
        KeeperFault::Full { .. } => {
            "The command `compact` gives back what changes left half full; `copy` with more pages makes a larger image."
        }
        KeeperFault::Failed => {
            "The disk did not take a write: it may be full, or failing. What was acknowledged before is stored."
        }
        KeeperFault::Deep | KeeperFault::Memory => "",
    }
}

/// What to do about a fault, as a sentence for a line of its own; empty where nothing is said.
pub fn advice(fault: ImageFault) -> &'static str
    ensures { result.now ≡ spec.advice fault }
{
    match fault {
        ImageFault::NoFile => {
            "The file is not there, can not be read and written, or another program has it open."
        }
        ImageFault::Store(fault) => store_advice(fault),
        ImageFault::Refused(_) => {
            "A host is 1 to 100 visible characters of ASCII, an administrator at most 100 bytes, a title at most 69; none has a TAB, CR or LF."
        }
        ImageFault::BadRecord => "The image holds no valid site: take its last copy.",
        ImageFault::Memory => "",
    }
}
