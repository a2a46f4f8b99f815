// What is printed of a server that ended.
ghost use Rattle.std.specs.Prelude.{◌≡◌, IfOk};
ghost use Rattle.std.specs.String.{string_bytes};
ghost use Rattle.image_server.specs.Lines as spec;

use crate::ServingFault;
use host_on_disk::OpenFault;
use image_commands::{ImageFault, fault_line};
use page_store::KeeperFault;
use socket_wires::ServeFault;
use std::alloc::{AllocError, Global};

/// The line of how many replies were written whole, without its LF.
pub fn served_line(alloc: Global, served: u64) -> Result<String, AllocError>
    ensures { IfOk result (λ t. string_bytes t ≡ spec.served_line served) }
{
    format!(in alloc; "served {served}")
}

/// What standard error gets where a round ended the server, without its LF.
pub fn round_line(alloc: Global, fault: ServeFault) -> Result<String, AllocError>
    ensures { IfOk result (λ t. string_bytes t ≡ spec.round_line fault) }
{
    match fault {
        ServeFault::Net => String::from_str(alloc, "net"),
        ServeFault::Failed => {
            let failed = OpenFault::Keeper(KeeperFault::Failed);
            fault_line(alloc, ImageFault::from(failed))
        }
        ServeFault::Memory => String::from_str(alloc, "memory"),
    }
}

/// What standard error gets where nothing is served, without its LF.
pub fn serving_line(alloc: Global, fault: ServingFault) -> Result<String, AllocError>
    ensures { IfOk result (λ t. string_bytes t ≡ spec.serving_line fault) }
{
    match fault {
        ServingFault::Image(fault) => fault_line(alloc, ImageFault::from(fault)),
        ServingFault::Listener(..) | ServingFault::Net => String::from_str(alloc, "net"),
    }
}
