// Why a part of a folder can't be said as a change.
ghost use Rattle.std.specs.Prelude.{◌≡◌};
ghost use Rattle.folder_import.specs.declared.fault.ImportFault.TheVariants as faults;

use change_writer::WriteFault;
use common_types::Refused;
use std::alloc::{AllocError, AllocFailed};
use thiserror::Error;

/// Why a part of a folder can't be said as a change.
#[derive(Clone, Copy, Debug, PartialEq, Eq, Error)]
pub enum ImportFault {
    /// A name is not valid on a site.
    #[error("{0}")]
    Name(Refused),
    /// Only one of host and port is told, and so the other is that of the site, which the folder doesn't tell.
    #[error("host without its port")]
    Place,
    /// No file of changes says it.
    #[error("not said")]
    Unsaid,
    /// Out of memory.
    #[error("memory")]
    Memory,
}

impl From<Refused> for ImportFault {
    ghost from_gives = { λ refused fault. fault ≡ faults.Name refused };

    fn from(refused: Refused) -> Self {
        ImportFault::Name(refused)
    }
}

impl From<WriteFault> for ImportFault {
    ghost use Rattle.folder_import.specs.Pages.{of_writer};

    ghost from_gives = { λ written fault. fault ≡ of_writer written };

    fn from(fault: WriteFault) -> Self {
        match fault {
            WriteFault::Unsaid => ImportFault::Unsaid,
            WriteFault::Memory => ImportFault::Memory,
        }
    }
}

impl From<AllocError> for ImportFault {
    ghost from_gives = { λ _ fault. fault ≡ faults.Memory };

    fn from(_: AllocError) -> Self {
        ImportFault::Memory
    }
}

impl<T: Drop> From<AllocFailed<T>> for ImportFault {
    ghost from_gives = { λ _ fault. fault ≡ faults.Memory };

    fn from(_: AllocFailed<T>) -> Self {
        ImportFault::Memory
    }
}
