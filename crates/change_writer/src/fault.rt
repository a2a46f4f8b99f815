// Why a change is not written.
ghost use Rattle.std.specs.Prelude.{◌≡◌};

use std::alloc::{AllocError, AllocFailed};
use thiserror::Error;

/// Why a change is not written.
#[derive(Clone, Copy, Debug, PartialEq, Eq, Error)]
pub enum WriteFault {
    /// No file of changes says it: a name or a summary of it is no UTF-8, a prompt is empty, a port is 0, or it is a post or a note of where an item went.
    #[error("not said")]
    Unsaid,
    /// Out of memory.
    #[error("memory")]
    Memory,
}

impl From<AllocError> for WriteFault {
    ghost use Rattle.change_writer.specs.declared.fault.WriteFault.TheVariants.{Memory};

    ghost from_gives = { λ _ fault. fault ≡ Memory };

    fn from(_: AllocError) -> Self {
        WriteFault::Memory
    }
}

impl<T: Drop> From<AllocFailed<T>> for WriteFault {
    ghost use Rattle.change_writer.specs.declared.fault.WriteFault.TheVariants.{Memory};

    ghost from_gives = { λ _ fault. fault ≡ Memory };

    fn from(_: AllocFailed<T>) -> Self {
        WriteFault::Memory
    }
}
