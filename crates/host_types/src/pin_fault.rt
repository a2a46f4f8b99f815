// Faults of a pin of a site.
ghost use Rattle.std.specs.Prelude.{◌≡◌};
ghost use Rattle.host_types.specs.declared.pin_fault.SitePinFault.TheVariants.{Memory};

use std::alloc::{AllocError, AllocFailed};
use thiserror::Error;

/// Why a keeper of a site gives no pin.
#[derive(Clone, Copy, Debug, PartialEq, Eq, Error)]
pub enum SitePinFault {
    /// A write or a sync failed before.
    #[error("Failed")]
    Failed,
    /// All 32 pins are out.
    #[error("Crowded")]
    Crowded,
    /// Out of memory.
    #[error("Memory")]
    Memory,
}

impl From<AllocError> for SitePinFault {
    ghost from_gives = { λ _ e. e ≡ Memory };

    fn from(_: AllocError) -> Self {
        SitePinFault::Memory
    }
}

impl<T: Drop> From<AllocFailed<T>> for SitePinFault {
    ghost from_gives = { λ _ e. e ≡ Memory };

    fn from(_: AllocFailed<T>) -> Self {
        SitePinFault::Memory
    }
}
