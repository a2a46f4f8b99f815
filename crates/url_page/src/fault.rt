// Why a link has no page.
ghost use Rattle.std.specs.Prelude.{◌≡◌};
ghost use Rattle.url_page.specs.declared.fault.UrlFault.TheVariants.{Memory};

use std::alloc::{AllocError, AllocFailed};
use thiserror::Error;

/// Why a link has no page.
#[derive(Clone, Copy, Debug, PartialEq, Eq, Error)]
pub enum UrlFault {
    /// It is none that a browser is led to.
    #[error("NotAllowed")]
    NotAllowed,
    /// Out of memory.
    #[error("Memory")]
    Memory,
}

impl From<AllocError> for UrlFault {
    ghost from_gives = { λ _ e. e ≡ Memory };

    fn from(_: AllocError) -> Self {
        UrlFault::Memory
    }
}

impl<T: Drop> From<AllocFailed<T>> for UrlFault {
    ghost from_gives = { λ _ e. e ≡ Memory };

    fn from(_: AllocFailed<T>) -> Self {
        UrlFault::Memory
    }
}
