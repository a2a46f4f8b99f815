// Faults of opening a site, and of reading what is kept of it.
ghost use Rattle.std.specs.Prelude.{◌≡◌};
ghost use Rattle.site_store.specs.declared.fault.SiteOpenFault.TheVariants.{Memory};

use page_store::KeeperFault;
use std::alloc::{AllocError, AllocFailed};
use thiserror::Error;

/// Why a site isn't opened.
#[derive(Clone, Copy, Debug, PartialEq, Eq, Error)]
pub enum SiteOpenFault {
    /// What is kept represents no site.
    #[error("BadRecord")]
    BadRecord,
    /// The key-value store answered this fault.
    #[error("{0}")]
    Keeper(KeeperFault),
    /// Out of memory.
    #[error("Memory")]
    Memory,
}

impl From<AllocError> for SiteOpenFault {
    ghost from_gives = { λ _ e. e ≡ Memory };

    fn from(_: AllocError) -> Self {
        SiteOpenFault::Memory
    }
}

impl<T: Drop> From<AllocFailed<T>> for SiteOpenFault {
    ghost from_gives = { λ _ e. e ≡ Memory };

    fn from(_: AllocFailed<T>) -> Self {
        SiteOpenFault::Memory
    }
}
