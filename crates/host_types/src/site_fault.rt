// Faults of a keeper of a site.
ghost use Rattle.std.specs.Prelude.{◌≡◌};
ghost use Rattle.host_types.specs.declared.site_fault.SiteFault.TheVariants.{Memory};

use crate::Refused;
use std::alloc::{AllocError, AllocFailed};
use thiserror::Error;

/// Why a call of a keeper of a site fails.
#[derive(Clone, Copy, Debug, PartialEq, Eq, Error)]
pub enum SiteFault {
    /// The change is not valid on the site as it stands.
    #[error("{0}")]
    Refused(Refused),
    /// A read of what the site is kept on failed.
    #[error("Read")]
    Read,
    /// The change needs more than is free.
    #[error("Full {need} {free}")]
    Full {
        /// How much it would take.
        need: u64,
        /// How much it may take.
        free: u64,
    },
    /// What the site is kept on takes no further change.
    #[error("Spent")]
    Spent,
    /// What the site is kept on would grow too many levels.
    #[error("Deep")]
    Deep,
    /// A write or a sync failed, in this call or before.
    #[error("Failed")]
    Failed,
    /// Out of memory.
    #[error("Memory")]
    Memory,
}

impl From<AllocError> for SiteFault {
    ghost from_gives = { λ _ e. e ≡ Memory };

    fn from(_: AllocError) -> Self {
        SiteFault::Memory
    }
}

impl<T: Drop> From<AllocFailed<T>> for SiteFault {
    ghost from_gives = { λ _ e. e ≡ Memory };

    fn from(_: AllocFailed<T>) -> Self {
        SiteFault::Memory
    }
}
