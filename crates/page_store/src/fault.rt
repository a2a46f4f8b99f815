// Faults of a key-value store.
ghost use Rattle.std.specs.Prelude.{◌≡◌};
ghost use Rattle.page_store.specs.declared.fault.KeeperFault.TheVariants.{Memory};

use std::alloc::{AllocError, AllocFailed};
use thiserror::Error;

/// Why a call of a key-value store fails.
#[derive(Clone, Copy, Debug, PartialEq, Eq, Error)]
pub enum KeeperFault {
    /// A read failed, or the sync of an opening.
    #[error("Device")]
    Device,
    /// No root slot is valid.
    #[error("NoImage")]
    NoImage,
    /// The image is of a form that the keeper doesn't hold.
    #[error("Version")]
    Version,
    /// A page is not what the image says.
    #[error("Damaged {page}")]
    Damaged {
        /// The number of the page.
        page: u32,
    },
    /// The device has too few sectors, or the image would have too few or too many pages.
    #[error("Small")]
    Small,
    /// No generation is left.
    #[error("Spent")]
    Spent,
    /// The batch needs more than is free.
    #[error("Full {need} {free}")]
    Full {
        /// How many pages the commit would write.
        need: u64,
        /// How many pages it may write.
        free: u64,
    },
    /// A write or a sync failed, in this call or before.
    #[error("Failed")]
    Failed,
    /// Out of memory.
    #[error("Memory")]
    Memory,
    /// The tree of pages would have too many levels.
    #[error("Deep")]
    Deep,
}

impl From<AllocError> for KeeperFault {
    ghost from_gives = { λ _ e. e ≡ Memory };

    fn from(_: AllocError) -> Self {
        KeeperFault::Memory
    }
}

impl<T: Drop> From<AllocFailed<T>> for KeeperFault {
    ghost from_gives = { λ _ e. e ≡ Memory };

    fn from(_: AllocFailed<T>) -> Self {
        KeeperFault::Memory
    }
}
