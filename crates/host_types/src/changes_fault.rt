// Faults of several changes that are made in one step.
ghost use Rattle.std.specs.Prelude.{◌≡◌};
ghost use Rattle.host_types.specs.ChangesFaults.{fault_at, one_fault};
ghost use Rattle.host_types.specs.declared.changes_fault.ChangesFault.TheVariants.{Memory};

use crate::{Refused, SiteFault};
use std::alloc::{AllocError, AllocFailed};
use thiserror::Error;

/// Why several changes are not made, none of them.
#[derive(Clone, Copy, Debug, PartialEq, Eq, Error)]
pub enum ChangesFault {
    /// The change at this place, counted from 0, is the first that is not valid on the site with those before it.
    #[error("RefusedAt {place} {refused}")]
    RefusedAt {
        /// Its place.
        place: usize,
        /// Why it is not valid.
        refused: Refused,
    },
    /// A read of what the site is kept on failed.
    #[error("Read")]
    Read,
    /// The changes need more than is free.
    #[error("Full {need} {free}")]
    Full {
        /// How much they would take.
        need: u64,
        /// How much they may take.
        free: u64,
    },
    /// What the site is kept on takes no further change.
    #[error("Spent")]
    Spent,
    /// What the site is kept on would grow too many levels.
    #[error("Deep")]
    Deep,
    /// A write or a sync failed, in this call or before.
    #[error("Failed")]
    Failed,
    /// Out of memory.
    #[error("Memory")]
    Memory,
}

impl ChangesFault {
    /// The fault of the change at a place.
    pub fn at(place: usize, fault: SiteFault) -> Self
        ensures { result ≡ fault_at place fault }
    {
        match fault {
            SiteFault::Refused(refused) => ChangesFault::RefusedAt { place, refused },
            SiteFault::Read => ChangesFault::Read,
            SiteFault::Full { need, free } => ChangesFault::Full { need, free },
            SiteFault::Spent => ChangesFault::Spent,
            SiteFault::Deep => ChangesFault::Deep,
            SiteFault::Failed => ChangesFault::Failed,
            SiteFault::Memory => ChangesFault::Memory,
        }
    }

    /// The fault without its place.
    pub fn of_one(self) -> SiteFault
        ensures { result ≡ one_fault self }
    {
        match self {
            ChangesFault::RefusedAt { place: _, refused } => SiteFault::Refused(refused),
            ChangesFault::Read => SiteFault::Read,
            ChangesFault::Full { need, free } => SiteFault::Full { need, free },
            ChangesFault::Spent => SiteFault::Spent,
            ChangesFault::Deep => SiteFault::Deep,
            ChangesFault::Failed => SiteFault::Failed,
            ChangesFault::Memory => SiteFault::Memory,
        }
    }
}

impl From<AllocError> for ChangesFault {
    ghost from_gives = { λ _ e. e ≡ Memory };

    fn from(_: AllocError) -> Self {
        ChangesFault::Memory
    }
}

impl<T: Drop> From<AllocFailed<T>> for ChangesFault {
    ghost from_gives = { λ _ e. e ≡ Memory };

    fn from(_: AllocFailed<T>) -> Self {
        ChangesFault::Memory
    }
}
