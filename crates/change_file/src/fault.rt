// What a file of changes gives, and why it gives nothing.
ghost use Rattle.std.specs.Prelude.{◌≡◌};

use host_types::{Change, Refused, SiteFault};
use std::alloc::{AllocError, AllocFailed};
use thiserror::Error;

/// What a table of a file of changes asks for.
#[derive(Debug, Drop)]
pub enum FileChange {
    /// A change of the site.
    Change(Change),
    /// A change with a name that its type refuses: it is refused when its turn comes.
    Refused(Refused),
}

/// Why a file gives no changes.
#[derive(Clone, Copy, Debug, PartialEq, Eq, Error)]
pub enum ChangeFileFault {
    /// The bytes are no document of TOML, or no UTF-8.
    #[error("not TOML")]
    NotToml,
    /// The table of this number has not the form of a change. They count from 1; 0 is the outer table.
    #[error("change {0}")]
    Table(u64),
    /// Out of memory.
    #[error("memory")]
    Memory,
}

impl<T: Drop> From<AllocFailed<T>> for ChangeFileFault {
    ghost use Rattle.change_file.specs.declared.fault.ChangeFileFault.TheVariants.{Memory};

    ghost from_gives = { λ _ e. e ≡ Memory };

    fn from(_: AllocFailed<T>) -> Self {
        ChangeFileFault::Memory
    }
}

/// The change of a file that was not made.
#[derive(Clone, Copy, Debug, PartialEq, Eq, Error)]
#[error("change {number}: {fault}")]
pub struct ApplyFault {
    /// Its number, from 1.
    pub number: u64,
    /// Why it was not made.
    pub fault: SiteFault,
}

/// Why a part of a file cannot be read.
#[derive(Clone, Copy, Debug, PartialEq, Eq)]
pub enum FormFault {
    /// It has another form.
    Form,
    /// Out of memory.
    Memory,
}

impl From<AllocError> for FormFault {
    ghost use Rattle.change_file.specs.declared.fault.FormFault.TheVariants.{Memory};

    ghost from_gives = { λ _ e. e ≡ Memory };

    fn from(_: AllocError) -> Self {
        FormFault::Memory
    }
}

impl<T: Drop> From<AllocFailed<T>> for FormFault {
    ghost use Rattle.change_file.specs.declared.fault.FormFault.TheVariants.{Memory};

    ghost from_gives = { λ _ e. e ≡ Memory };

    fn from(_: AllocFailed<T>) -> Self {
        FormFault::Memory
    }
}
