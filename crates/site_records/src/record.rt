// Records of items.
ghost use Rattle.std.specs.Prelude.{◌≡◌};
ghost use Rattle.site_records.specs.declared.record.RecordFault.TheVariants.{Memory};

use host_types::{Bytes, CardViewList, Kind, Selector, Stamp, Title};
use std::alloc::{AllocError, AllocFailed};
use thiserror::Error;

/// Why a record or a part isn't read.
#[derive(Clone, Copy, Debug, PartialEq, Eq, Error)]
pub enum RecordFault {
    /// The bytes are not what is written of any item that keeps the limits.
    #[error("BadRecord")]
    BadRecord,
    /// Out of memory.
    #[error("Memory")]
    Memory,
}

impl From<AllocError> for RecordFault {
    ghost from_gives = { λ _ e. e ≡ Memory };

    fn from(_: AllocError) -> Self {
        RecordFault::Memory
    }
}

impl<T: Drop> From<AllocFailed<T>> for RecordFault {
    ghost from_gives = { λ _ e. e ≡ Memory };

    fn from(_: AllocFailed<T>) -> Self {
        RecordFault::Memory
    }
}

/// What a record says of a body: lengths stand in place of the views' bytes, of the entries of a menu and of the questions of a form.
#[derive(Debug, Drop)]
pub enum RecordBody {
    /// A document, in one or more views with their lengths.
    Views(Kind, CardViewList),
    /// A menu, by the length in bytes of its entries.
    Menu { size: u32 },
    /// A board of posts: how many it keeps, and the number of the next.
    Board { cap: u16, next: u64 },
    /// A form, by its board and the length in bytes of its questions.
    Form { board: Selector, size: u32 },
    /// A search of the items whose selectors begin with the scope.
    Search { scope: Selector },
    /// A note of where an item went.
    Moved { target: Selector },
}

/// What is kept of an item apart from its parts.
#[derive(Debug, Drop)]
pub struct Record {
    /// What menus show of it.
    pub title: Title,
    /// When it last changed.
    pub stamp: Stamp,
    /// From when on it isn't found, if it expires at all.
    pub until: Option<Stamp>,
    /// Empty where it has none.
    pub summary: Bytes,
    /// What it has beside.
    pub body: RecordBody,
}
