// Why a line of the rows has no other answer.
use group_world::HubFault;
use host_types::Refused;
use std::alloc::{AllocError, AllocFailed};

/// Why a line has no other answer. All but a fault of the hub end the program.
#[derive(Drop)]
pub(crate) enum RowFault {
    /// The line is none of the language.
    Line,
    /// The hub doesn't do what it is asked, or a name is none: this is the line's answer.
    Hub(HubFault),
    Memory,
    /// Standard output takes no more.
    Output,
}

impl From<HubFault> for RowFault {
    fn from(fault: HubFault) -> Self {
        RowFault::Hub(fault)
    }
}

impl From<Refused> for RowFault {
    fn from(refused: Refused) -> Self {
        RowFault::Hub(HubFault::Refused(refused))
    }
}

impl From<AllocError> for RowFault {
    fn from(_: AllocError) -> Self {
        RowFault::Memory
    }
}

impl<T: Drop> From<AllocFailed<T>> for RowFault {
    fn from(_: AllocFailed<T>) -> Self {
        RowFault::Memory
    }
}
