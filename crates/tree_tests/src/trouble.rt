// Why a line has no other answer.
use page_store::KeeperFault;
use sector_device::DeviceFault;
use std::alloc::{AllocError, AllocFailed};
use thiserror::Error;

/// Why a line has no other answer.
#[derive(Clone, Copy, Debug, PartialEq, Eq, Error)]
pub(crate) enum Trouble {
    /// It has no form that is known.
    #[error("line")]
    Line,
    /// Of a keeper.
    #[error("fault {0}")]
    Keeper(KeeperFault),
    /// Of a device.
    #[error("fault {0}")]
    Device(DeviceFault),
    /// What must not be.
    #[error("wrong: {0}")]
    Wrong(&'static str),
    /// Out of memory.
    #[error("memory")]
    Memory,
}

impl From<KeeperFault> for Trouble {
    fn from(fault: KeeperFault) -> Self {
        match fault {
            KeeperFault::Memory => Trouble::Memory,
            _ => Trouble::Keeper(fault),
        }
    }
}

impl From<DeviceFault> for Trouble {
    fn from(fault: DeviceFault) -> Self {
        Trouble::Device(fault)
    }
}

impl From<AllocError> for Trouble {
    fn from(_: AllocError) -> Self {
        Trouble::Memory
    }
}

impl<T: Drop> From<AllocFailed<T>> for Trouble {
    fn from(_: AllocFailed<T>) -> Self {
        Trouble::Memory
    }
}
