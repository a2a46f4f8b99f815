// Why a line has no other answer.
use host_on_disk::OpenFault;
use host_types::{Refused, SiteFault};
use image_commands::ImageFault;
use page_store::KeeperFault;
use sector_device::DeviceFault;
use std::alloc::{AllocError, AllocFailed};

/// Why a line has no other answer.
#[derive(Clone, Copy)]
pub(crate) enum Trouble {
    /// It has no form that is known.
    Line,
    Fault(ImageFault),
}

impl From<ImageFault> for Trouble {
    fn from(fault: ImageFault) -> Self {
        Trouble::Fault(fault)
    }
}

impl From<Refused> for Trouble {
    fn from(refused: Refused) -> Self {
        Trouble::Fault(ImageFault::from(refused))
    }
}

impl From<SiteFault> for Trouble {
    fn from(fault: SiteFault) -> Self {
        Trouble::Fault(ImageFault::from(fault))
    }
}

impl From<KeeperFault> for Trouble {
    fn from(fault: KeeperFault) -> Self {
        Trouble::Fault(ImageFault::from(fault))
    }
}

impl From<OpenFault> for Trouble {
    fn from(fault: OpenFault) -> Self {
        Trouble::Fault(ImageFault::from(fault))
    }
}

impl From<DeviceFault> for Trouble {
    fn from(fault: DeviceFault) -> Self {
        Trouble::Fault(ImageFault::from(fault))
    }
}

impl From<AllocError> for Trouble {
    fn from(_: AllocError) -> Self {
        Trouble::Fault(ImageFault::Memory)
    }
}

impl<T: Drop> From<AllocFailed<T>> for Trouble {
    fn from(_: AllocFailed<T>) -> Self {
        Trouble::Fault(ImageFault::Memory)
    }
}
