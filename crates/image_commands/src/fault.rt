// Faults of commands on an image.
ghost use Rattle.std.specs.Prelude.{◌≡◌};
ghost use Rattle.image_commands.specs.Faults.{of_store, of_opening, of_site, of_device};
ghost use Rattle.image_commands.specs.declared.fault.ImageFault.TheVariants.{Refused as RefusedName, Memory};

use host_on_disk::OpenFault;
use host_types::{Refused, SiteFault};
use page_store::KeeperFault;
use sector_device::DeviceFault;
use std::alloc::{AllocError, AllocFailed};
use thiserror::Error;

/// Why a command on an image ends with a fault.
#[derive(Clone, Copy, Debug, PartialEq, Eq, Error)]
pub enum ImageFault {
    /// A name for a new site is not valid.
    #[error("{0}")]
    Refused(Refused),
    /// There is no such file, or it can't be opened as a device.
    #[error("NoFile")]
    NoFile,
    /// What is kept represents no site.
    #[error("BadRecord")]
    BadRecord,
    /// The key-value store answered this fault.
    #[error("{0}")]
    Store(KeeperFault),
    /// Out of memory.
    #[error("memory")]
    Memory,
}

impl From<Refused> for ImageFault {
    ghost from_gives = { λ refused fault. fault ≡ RefusedName refused };

    fn from(refused: Refused) -> Self {
        ImageFault::Refused(refused)
    }
}

impl From<KeeperFault> for ImageFault {
    ghost from_gives = { λ store fault. fault ≡ of_store store };

    fn from(fault: KeeperFault) -> Self {
        match fault {
            KeeperFault::Memory => ImageFault::Memory,
            _ => ImageFault::Store(fault),
        }
    }
}

impl From<OpenFault> for ImageFault {
    ghost from_gives = { λ opening fault. fault ≡ of_opening opening };

    fn from(fault: OpenFault) -> Self {
        match fault {
            OpenFault::Keeper(fault) => ImageFault::from(fault),
            OpenFault::BadRecord => ImageFault::BadRecord,
            OpenFault::Memory => ImageFault::Memory,
        }
    }
}

impl From<SiteFault> for ImageFault {
    ghost from_gives = { λ site fault. fault ≡ of_site site };

    fn from(fault: SiteFault) -> Self {
        match fault {
            SiteFault::Refused(refused) => ImageFault::Refused(refused),
            SiteFault::Read => ImageFault::Store(KeeperFault::Device),
            SiteFault::Full { need, free } => ImageFault::Store(KeeperFault::Full { need, free }),
            SiteFault::Spent => ImageFault::Store(KeeperFault::Spent),
            SiteFault::Deep => ImageFault::Store(KeeperFault::Deep),
            SiteFault::Failed => ImageFault::Store(KeeperFault::Failed),
            SiteFault::Memory => ImageFault::Memory,
        }
    }
}

impl From<DeviceFault> for ImageFault {
    ghost from_gives = { λ device fault. fault ≡ of_device device };

    fn from(fault: DeviceFault) -> Self {
        match fault {
            DeviceFault::Device => ImageFault::Store(KeeperFault::Device),
            DeviceFault::NoFile => ImageFault::NoFile,
            DeviceFault::Memory => ImageFault::Memory,
        }
    }
}

impl From<AllocError> for ImageFault {
    ghost from_gives = { λ _ fault. fault ≡ Memory };

    fn from(_: AllocError) -> Self {
        ImageFault::Memory
    }
}

impl<T: Drop> From<AllocFailed<T>> for ImageFault {
    ghost from_gives = { λ _ fault. fault ≡ Memory };

    fn from(_: AllocFailed<T>) -> Self {
        ImageFault::Memory
    }
}
