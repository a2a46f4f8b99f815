// Faults of opening a device as a site.
ghost use Rattle.std.specs.Prelude.{◌≡◌};
ghost use Rattle.host_on_disk.specs.OpenFaults.{of_keeper, of_site};

use page_store::KeeperFault;
use site_store::SiteOpenFault;
use thiserror::Error;

/// Why a device isn't opened as a site.
#[derive(Clone, Copy, Debug, PartialEq, Eq, Error)]
pub enum OpenFault {
    /// The key-value store answered this fault.
    #[error("{0}")]
    Keeper(KeeperFault),
    /// What is kept represents no site.
    #[error("BadRecord")]
    BadRecord,
    /// Out of memory.
    #[error("Memory")]
    Memory,
}

impl OpenFault {
    /// A keeper's fault.
    pub fn of_keeper(fault: KeeperFault) -> Self
        ensures { result ≡ of_keeper fault }
    {
        match fault {
            KeeperFault::Memory => OpenFault::Memory,
            _ => OpenFault::Keeper(fault),
        }
    }

    /// A fault of reading the site.
    pub fn of_site(fault: SiteOpenFault) -> Self
        ensures { result ≡ of_site fault }
    {
        match fault {
            SiteOpenFault::BadRecord => OpenFault::BadRecord,
            SiteOpenFault::Keeper(fault) => OpenFault::of_keeper(fault),
            SiteOpenFault::Memory => OpenFault::Memory,
        }
    }
}
