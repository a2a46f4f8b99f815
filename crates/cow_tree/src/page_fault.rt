// Faults of pages that are read.
ghost use Rattle.std.specs.Prelude.{◌≡◌};
ghost use Rattle.cow_tree.specs.Opening.{fault_of};

use page_store::KeeperFault;
use thiserror::Error;

/// Why a page can't be read.
#[derive(Clone, Copy, Debug, PartialEq, Eq, Error)]
pub(crate) enum PageFault {
    /// A read failed.
    #[error("Device")]
    Device,
    /// The page is not what the image says.
    #[error("Damaged {page}")]
    Damaged {
        /// The number of the page.
        page: u32,
    },
}

impl From<PageFault> for KeeperFault {
    ghost from_gives = { λ fault e. e ≡ fault_of fault };

    fn from(fault: PageFault) -> KeeperFault {
        match fault {
            PageFault::Device => KeeperFault::Device,
            PageFault::Damaged { page } => KeeperFault::Damaged { page },
        }
    }
}
