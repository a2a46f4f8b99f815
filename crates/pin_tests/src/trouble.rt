// Why a line has no other answer.
use group_world::HubFault;
use host_types::{Refused, SiteFault};
use page_store::KeeperFault;
use site_store::SiteOpenFault;
use std::alloc::{AllocError, AllocFailed};
use thiserror::Error;

/// Why a line has no other answer.
#[derive(Clone, Copy, Debug, PartialEq, Eq, Error)]
pub(crate) enum Trouble {
    /// It has no form that is known.
    #[error("line")]
    Line,
    /// Of a keeper.
    #[error("fault {0}")]
    Keeper(KeeperFault),
    /// Of an opening.
    #[error("fault {0}")]
    Open(SiteOpenFault),
    /// Of a site, or of a name.
    #[error("fault {0}")]
    Site(SiteFault),
    /// Of a hub.
    #[error("fault {0}")]
    Hub(HubFault),
    /// What must not be.
    #[error("wrong: {0}")]
    Wrong(&'static str),
    /// Out of memory.
    #[error("memory")]
    Memory,
}

impl From<KeeperFault> for Trouble {
    fn from(fault: KeeperFault) -> Self {
        Trouble::Keeper(fault)
    }
}

impl From<SiteOpenFault> for Trouble {
    fn from(fault: SiteOpenFault) -> Self {
        Trouble::Open(fault)
    }
}

impl From<SiteFault> for Trouble {
    fn from(fault: SiteFault) -> Self {
        Trouble::Site(fault)
    }
}

impl From<HubFault> for Trouble {
    fn from(fault: HubFault) -> Self {
        Trouble::Hub(fault)
    }
}

impl From<Refused> for Trouble {
    fn from(refused: Refused) -> Self {
        Trouble::Site(SiteFault::Refused(refused))
    }
}

impl From<AllocError> for Trouble {
    fn from(_: AllocError) -> Self {
        Trouble::Memory
    }
}

impl<T: Drop> From<AllocFailed<T>> for Trouble {
    fn from(_: AllocFailed<T>) -> Self {
        Trouble::Memory
    }
}
