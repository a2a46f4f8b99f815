// Why a line has no other answer.
use host_on_disk::OpenFault;
use host_types::{Refused, SiteFault, SitePinFault};
use page_store::KeeperFault;
use sector_device::DeviceFault;
use site_records::RecordFault;
use site_store::SiteOpenFault;
use std::alloc::{AllocError, AllocFailed};
use std::fmt;

/// Why a line has no other answer.
#[derive(Clone, Copy)]
pub(crate) enum Trouble {
    /// It has no form that is known.
    Line,
    /// Something is not as it has to be.
    Wrong(&'static str),
    Device(DeviceFault),
    /// A fault of a keeper, of a record or of an opening.
    Open(OpenFault),
    /// A fault of a site, of a name or of memory.
    Site(SiteFault),
    /// No pin of the site was given.
    Pin(SitePinFault),
}

impl fmt::Display for Trouble {
    fn fmt<W: fmt::Write>(&self, f: &mut fmt::Formatter<W>) -> fmt::Result {
        match self {
            Trouble::Line => f.write_str("line"),
            Trouble::Wrong(what) => f.write_str(what),
            Trouble::Device(fault) => fault.fmt(f),
            Trouble::Open(fault) => fault.fmt(f),
            Trouble::Site(fault) => fault.fmt(f),
            Trouble::Pin(fault) => fault.fmt(f),
        }
    }
}

impl From<AllocError> for Trouble {
    fn from(_: AllocError) -> Self {
        Trouble::Site(SiteFault::Memory)
    }
}

impl<T: Drop> From<AllocFailed<T>> for Trouble {
    fn from(_: AllocFailed<T>) -> Self {
        Trouble::Site(SiteFault::Memory)
    }
}

impl From<Refused> for Trouble {
    fn from(refused: Refused) -> Self {
        Trouble::Site(SiteFault::Refused(refused))
    }
}

impl From<SiteFault> for Trouble {
    fn from(fault: SiteFault) -> Self {
        Trouble::Site(fault)
    }
}

impl From<SitePinFault> for Trouble {
    fn from(fault: SitePinFault) -> Self {
        Trouble::Pin(fault)
    }
}

impl From<DeviceFault> for Trouble {
    fn from(fault: DeviceFault) -> Self {
        Trouble::Device(fault)
    }
}

impl From<KeeperFault> for Trouble {
    fn from(fault: KeeperFault) -> Self {
        Trouble::Open(OpenFault::of_keeper(fault))
    }
}

impl From<SiteOpenFault> for Trouble {
    fn from(fault: SiteOpenFault) -> Self {
        Trouble::Open(OpenFault::of_site(fault))
    }
}

impl From<OpenFault> for Trouble {
    fn from(fault: OpenFault) -> Self {
        Trouble::Open(fault)
    }
}

impl From<RecordFault> for Trouble {
    fn from(fault: RecordFault) -> Self {
        match fault {
            RecordFault::BadRecord => Trouble::Open(OpenFault::BadRecord),
            RecordFault::Memory => Trouble::Open(OpenFault::Memory),
        }
    }
}
