// Why a line has no answer.
use ask_forms::AskFault;
use host_types::{Refused, SiteFault, SitePinFault};
use std::alloc::{AllocError, AllocFailed};
use std::fmt;
use url_page::UrlFault;

/// Why a line has no answer.
#[derive(Clone, Copy)]
pub(crate) enum Trouble {
    /// It has no form that is known.
    Line,
    /// Two ways that have to agree do not.
    Differs,
    /// A fault of a site, of a name or of memory.
    Site(SiteFault),
    /// No pin of the site was given.
    Pin(SitePinFault),
    Answers(AskFault),
    Link(UrlFault),
}

impl fmt::Display for Trouble {
    fn fmt<W: fmt::Write>(&self, f: &mut fmt::Formatter<W>) -> fmt::Result {
        match self {
            Trouble::Line => f.write_str("line"),
            Trouble::Differs => f.write_str("differs"),
            Trouble::Site(fault) => fault.fmt(f),
            Trouble::Pin(fault) => fault.fmt(f),
            Trouble::Answers(fault) => fault.fmt(f),
            Trouble::Link(fault) => fault.fmt(f),
        }
    }
}

impl From<AllocError> for Trouble {
    fn from(_: AllocError) -> Self {
        Trouble::Site(SiteFault::Memory)
    }
}

impl<T: Drop> From<AllocFailed<T>> for Trouble {
    fn from(_: AllocFailed<T>) -> Self {
        Trouble::Site(SiteFault::Memory)
    }
}

impl From<Refused> for Trouble {
    fn from(refused: Refused) -> Self {
        Trouble::Site(SiteFault::Refused(refused))
    }
}

impl From<SiteFault> for Trouble {
    fn from(fault: SiteFault) -> Self {
        Trouble::Site(fault)
    }
}

impl From<SitePinFault> for Trouble {
    fn from(fault: SitePinFault) -> Self {
        Trouble::Pin(fault)
    }
}

impl From<AskFault> for Trouble {
    fn from(fault: AskFault) -> Self {
        Trouble::Answers(fault)
    }
}

impl From<UrlFault> for Trouble {
    fn from(fault: UrlFault) -> Self {
        Trouble::Link(fault)
    }
}
