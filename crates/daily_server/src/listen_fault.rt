// Why no address is listened on.
ghost use Rattle.std.specs.Prelude.{◌≡◌};
ghost use Rattle.daily_server.specs.NetCauses.{cause_of};

use std::io::ErrorKind;
use thiserror::Error;

/// Why the system gives no listener at an address.
#[derive(Clone, Copy, Debug, PartialEq, Eq)]
pub enum NetCause {
    /// Another program listens there.
    Taken,
    /// The address is none of this machine.
    Elsewhere,
    /// The program may not listen there.
    Forbidden,
    Other,
}

impl NetCause {
    /// By the kind of the system's error.
    pub fn of(kind: ErrorKind) -> NetCause
        ensures { result ≡ cause_of kind }
    {
        match kind {
            ErrorKind::AddrInUse => NetCause::Taken,
            ErrorKind::AddrNotAvailable => NetCause::Elsewhere,
            ErrorKind::PermissionDenied => NetCause::Forbidden,
            _ => NetCause::Other,
        }
    }
}

/// Why a service is not opened.
#[derive(Clone, Copy, Debug, PartialEq, Eq, Error)]
pub enum ListenFault {
    /// No listener was had at its address.
    #[error("net")]
    Net(NetCause),
    #[error("memory")]
    Memory,
}
