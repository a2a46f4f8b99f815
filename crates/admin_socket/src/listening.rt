// A socket is made under a name.
ghost use Rattle.admin_socket.specs.Listening.{IsBound, IsBoundAnew, IsSocketMade};

use crate::calls::{SocketLog, SocketLook, bind, look_at, remove};
use mio::net::UnixListener;
use std::fs::Files;
use std::net::Net;
use thiserror::Error;

/// Why there is no socket on which administrators come.
#[derive(Clone, Copy, Debug, PartialEq, Eq, Error)]
pub enum SocketFault {
    /// Somebody answers on a socket of this name.
    #[error("admin: Taken")]
    Taken,
    /// What has this name is no socket.
    #[error("admin: There")]
    There,
    /// The system makes none of this name.
    #[error("admin: NoSocket")]
    NoSocket,
}

/// Makes a socket of a name under which nothing stands.
fn bound<R: Files + Net>(
    rt: &R,
    log: &mut SocketLog,
    name: &str,
) -> Result<UnixListener, SocketFault>
    ensures { IsBound name.now log.old.calls log.new.calls result }
{
    match bind(rt, log, name) {
        Ok(listener) => Ok(listener),
        Err(_) => Err(SocketFault::NoSocket),
    }
}

/// Makes a socket of a name in place of one that was left there.
fn bound_anew<R: Files + Net>(
    rt: &R,
    log: &mut SocketLog,
    name: &str,
) -> Result<UnixListener, SocketFault>
    ensures { IsBoundAnew name.now log.old.calls log.new.calls result }
{
    if !remove(rt, log, name) {
        return Err(SocketFault::NoSocket);
    }
    bound(rt, log, name)
}

/// Makes a socket of a name on which administrators come, for whoever runs the server alone. One on which nobody answers is removed before; nothing else is.
pub fn listen_at<R: Files + Net>(
    rt: &R,
    log: &mut SocketLog,
    name: &str,
) -> Result<UnixListener, SocketFault>
    ensures { IsSocketMade name.now log.old.calls log.new.calls result }
{
    match look_at(rt, log, name) {
        SocketLook::Missing => bound(rt, log, name),
        SocketLook::Left => bound_anew(rt, log, name),
        SocketLook::Answered => Err(SocketFault::Taken),
        SocketLook::Other => Err(SocketFault::There),
        SocketLook::Unknown => Err(SocketFault::NoSocket),
    }
}
