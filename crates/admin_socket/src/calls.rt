// The calls of the system about a socket's name. Each function here makes one of them and notes it. That it makes the call which it notes, no clause can say:
// so each is short, and tests on real sockets hold it.
ghost use Rattle.std.specs.Prelude.{◌≡◌, List, [], ◌∷◌, ◌++◌, None, IfOk, IfErr, OnSome, true, false};
ghost use Rattle.std.specs.Borrow.{ftrue};
ghost use Rattle.admin_socket.specs.SocketCalls as spec;
ghost use Rattle.admin_socket.specs.SocketCalls.{SocketCall, call_of};

use mio::net::{UnixListener, UnixStream};
use std::fs::Files;
use std::io::ErrorKind;
use std::marker::Model;
use std::net::Net;
use std::os::fd::{AsFd, AsRawFd};
use std::os::unix::fs::FileTypeExt;
use std::os::unix::net::{SocketAddr, UnixListener as Listener, UnixStream as Stream};
use std::{fs, io};

/// How many administrators wait for their turn, at most.
const MOST_WAITING: i32 = 16;

/// A socket is for whoever runs the server alone.
const MODE: u32 = 0o600;

/// What stands under the name of a socket that is to be made.
#[derive(Clone, Copy, Debug, PartialEq, Eq)]
pub enum SocketLook {
    /// Nothing.
    Missing,
    /// A socket on which nobody answers.
    Left,
    /// A socket on which somebody answers.
    Answered,
    /// No socket.
    Other,
    /// The system doesn't say.
    Unknown,
}

/// What is noted of a call.
#[derive(Clone, Copy)]
pub(crate) enum SocketKind {
    /// What stands under a name.
    Looked(SocketLook),
    /// What stood under a name is gone, or isn't.
    Removed(bool),
    /// A socket of a name was made, or wasn't.
    Bound(bool),
    /// A connection to a socket was had, or wasn't.
    Connected(bool),
}

/// What was asked about names of sockets, in order. Only clauses read it, and it takes no memory.
#[derive(Drop)]
pub struct SocketLog {
    pub ghost calls: { List SocketCall },
}

impl Model for SocketLog {
    ghost also_owns = { λ _. ftrue };
}

impl SocketLog {
    /// Nothing.
    pub fn new() -> SocketLog
        ensures { result.calls ≡ [] }
    {
        SocketLog {}
    }

    /// One call more.
    fn with(_before: &SocketLog, _kind: &SocketKind, _name: &[u8]) -> SocketLog
        ensures { result.calls ≡ _before.now.calls ++ call_of _kind.now _name.now ∷ [] }
    {
        SocketLog {}
    }

    /// Notes a call that was made.
    fn note(&mut self, kind: SocketKind, name: &str)
        ensures { self.new.calls ≡ self.old.calls ++ call_of kind name.now ∷ [] }
    {
        *self = SocketLog::with(self, &kind, name.as_bytes());
    }
}

/// Whether somebody answers on a socket.
fn who_answers<R: Net>(net: &R, name: &str) -> SocketLook {
    match UnixStream::connect(net, name) {
        Ok(_) => SocketLook::Answered,
        Err(error) => match error.kind() {
            ErrorKind::WouldBlock => SocketLook::Answered,
            ErrorKind::ConnectionRefused => SocketLook::Left,
            _ => SocketLook::Unknown,
        },
    }
}

/// What the system says of what stands under a name.
fn answer<R: Files + Net>(rt: &R, name: &str) -> SocketLook {
    match fs::symlink_metadata(rt, name) {
        Ok(found) if found.file_type().is_socket() => who_answers(rt, name),
        Ok(_) => SocketLook::Other,
        Err(error) if error.kind() == ErrorKind::NotFound => SocketLook::Missing,
        Err(_) => SocketLook::Unknown,
    }
}

/// Asks what stands under a name.
pub(crate) fn look_at<R: Files + Net>(rt: &R, log: &mut SocketLog, name: &str) -> SocketLook
    ensures { log.new.calls ≡ log.old.calls ++ spec.Looked name.now result ∷ [] }
{
    let answer = answer(rt, name);
    log.note(SocketKind::Looked(answer), name);
    answer
}

/// Removes what stands under a name.
pub(crate) fn remove<R: Files>(rt: &R, log: &mut SocketLog, name: &str) -> bool
    ensures { log.new.calls ≡ log.old.calls ++ spec.Removed name.now result ∷ [] }
{
    let done = fs::remove_file(rt, name).is_ok();
    log.note(SocketKind::Removed(done), name);
    done
}

/// What the system's answer to a call without a result of its own says.
fn done(status: i32) -> io::Result<()> {
    if status == 0 {
        Ok(())
    } else {
        Err(ErrorKind::Other.into())
    }
}

/// A socket of a name that has never been for others than whoever runs the server, and whose `accept` doesn't wait.
fn make<R: Files + Net>(rt: &R, name: &str) -> io::Result<UnixListener> {
    let socket = rt.unix_socket()?;
    done(libc::fchmod(socket.as_raw_fd(), MODE))?;
    rt.bind_unix(socket.as_fd(), &SocketAddr::from_pathname(name)?)?;
    done(libc::net::listen(socket.as_raw_fd(), MOST_WAITING))?;
    let listener = Listener::from(socket);
    listener.set_nonblocking(true)?;
    Ok(UnixListener::from_std(listener))
}

/// Makes a socket of a name.
pub(crate) fn bind<R: Files + Net>(
    rt: &R,
    log: &mut SocketLog,
    name: &str,
) -> io::Result<UnixListener>
    ensures made { IfOk result (λ _. log.new.calls ≡ log.old.calls ++ spec.Bound name.now true ∷ []) }
    ensures not_made { IfErr result (λ _. log.new.calls ≡ log.old.calls ++ spec.Bound name.now false ∷ []) }
{
    match make(rt, name) {
        Ok(listener) => {
            log.note(SocketKind::Bound(true), name);
            Ok(listener)
        }
        Err(error) => {
            log.note(SocketKind::Bound(false), name);
            Err(error)
        }
    }
}

/// A connection to the socket of a name, if somebody answers there. Its reads and writes wait.
pub fn connect_to<R: Net>(net: &R, log: &mut SocketLog, name: &str) -> Option<Stream>
    ensures had { OnSome result (log.new.calls ≡ log.old.calls ++ spec.Connected name.now true ∷ []) }
    ensures not_had { result ≡ None → log.new.calls ≡ log.old.calls ++ spec.Connected name.now false ∷ [] }
{
    match Stream::connect(net, name) {
        Ok(stream) => {
            log.note(SocketKind::Connected(true), name);
            Some(stream)
        }
        Err(_) => {
            log.note(SocketKind::Connected(false), name);
            None
        }
    }
}
