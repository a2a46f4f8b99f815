// A listener for rounds of connections, and the log of where one was asked for.
ghost use Rattle.std.specs.Prelude.{◌≡◌, Err, IfOk, IfErr, IsOk, OnOk, List, [], ◌∷◌, ◌++◌};
ghost use Rattle.std.specs.Borrow.{ftrue};
ghost use Rattle.std.specs.IoError.{error_kind};
ghost use Rattle.daily_server.specs.NetCauses.{cause_of};
ghost use Rattle.image_server.specs.Listening.{listen_call};
ghost use Rattle.image_server.specs.declared.listening.ListenCall.{ListenCall as Call};

use daily_server::NetCause;
use socket_wires::Gate;
use std::io;
use std::marker::Model;
use std::net::{Net, SocketAddr, TcpListener, TcpStream};

/// A listener that was asked for.
#[derive(Clone, Copy)]
pub enum ListenCall {
    /// One at this address was had.
    Listened(SocketAddr),
    /// One at this address was not had, and why.
    NotListened(SocketAddr, NetCause),
}

/// The listeners that were asked for, in order. Only clauses read it, and it takes no memory.
#[derive(Drop)]
pub struct ListenLog {
    pub ghost calls: { List Call },
}

impl Model for ListenLog {
    ghost also_owns = { λ _. ftrue };
}

impl ListenLog {
    /// None was asked for.
    pub fn new() -> ListenLog
        ensures { result.calls ≡ [] }
    {
        ListenLog {}
    }

    /// One call more.
    fn with(_before: &ListenLog, _call: &ListenCall) -> ListenLog
        ensures { result.calls ≡ _before.now.calls ++ _call.now ∷ [] }
    {
        ListenLog {}
    }

    /// Notes a call that was made.
    fn note(&mut self, call: ListenCall)
        ensures { self.new.calls ≡ self.old.calls ++ call ∷ [] }
    {
        *self = ListenLog::with(self, &call);
    }
}

/// Notes what came of a listener that was asked for at an address: it was had, or not, and why.
fn noted(
    answer: io::Result<TcpListener>,
    at: SocketAddr,
    asked: &mut ListenLog,
) -> Result<Gate, NetCause>
    ensures asked { asked.new.calls ≡ asked.old.calls ++ listen_call at result ∷ [] }
    ensures had { OnOk answer (IsOk result) }
    ensures cause { IfErr answer (λ error. result ≡ Err (cause_of (error_kind error))) }
    ensures untaken { IfOk result (λ gate. gate.taken.calls ≡ []) }
{
    match answer {
        Ok(listener) => {
            asked.note(ListenCall::Listened(at));
            Ok(Gate::new(listener))
        }
        Err(error) => {
            let cause = NetCause::of(error.kind());
            asked.note(ListenCall::NotListened(at, cause));
            Err(cause)
        }
    }
}

/// Asks for a listener at an address, and notes what came of it. That it asks for the one that it notes no clause can say, so it is one call long.
pub(crate) fn listen<R: Net<Listener = TcpListener, Stream = TcpStream>>(
    net: &R,
    at: SocketAddr,
    asked: &mut ListenLog,
) -> Result<Gate, NetCause>
    ensures asked { asked.new.calls ≡ asked.old.calls ++ listen_call at result ∷ [] }
    ensures untaken { IfOk result (λ gate. gate.taken.calls ≡ []) }
{
    noted(TcpListener::bind(net, at), at, asked)
}
