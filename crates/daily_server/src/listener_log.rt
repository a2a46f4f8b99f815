// The calls of the system that were made for a listener. Only clauses read them, and they take no memory.
ghost use Rattle.std.specs.Prelude.{◌≡◌, List, [], ◌∷◌, ◌++◌};
ghost use Rattle.std.specs.Borrow.{ftrue};
ghost use Rattle.mio.specs.Events.{items};
ghost use Rattle.daily_server.specs.ListenerCalls.{ListenerCall, call_of, is_nobody};

use crate::listen_fault::NetCause;
use mio::{Events, Interest, Token};
use std::io::ErrorKind;
use std::marker::Model;
use std::net::{IpAddr, SocketAddr};
use std::time::Duration;

/// Why no client was had.
#[derive(Clone, Copy)]
pub enum Missed {
    /// The listener answered with an error of this kind.
    Refused(ErrorKind),
    /// One came, and waits could not be made to tell of it.
    Unwatched,
}

impl Missed {
    /// Nobody asked to come in: the listener would have had to wait.
    pub(crate) fn is_nobody(self) -> bool
        ensures { result ≡ is_nobody self }
    {
        match self {
            Missed::Refused(kind) => kind == ErrorKind::WouldBlock,
            Missed::Unwatched => false,
        }
    }
}

/// Which call of the system it was, without the events of a wait.
#[derive(Clone, Copy)]
pub(crate) enum ListenerCallKind {
    /// A listener at this address was had, and waits tell of it in this interest.
    Listened(SocketAddr, Interest),
    /// A listener at this address was not had, and why.
    NotListened(SocketAddr, NetCause),
    /// A wait with this patience ended.
    Waited(Option<Duration>),
    /// A wait with this patience failed.
    WaitFailed(Option<Duration>),
    /// A client of this address came, and waits tell of it under this token, in this interest.
    Came(IpAddr, Token, Interest),
    /// No client was had.
    NotHad(Missed),
}

/// The calls for a listener, in order.
#[derive(Drop)]
pub struct ListenerLog {
    pub ghost calls: { List ListenerCall },
}

impl Model for ListenerLog {
    ghost also_owns = { λ _. ftrue };
}

impl ListenerLog {
    /// No calls.
    pub fn new() -> ListenerLog
        ensures { result.calls ≡ [] }
    {
        ListenerLog {}
    }

    /// One call more.
    fn with(_before: &ListenerLog, _kind: &ListenerCallKind, _events: &Events) -> ListenerLog
        ensures { result.calls ≡ _before.now.calls ++ call_of _kind.now (items _events.now) ∷ [] }
    {
        ListenerLog {}
    }

    /// Notes a call that was made, with the events of the last wait.
    pub(crate) fn note(&mut self, kind: ListenerCallKind, events: &Events)
        ensures { self.new.calls ≡ self.old.calls ++ call_of kind (items events.now) ∷ [] }
    {
        *self = ListenerLog::with(self, &kind, events);
    }
}
