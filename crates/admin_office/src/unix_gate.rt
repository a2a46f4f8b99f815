// A Unix socket where administrators come. That the listener is asked as often as it is noted no clause can say.
ghost use Rattle.std.specs.Prelude.{◌≡◌, []};
ghost use Rattle.std.specs.Option.{is_some};

use crate::UnixWire;
use crate::gate::AdminGate;
use crate::gate_log::{Arrival, GateLog};
use daily_server::Desk;
use mio::net::{UnixListener, UnixStream};

/// A listener on a Unix socket, or none, to which nobody comes; whether waits tell of it, and what it answered.
#[derive(Drop)]
pub struct UnixGate {
    listener: Option<UnixListener>,
    watched: bool,
    /// Whether there is a listener.
    pub listens: bool,
    pub made: GateLog,
    ghost listens_is: { listens ≡ is_some listener },
}

impl UnixGate {
    /// A gate that was not asked yet.
    pub fn new(listener: Option<UnixListener>) -> UnixGate
        ensures unasked { result.made.answers ≡ [] }
        ensures listens { result.listens ≡ is_some listener }
    {
        UnixGate {
            listens: listener.is_some(),
            listener,
            watched: false,
            made: GateLog::new(),
        }
    }

    /// The connection of the next administrator, of which waits tell.
    fn accept(&mut self, desk: &Desk<'_>) -> Option<UnixStream>
        ensures made { self.new.made ≡ self.old.made }
        ensures listens { self.new.listens ≡ self.old.listens }
    {
        let listener = self.listener.as_mut()?;
        if !self.watched {
            self.watched = desk.watch_listener(listener).is_ok();
        }
        let Ok((mut stream, _)) = listener.accept() else {
            return None;
        };
        match desk.watch_wire(&mut stream) {
            Ok(()) => Some(stream),
            Err(_) => None,
        }
    }
}

impl AdminGate<UnixWire> for UnixGate {
    ghost answers = { λ gate. gate.made.answers };

    fn next(&mut self, desk: &Desk<'_>) -> Option<UnixWire> {
        match self.accept(desk) {
            Some(stream) => {
                self.made.note(Arrival::Came);
                Some(UnixWire::new(stream))
            }
            None => {
                self.made.note(Arrival::Nobody);
                None
            }
        }
    }
}
