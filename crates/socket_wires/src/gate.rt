// A listener, and the connections that are taken of it. `next` makes one call of it and notes what came. That it makes the call no clause can say.
ghost use Rattle.std.specs.Prelude.{◌≡◌, List, [], ◌∷◌, ◌++◌, IfOk, OnErr};
ghost use Rattle.std.specs.Borrow.{ftrue};
ghost use Rattle.socket_wires.specs.Taking.{IsMissed, IsFreshWire};
ghost use Rattle.socket_wires.specs.declared.gate.Taken.{Taken as OneTaken};
ghost use Rattle.socket_wires.specs.declared.gate.Taken.TheVariants.{Had};

use crate::SocketWire;
use std::marker::Model;
use std::net::{OpenListener, SocketAddr, TcpListener};
use turns::WireFault;

/// What came of asking a listener for a connection.
#[derive(Clone, Copy)]
pub enum Taken {
    /// A connection from this address was had and set up.
    Had(SocketAddr),
    /// One from this address was had, and could not be set up.
    NotSetUp(SocketAddr),
    /// None was had.
    NotHad,
}

/// What came of asking a listener, in order. Only clauses read it, and it takes no memory.
#[derive(Drop)]
pub struct TakenLog {
    pub ghost calls: { List OneTaken },
}

impl Model for TakenLog {
    ghost also_owns = { λ _. ftrue };
}

impl TakenLog {
    /// No connection was asked for.
    pub fn new() -> TakenLog
        ensures { result.calls ≡ [] }
    {
        TakenLog {}
    }

    /// One connection more was asked for.
    fn with(_before: &TakenLog, _taken: &Taken) -> TakenLog
        ensures { result.calls ≡ _before.now.calls ++ _taken.now ∷ [] }
    {
        TakenLog {}
    }

    /// Notes what came.
    fn note(&mut self, taken: Taken)
        ensures { self.new.calls ≡ self.old.calls ++ taken ∷ [] }
    {
        *self = TakenLog::with(self, &taken);
    }
}

/// A listener, and what came of asking it for connections.
#[derive(Drop)]
pub struct Gate {
    listener: TcpListener,
    pub taken: TakenLog,
}

impl Gate {
    /// A listener that was asked for no connection yet.
    pub fn new(listener: TcpListener) -> Gate
        ensures { result.taken.calls ≡ [] }
    {
        Gate {
            listener,
            taken: TakenLog::new(),
        }
    }

    /// Asks for the next connection, as a wire, and notes what came.
    pub(crate) fn next(&mut self) -> Result<SocketWire, WireFault>
        ensures had { IfOk result (λ wire. IsFreshWire wire × (self.new.taken.calls ≡ self.old.taken.calls ++ Had wire.from ∷ [])) }
        ensures missed { OnErr result ((taken : OneTaken) × IsMissed taken × (self.new.taken.calls ≡ self.old.taken.calls ++ taken ∷ [])) }
    {
        let Ok((stream, from)) = self.listener.accept() else {
            self.taken.note(Taken::NotHad);
            return Err(WireFault);
        };
        match SocketWire::new(stream, from) {
            Ok(wire) => {
                self.taken.note(Taken::Had(from));
                Ok(wire)
            }
            Err(_) => {
                self.taken.note(Taken::NotSetUp(from));
                Err(WireFault)
            }
        }
    }
}
