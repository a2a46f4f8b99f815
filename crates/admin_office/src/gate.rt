// Where administrators come.
ghost use Rattle.std.specs.Prelude.{◌≡◌, List, [], ◌∷◌, ◌++◌, IfSome};
ghost use Rattle.admin_office.specs.Arrivals.{arrival_of};
ghost use Rattle.admin_office.specs.declared.gate_log.Arrival.{Arrival};

use daily_server::Desk;
use daily_turns::ReadyWire;

/// Where administrators come, each with a wire that never waits.
pub trait AdminGate<W: ReadyWire> {
    /// All that it answered, in order.
    ghost answers: { Self → List Arrival };

    /// The wire of the next administrator, if one is there. By the desk it has waits tell of who comes, and of the wire.
    fn next(&mut self, desk: &Desk<'_>) -> Option<W>
        ensures answers { answers self.new ≡ answers self.old ++ arrival_of result ∷ [] }
        ensures unread { IfSome result (λ wire. W.calls wire ≡ []) };
}
