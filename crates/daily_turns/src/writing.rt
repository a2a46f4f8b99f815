// Sends what is to be sent.
ghost use Rattle.std.specs.Prelude.{◌≡◌, false, []};
ghost use Rattle.turns.specs.WireCalls.{HasMade};
ghost use Rattle.turns.specs.Turns.{trace};
ghost use Rattle.daily_turns.specs.ReadyConnections.{at, state_of, WritesOn};

use crate::ReadyWire;
use crate::ready_connection::{ConnectionStage, Ending, ReadyConnection};

/// One write of what is to be sent.
pub(crate) fn write_on<W: ReadyWire>(connection: &mut ReadyConnection<W>)
    requires { connection.old.waits ≡ false }
    ensures made { HasMade (W.calls connection.old.wire) (W.calls connection.new.wire) (λ made. WritesOn (state_of connection.old) (trace made [] []) (state_of connection.new)) }
    ensures adapter { connection.new.adapter ≡ connection.old.adapter }
{
    match connection.wire.write(connection.unsent.as_slice()) {
        Ok(Some(count)) => {
            if count == 0 {
                connection.become_stage(ConnectionStage::Leaving(Ending::Cut), b"");
            } else {
                connection.unsent.pass(count);
            }
        }
        Ok(None) => connection.waits = true,
        Err(_) => connection.become_stage(ConnectionStage::Leaving(Ending::Cut), b""),
    }
}
