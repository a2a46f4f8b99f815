// A reply that is told.
ghost use Rattle.turns.specs.WireCalls.{HasMade};
ghost use Rattle.admin_office.specs.Requests.{WritesOnce};
ghost use Rattle.admin_office.specs.Tasks.{task_of, unsent_bytes};

use crate::{Stage, Unsent};
use daily_turns::ReadyWire;

/// One write of what is to be told, or the connection is closed; and whether the request rests.
pub(crate) fn tell<W: ReadyWire>(wire: &mut W, unsent: Unsent) -> (Stage, bool)
    ensures { HasMade (W.calls wire.old) (W.calls wire.new) (λ made. WritesOnce (unsent_bytes unsent) made (task_of result.0) result.1) }
{
    if unsent.bytes().is_empty() {
        wire.close();
        return (Stage::Closed, false);
    }
    let mut unsent = unsent;
    match wire.write(unsent.bytes()) {
        Ok(Some(count)) => {
            if count == 0 {
                wire.close();
                return (Stage::Closed, false);
            }
            unsent.pass(count);
            (Stage::Telling(unsent), false)
        }
        Ok(None) => (Stage::Telling(unsent), true),
        Err(_) => {
            wire.close();
            (Stage::Closed, false)
        }
    }
}
