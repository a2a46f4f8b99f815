// Laws of the definitions, and worked examples.
ghost use Rattle.std.specs.Prelude.{List};
ghost use Rattle.group_world.specs.declared.event.Event.{Event as HubEvent};
ghost use Rattle.group_world.specs.declared.event.Outcome.{Outcome as HubOutcome};
ghost use Rattle.turns.specs.Turns.{Pass, NobodyWaits};
ghost use Rattle.turns.specs.declared.connection.Connection.{Connection as ConnectionOf};
ghost use Rattle.turns.specs.TurnExamples.{TurnExamples};

use crate::Wire;

/// Worked examples of what a session does in a turn.
pub fn worked_examples()
    ensures { TurnExamples }
{}

/// Behind a pass no session waits with its post: it was made, or its client is asked to try again later.
pub fn nobody_waits_behind_a_pass<W: Wire>()
    ensures { (old new : List (ConnectionOf W)) (es : List HubEvent) (os : List HubOutcome) → Pass W.calls old es os new → NobodyWaits new }
{}
