// Worked examples, as a law of the definitions.
ghost use Rattle.daily_turns.specs.ConnectionExamples.{ConnectionExamples};

/// Worked examples of what a session does in a turn.
pub fn worked_examples()
    ensures { ConnectionExamples }
{}
