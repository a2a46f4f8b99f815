// Worked examples, as a law of the definitions.
ghost use Rattle.host_script.specs.LineExamples.{ScriptLineExamples};

/// Worked examples of what a script prints, without the LF: a line for each outcome.
pub fn worked_examples()
    ensures { ScriptLineExamples }
{}
