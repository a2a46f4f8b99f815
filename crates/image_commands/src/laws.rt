// What holds of the definitions.
ghost use Rattle.image_commands.specs.CommandExamples.{CommandExamples};

/// Worked examples of what the commands print.
pub fn worked_examples()
    ensures { CommandExamples }
{}
