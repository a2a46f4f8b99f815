// What holds of the command line.
ghost use Rattle.command_words.specs.WordExamples.{WordExamples};

/// Worked examples of words.
pub fn worked_examples()
    ensures { WordExamples }
{}
