// What holds of the definitions.
ghost use Rattle.change_file.specs.ChangeFileExamples.{ChangeFileExamples};

/// Worked examples of files of changes.
pub fn worked_examples()
    ensures { ChangeFileExamples }
{}
