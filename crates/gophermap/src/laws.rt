// What holds of what is read, as laws of the definitions.
ghost use Rattle.gophermap.specs.Laws.{EndsThere, LinesFit};
ghost use Rattle.gophermap.specs.LineExamples.{LineExamples};
ghost use Rattle.gophermap.specs.Spelling.{SpellingsRead};

/// Worked examples of lines and files.
pub fn worked_examples()
    ensures { LineExamples }
{}

/// What is read has names such as the types of the site take, and ports of 1 to 65535.
pub fn what_is_read_has_limits()
    ensures { LinesFit }
{}

/// Nothing behind a line that is `.` or `*` alone makes a difference.
pub fn nothing_behind_the_end_is_read()
    ensures { EndsThere }
{}

/// What is written as a line is read back.
pub fn spellings_are_read()
    ensures { SpellingsRead }
{}
