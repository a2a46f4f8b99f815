// What holds of all heads and replies, and worked examples.
ghost use Rattle.admin_lines.specs.Examples.{HeadExamples, ReplyExamples};
ghost use Rattle.admin_lines.specs.Laws.{HeadsAreRead, RepliesAreRead, WhatIsReadStays};

/// A head that was written is read, whatever stands behind it.
pub fn heads_are_read()
    ensures { HeadsAreRead }
{}

/// What the first bytes of a connection say they say whatever comes behind them.
pub fn what_is_read_stays()
    ensures { WhatIsReadStays }
{}

/// A reply that was written is read.
pub fn replies_are_read()
    ensures { RepliesAreRead }
{}

/// Worked examples.
pub fn worked_examples()
    ensures heads { HeadExamples }
    ensures replies { ReplyExamples }
{}
