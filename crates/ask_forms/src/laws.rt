// What those who read answers rest on, as laws of the definitions.
ghost use Rattle.ask_forms.specs.Reading.{ReadsAnswers};
ghost use Rattle.ask_forms.specs.Examples.{ReadAnswers, Posts};

/// The function that reads answers gives those of the relation, and no others.
pub fn reads_answers()
    ensures { ReadsAnswers }
{}

/// Worked examples of answers and posts.
pub fn worked_examples()
    ensures read { ReadAnswers }
    ensures posts { Posts }
{}
