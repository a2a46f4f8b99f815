// What was answered.

use host_types::{Bytes, LineList, List};

/// What was answered to a question.
#[derive(Debug, Drop)]
pub enum Answer {
    /// A line, a word, or the text of the choice that was made.
    One(Bytes),
    /// Lines, to a question for many.
    Many(LineList),
}

/// The answers to the questions of a form, in their order.
pub type AnswerList = List<Answer>;
