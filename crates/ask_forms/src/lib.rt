//! Answers to the forms of Gopher+, and the posts that they make.
#![tactic(auto)]

mod answer;
mod ask_fault;
mod laws;
mod post;
mod read;
mod title;

pub use answer::{Answer, AnswerList};
pub use ask_fault::AskFault;
pub use laws::{reads_answers, worked_examples};
pub use post::{Post, post_of};
pub use read::read_answers;
