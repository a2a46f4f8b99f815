//! What is wrong with a file of changes, where a line can say it.
#![tactic(auto)]

mod keys;
mod laws;
mod limits;
mod lines;
mod refusals;
mod said;
mod told;

pub use laws::refusals_are_read;
pub use refusals::{refusal_line, removal_line};
pub use said::flaw_of;
pub use told::refusal_told;
