//! What the words of the command line ask for.
#![tactic(auto)]

mod arguments;
mod command_line;
mod commands;
mod laws;
mod serve_words;
mod tasks;
mod words;

pub use laws::worked_examples;
pub use words::{Misread, NewSite, SocketPlace, Task, given, read};
