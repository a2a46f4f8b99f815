//! Files of changes: what such a file says, and its changes made on a site, one after another.
#![tactic(auto)]

mod applying;
mod bodies;
mod changes;
mod entries;
mod fault;
mod laws;
mod named;
mod printed;
mod progress;
mod questions;
mod tables;
mod views;

pub use applying::apply_changes;
pub use changes::read_changes;
pub use fault::{ApplyFault, ChangeFileFault, FileChange};
pub use laws::worked_examples;
pub use printed::{applied_line, file_line};
pub use progress::{Progress, SeenLog};
