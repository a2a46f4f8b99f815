//! Changes of a site, written as a file of changes.
#![tactic(auto)]

mod bodies;
mod changes;
mod comments;
mod entries;
mod fault;
mod questions;
mod tables;
mod views;
mod writer;

pub use comments::add_comment;
pub use fault::WriteFault;
pub use writer::ChangeWriter;
