//! What is run over the site of an image: a script of sessions, or the changes of a file.
#![tactic(auto)]

mod applying;
mod lines;
mod replaying;

pub use applying::{apply_on, apply_over};
pub use lines::stopped_line;
pub use replaying::{replay_on, replay_over};
