//! Names of files, and what the system is asked about them.
#![tactic(auto)]

mod lacks;
mod names;

pub use lacks::{Lack, look_why};
pub use names::{Look, NameLog, look_for, rename, sync_folder};
