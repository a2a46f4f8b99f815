//! A script of sessions, run line by line over a hub.
#![tactic(auto)]

mod asking;
mod fault;
mod laws;
mod printed;
mod replaying;
mod script;
mod site;
mod writing;

pub use asking::{ParsedLine, ask};
pub use fault::ReplayFault;
pub use laws::worked_examples;
pub use printed::{fault_line, fault_text, line_of, refused_line};
pub use replaying::{MOST_READS, replay};
pub use script::{Command, MOST_ROOM, ScriptLineFault, parse};
pub use site::small_site;
