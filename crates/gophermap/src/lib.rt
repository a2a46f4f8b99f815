//! Lines of a gophermap, the file by which other servers are told the menu of a folder.
#![tactic(auto)]

mod fault;
mod fields;
mod laws;
mod line;
mod lines;
mod names;
mod reading;

pub use fault::LineFault;
pub use laws::{
    nothing_behind_the_end_is_read, spellings_are_read, what_is_read_has_limits, worked_examples,
};
pub use line::{ItemPlace, Line};
pub use lines::{Lines, all_read};
pub use reading::read_line;
