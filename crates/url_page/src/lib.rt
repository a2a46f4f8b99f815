//! Pages that lead a browser on to a link out of gopherspace.
#![tactic(auto)]

mod fault;
mod laws;
mod names;
mod page;

pub use fault::UrlFault;
pub use laws::{reads_back, worked_examples};
pub use names::{escape, unescape};
pub use page::redirect;
