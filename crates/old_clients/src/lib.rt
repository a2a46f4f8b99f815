//! An adapter between a connection and the hub, for the University of Minnesota's client.
#![tactic(auto)]

mod client;
mod laws;
mod line;
mod place;
mod reply;
mod request;
mod room;

pub use client::{ClientAdapter, PASSED, SHARE};
pub use laws::{
    any_cuts, errors_stay, menus_are_informed, others_pass, rewritten_lines_are_fetches,
    worked_examples,
};
pub use reply::ReplyAdapter;
pub use request::RequestAdapter;
