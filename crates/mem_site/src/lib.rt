//! A site in memory.
#![tactic(auto)]

mod changing;
mod keeper;
mod lookup;
mod mem_site;
mod pin;
mod searching;
mod valid_site;

pub use mem_site::MemSite;
pub use pin::MemPin;
