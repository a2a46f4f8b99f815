//! Heads of Gopher+ replies, and the attribute blocks of items.
#![tactic(auto)]

mod blocks;
mod date;
mod item;
mod laws;

pub use blocks::{abstract_block, admin, ask_block, head, info, views};
pub use date::{push_listed_date, push_log_date};
pub use item::{attributes, entry_attributes, item_blocks};
pub use laws::{replies_end_once, worked_examples};
