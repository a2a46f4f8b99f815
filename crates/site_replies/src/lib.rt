//! Replies to requests, from a site as it stands: the bytes, or the view that is sent.
#![tactic(auto)]

mod answered;
mod attributes;
mod board_count;
mod documents;
mod entries;
mod looking;
mod menus;
mod posts;
mod requests;
mod views;

pub use answered::{Answered, Reply, ViewReply};
pub use looking::finds_form;
pub use requests::{bad_reply, later_reply, reply};
