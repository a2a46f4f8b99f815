//! What is said on the administrator's socket: the head of a request, and the reply.
#![tactic(auto)]

mod fault;
mod head;
mod hold;
mod laws;
mod reply;

pub use fault::{RequestFault, request_line};
pub use head::{LONGEST_HEAD, MOST_BYTES, RequestHead, head_line, read_head};
pub use hold::{held_line, held_text, hold_line, is_hold};
pub use laws::{heads_are_read, replies_are_read, what_is_read_stays, worked_examples};
pub use reply::{AdminReply, ReplyFault, read_reply, reply_text};
