//! The socket on which administrators come to a served image, and how one is made.
#![tactic(auto)]

mod calls;
mod listening;

pub use calls::{SocketLog, SocketLook, connect_to};
pub use listening::{SocketFault, listen_at};
