//! Sessions over wires, which are served in turns.
#![tactic(auto)]

mod call_log;
mod clock;
mod connection;
mod laws;
mod sending;
mod turn;
mod turns;
mod wire;

pub use call_log::{CallLog, WireCallKind};
pub use clock::{Clock, MomentLog};
pub use connection::{Connection, Stage};
pub use laws::{nobody_waits_behind_a_pass, worked_examples};
pub use turn::{PIECE, tell, try_again_later};
pub use turns::{MOST_PASSES, take_turns};
pub use wire::{Wire, WireFault};
