//! Sessions over wires that never wait: a session has a turn where its wire is ready.
#![tactic(auto)]

mod laws;
mod ready_connection;
mod ready_wire;
mod turn;
mod unsent;
mod writing;

pub use laws::worked_examples;
pub use ready_connection::{ConnectionStage, Ending, ReadyConnection};
pub use ready_wire::ReadyWire;
pub use turn::{dismiss, join, learn, take_turn, turn_down};
pub use unsent::{DRAW_SIZE, Unsent};
