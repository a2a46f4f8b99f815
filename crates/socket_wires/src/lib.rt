//! Sessions over sockets: connections as wires, the clock of the system, and rounds of connections.
#![tactic(auto)]

mod gate;
mod serving;
mod socket_wire;
mod system_clock;

pub use gate::{Gate, Taken, TakenLog};
pub use serving::{ServeFault, serve_on};
pub use socket_wire::SocketWire;
pub use system_clock::{ClockLog, ClockReading, SystemClock};
