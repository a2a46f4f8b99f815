//! The administrator's office at a served image: it hears requests, makes their changes, one a turn, and holds still while the image is read.
#![tactic(auto)]

mod fault_texts;
mod gate;
mod gate_log;
mod hearing;
mod holding;
mod lines;
mod making;
mod office;
mod patient_wire;
mod request;
mod stage;
mod telling;
mod turn;
mod unix_gate;
mod unix_wire;
mod unsent;

pub use fault_texts::FaultTexts;
pub use gate::AdminGate;
pub use gate_log::{Arrival, GateLog};
use making::Making;
pub use office::AdminOffice;
pub use patient_wire::PatientWire;
use request::Request;
use stage::Stage;
pub use unix_gate::UnixGate;
pub use unix_wire::UnixWire;
use unsent::Unsent;
