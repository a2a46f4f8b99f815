//! What a program asks of the administrator's office at a served image, over a socket.
#![tactic(auto)]

mod answer;
mod ask_wire;
mod asking;
mod holding;

pub use answer::{AdminAnswer, AnswerFault};
pub use ask_wire::AskWire;
pub use asking::ask;
pub use holding::{hold, release};
