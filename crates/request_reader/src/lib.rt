//! Requests of RFC 1436, RFC 1738 and Gopher+ from the pieces of a stream.
#![tactic(auto)]

mod cause;
mod data;
mod data_head;
mod fields;
mod laws;
mod line;
mod names;
mod parsed;
mod period;
mod plus;
mod reader;
mod request;
mod stream;

pub use cause::Cause;
pub use data::Data;
pub use laws::{any_cuts, closed_verdict_stays, decided, valid, worked_examples};
pub use names::Names;
pub use reader::Reader;
pub use request::{Plus, Request, RequestedView, StreamVerdict};
pub use stream::answer_to;
