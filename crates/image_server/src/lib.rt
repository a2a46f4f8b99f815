//! A server over the site of an image: rounds of connections.
#![tactic(auto)]

mod daily_serving;
mod lines;
mod listening;
mod serving;
mod starting;

pub use daily_serving::{serve_clients, serve_clients_over};
pub use lines::{round_line, served_line, serving_line};
pub use listening::{ListenCall, ListenLog};
pub use serving::{ServingFault, serve_image, serve_over};
