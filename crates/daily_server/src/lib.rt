//! Clients over sockets that never wait: whoever is ready has a turn, up to 32 clients at a time.
#![tactic(auto)]

mod buffers;
mod crowd;
mod daily_client;
mod desk;
mod head;
mod laws;
mod limits;
mod lines;
mod listen_fault;
mod listener_log;
mod office;
mod pace;
mod posts;
mod ready_listener;
mod ready_socket;
mod service;
mod serving;
mod stopwatch;
mod terms;
mod waking;
mod written;

pub use crowd::{Away, Crowd};
pub use desk::Desk;
pub use head::Head;
pub use laws::{
    gives_what_is_due, head_of_pieces, stays_sparing, stays_spread, takes_a_front,
    tells_what_is_sent, wait_keeps_clients, worked_examples,
};
pub use limits::{
    LONGEST_CONNECTION, LONGEST_LINE, LONGEST_REQUEST, LONGEST_SILENCE, is_over, longest_stay,
};
pub use lines::{LogRecord, log_line};
pub use listen_fault::{ListenFault, NetCause};
pub use listener_log::{ListenerLog, Missed};
pub use office::{NoOffice, Office};
pub use pace::Pace;
pub use posts::{MOST_POSTS, RecentPost, RecentPosts};
pub use ready_socket::ReadySocket;
pub use service::{DailyFault, MOST_CLIENTS, Service};
pub use serving::{serve_in_hub, write_line};
pub use stopwatch::{Reading, ReadingLog, Stopwatch};
pub use terms::{LogForm, Terms};
