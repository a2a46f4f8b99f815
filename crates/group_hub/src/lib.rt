//! Sessions over one site: requests come in by pieces, replies are drawn by pieces, posts may wait for one another, and all else happens in between.
#![tactic(auto)]

mod drawing;
mod flush;
mod group;
mod group_commit;
mod hub;
mod laws;
mod next;
mod outcome_list;
mod phase;
mod pins;
mod posting;
mod putting;
mod run;
mod session;
mod singly;
mod together;
mod waiting;

pub use hub::{Hub, MOST_SESSIONS, MOST_WAITING};
pub use laws::{faults_keep_the_world, runs_count, runs_join};
pub use outcome_list::OutcomeList;
