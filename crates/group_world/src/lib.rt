//! The world of a hub in which posts may wait for one another, and what it rests on.
#![tactic(auto)]

mod answer;
mod event;
mod fault;
mod laws;

pub use answer::{Drawn, Flushed, InputStatus};
pub use event::{Event, Outcome};
pub use fault::HubFault;
pub use laws::{
    calls_leave, continues, finds_its_place, groups_are_right, later_replies_are_known,
    only_forms_post, plain_hubs_stay, posts_count_on, posts_wait, replies_stay, worked_examples,
};
