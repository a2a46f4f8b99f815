//! What the accepted changes of a run are, and that a crash leaves the first so many of their commits.
#![tactic(auto)]

mod laws;

pub use laws::{
    accepted_are_valid, crashes_leave_a_prefix, images_hold_the_acknowledged,
    next_openings_find_them, upgraded_images_are_starts, worked_examples,
};
