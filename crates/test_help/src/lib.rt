//! What several crates of tests use: numbers that look random, and whether a keeper takes a batch.
#![tactic(auto)]

mod batches;
mod dice;

pub use batches::is_batch;
pub use dice::{Dice, key};
