//! The pairs of an item and of a whole site, and the batch of edits that replaces items.
#![tactic(auto)]

mod edits;
mod first_site;
mod item_pairs;
mod laws;
mod pairs_in_order;
mod stored_value;

pub use edits::batch_of;
pub use first_site::first_pairs;
pub use item_pairs::put_data;
pub use laws::{changed_words_are_written, changes_have_keys, worked_examples};
pub use stored_value::StoredValue;
