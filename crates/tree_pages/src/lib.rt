//! The pages that a commit writes for the owned nodes of a tree.
#![tactic(auto)]

mod fitting;
mod laws;
mod reach_laws;
mod writing;

pub use fitting::fits_pages;
pub use laws::{a_found_tree_is_content, a_written_tree_is_found};
pub use reach_laws::{
    a_page_reaches_what_a_walk_finds, a_supply_leaves_one_page, a_valid_tree_fits,
    all_given_numbers_are_used, changes_reach_the_same_pages, distinct_pages_are_put,
    reached_pages_are_kept, reached_pages_have_levels_below, times_and_among,
};
pub use writing::write_node;
