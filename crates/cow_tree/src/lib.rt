//! A key-value store in a tree of pages that are never overwritten.
#![tactic(auto)]

mod all_pairs;
mod commits;
mod compact_calls;
mod compaction;
mod drafts;
mod formatting;
mod kept_leaf;
mod kept_places;
mod kept_reads;
mod laws;
mod lookups;
mod next_reads;
mod opening;
mod opening_walk;
mod page_bounds;
mod page_copies;
mod page_fault;
mod page_heads;
mod page_places;
mod page_reads;
mod pin_calls;
mod pinned_reads;
mod plans;
mod taking;
mod tree_calls;
mod tree_figures;
mod tree_keeper;
mod tree_root;

pub use formatting::{a_first_leaf, format};
pub use laws::{
    a_page_is_named_where_no_tree_is_found, a_run_tells_the_next_pair, a_walk_goes_on_in_its_leaf,
    each_page_is_free_or_reached, every_other_page_is_free, pairs_of_a_tree_are_a_map,
    the_first_wrong_page_is_named, worked_examples_of_damage,
};
pub use tree_keeper::TreeKeeper;
