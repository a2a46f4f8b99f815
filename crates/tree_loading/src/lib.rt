//! The tree of some pairs, in filled pages.
#![tactic(auto)]

mod branch_row;
mod laws;
mod leaf_row;
mod loading;

pub use laws::{
    a_filled_tree_fits, a_filled_tree_has_few_levels, a_filled_tree_has_few_nodes,
    a_filled_tree_has_the_pairs, a_filled_tree_is_owned, no_node_has_room_for_more,
    worked_examples,
};
pub use loading::filled_tree;
