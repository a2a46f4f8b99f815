//! Owned nodes of a tree of pages.
#![tactic(auto)]

mod deleting;
mod encoding;
mod fault;
mod laws;
mod leaf_form;
mod node;
mod owned_tree;
mod packed_leaf;
mod page_views;
mod putting;
mod splitting;
mod step_laws;
mod supplying;

pub use deleting::delete;
pub use encoding::{encode, encode_leaf, is_writable};
pub use fault::NodeFault;
pub use laws::{
    a_delete_changes_one_key, a_delete_makes_no_node, a_delete_stays_valid, a_leaf_grows,
    a_page_begins_with_its_head, a_page_is_read_again, a_put_adds_at_most_one_level,
    a_put_changes_one_key, a_put_makes_one_node_on_each_level, a_put_stays_valid,
    a_supply_keeps_the_pairs, any_list_of_steps, pages_of_an_image,
};
pub use node::{Node, NodeGrown, needed};
pub use owned_tree::{EditAnswer, OwnedTree};
pub use packed_leaf::PackedLeaf;
pub use page_views::{Branch, ImageBounds, Leaf};
pub use putting::put;
pub use step_laws::{
    a_leaf_knows_its_keys, a_supply_leads_down, levels_come_slowly, steps_make_few_nodes,
};
pub use supplying::{read_node, supply};
