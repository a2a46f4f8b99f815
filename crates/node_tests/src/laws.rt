// The laws, which take no time.
use page_alloc::{free_by_sets, worked_examples};
use tree_nodes::{
    a_delete_changes_one_key, a_delete_makes_no_node, a_delete_stays_valid, a_leaf_grows,
    a_page_is_read_again, a_put_adds_at_most_one_level, a_put_changes_one_key,
    a_put_makes_one_node_on_each_level, a_put_stays_valid, a_supply_keeps_the_pairs,
    any_list_of_steps, pages_of_an_image,
};

/// The laws of the ledger and of trees.
pub fn laws() {
    free_by_sets();
    worked_examples();
    pages_of_an_image();
    a_page_is_read_again();
    a_leaf_grows();
    a_put_changes_one_key();
    a_put_stays_valid();
    a_put_makes_one_node_on_each_level();
    a_put_adds_at_most_one_level();
    a_delete_changes_one_key();
    a_delete_stays_valid();
    a_delete_makes_no_node();
    a_supply_keeps_the_pairs();
    any_list_of_steps();
}
