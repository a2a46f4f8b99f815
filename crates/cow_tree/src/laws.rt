// Laws of trees of pages.
ghost use Rattle.std.specs.Prelude.{◌≡◌, ◌+◌, ℕ, List, Some, IsTrue, length, []};
ghost use Rattle.std.specs.Option.{is_some};
ghost use Rattle.page_store.specs.Pages.{Pair};
ghost use Rattle.page_store.specs.Batch.{is_map, pair_after};
ghost use Rattle.page_store.specs.Content.{Found, Bounds, tree_found};
ghost use Rattle.page_store.specs.declared.slot.Slot.{Slot};
ghost use Rattle.cow_tree.specs.NamedWalks.{tree_or_name, found_or_none};
ghost use Rattle.cow_tree.specs.FirstWrong.{NamesTheFirst};
ghost use Rattle.cow_tree.specs.NamedExamples.{NamedExamples};
ghost use Rattle.cow_tree.specs.TreeState.{unreached, found_under};
ghost use Rattle.cow_tree.specs.TreeSeen.{held, device_of, slot_of, pinned_by};
ghost use Rattle.cow_tree.specs.KeptLeaves.{IsRun, IsLeaf, has_next};

use crate::TreeKeeper;
use sector_device::Device;

/// The pairs of the tree under a slot rise by their keys, and keys and values have their sizes.
pub fn pairs_of_a_tree_are_a_map()
    ensures { (slot : Slot) (bytes : ℕ → List ℕ) (found : Found) → tree_found slot bytes ≡ Some found → IsTrue (is_map found.pairs) }
{}

/// Where the device is honest, exactly those pages are free that neither the tree reaches nor one that a pin keeps, the root slots left out.
pub fn every_other_page_is_free<D: Device>(keeper: &TreeKeeper<D>)
    ensures free { IsTrue (D.state (device_of keeper.now)).honest → (held D.state keeper.now).free ≡ unreached (slot_of keeper.now) (pinned_by keeper.now) (D.state (device_of keeper.now)).disk.view }
    // Where no pin is out, those that the tree doesn't reach.
    ensures unpinned { IsTrue (D.state (device_of keeper.now)).honest → (held D.state keeper.now).pins ≡ [] → (held D.state keeper.now).free ≡ unreached (slot_of keeper.now) [] (D.state (device_of keeper.now)).disk.view }
{}

/// Where the device is honest and no pin is out, each page of the image is a root slot, or free, or a page of the tree.
pub fn each_page_is_free_or_reached<D: Device>(keeper: &TreeKeeper<D>)
    ensures { IsTrue (D.state (device_of keeper.now)).honest → (held D.state keeper.now).pins ≡ [] → (held D.state keeper.now).free + length (found_under (slot_of keeper.now) (D.state (device_of keeper.now)).disk.view).pages + 2 ≡ (slot_of keeper.now).root.pages }
{}

/// A run of pairs whose first isn't above a key, and which has one above it, tells the pair after the key.
pub fn a_run_tells_the_next_pair()
    ensures { (pairs run : List Pair) (key : List ℕ) → IsTrue (is_map pairs) → IsRun run pairs → IsTrue (has_next run key) → pair_after pairs key ≡ pair_after run key }
{}

/// A walk goes on in its leaf: of a leaf that has a pair after the one that was found last, that pair is answered.
pub fn a_walk_goes_on_in_its_leaf()
    ensures { (bytes : ℕ → List ℕ) (bounds : Bounds) (tree : Found) (leaf : List Pair) (key : List ℕ) (found : Pair) → IsLeaf bytes bounds tree leaf → pair_after leaf key ≡ Some found →
        IsTrue (is_some (pair_after leaf found.0)) → IsTrue (has_next leaf found.0) }
{}

/// A page of a tree is named exactly where no tree is found.
pub fn a_page_is_named_where_no_tree_is_found()
    ensures { (slot : Slot) (bytes : ℕ → List ℕ) → found_or_none (tree_or_name slot bytes) ≡ tree_found slot bytes }
{}

/// Of the pages in the order of their keys, each before those under it, the first is named that has not its form or was looked at before.
pub fn the_first_wrong_page_is_named()
    ensures { NamesTheFirst }
{}

/// Worked examples of pages that are named.
pub fn worked_examples_of_damage()
    ensures { NamedExamples }
{}
