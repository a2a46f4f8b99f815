// A key-value store in a tree of pages.
ghost use Rattle.std.specs.Prelude.{◌≤◌, IsTrue};
ghost use Rattle.std.proofs.Props.{props};
ghost use Rattle.page_store.specs.Sectors.{page_of};
ghost use Rattle.cow_tree.specs.KeptLeaves.{IsKeptLeaf};
ghost use Rattle.cow_tree.specs.KeptPlaces.{IsKeptTruly};
ghost use Rattle.cow_tree.specs.Opening.{bounds_under};
ghost use Rattle.cow_tree.specs.PinnedTrees.{ArePinned, PinnedTreesAreKept};
ghost use Rattle.cow_tree.specs.TreeState.{FitsTree, IsThere, IsDurable, found_under};

use crate::kept_leaf::KeptLeaf;
use crate::kept_places::KeptPlaces;
use crate::tree_root::TreeRoot;
use page_alloc::Ledger;
use page_store::Slot;
use sector_device::Device;
use std::alloc::Global;

/// A key-value store in a tree of pages, on any device.
///
/// The pairs stand in the pages alone, so that looking one up reads the pages on the way to it. A commit writes the pages on the ways of its keys to free places, and then a
/// root over them; the other pages stay where they are. The leaf that `next` found its last pair in is kept, so that a walk reads nothing within it.
/// Of pages that were looked into lately it is kept where their entries begin, and in which leaf a value was found last.
/// A page that a pinned tree has is not free, so that the tree stays.
#[derive(Drop)]
pub struct TreeKeeper<D: Device> {
    pub(crate) alloc: Global,
    pub(crate) device: D,
    pub(crate) slot: Slot,
    pub(crate) ledger: Ledger,
    pub(crate) top: u64,
    pub(crate) usable: bool,
    pub(crate) kept: KeptLeaf,
    pub(crate) places: KeptPlaces,
    pub(crate) pinned: [Option<TreeRoot>; 32],
    ghost fitted: { FitsTree (D.state device).size slot ledger },
    ghost sealed: { slot.seal ≤ top },
    ghost pins: { ArePinned slot.root.pages ledger pinned },
    ghost there: { IsTrue (D.state device).honest → IsThere (D.state device).disk.view slot ledger },
    ghost pins_there: { IsTrue (D.state device).honest → PinnedTreesAreKept (D.state device).disk.view ledger pinned },
    ghost durable: { IsTrue (D.state device).honest → IsTrue usable → IsDurable (D.state device).disk slot top },
    ghost leaf: { IsTrue (D.state device).honest → IsKeptLeaf (page_of (D.state device).disk.view) (bounds_under slot) (found_under slot (D.state device).disk.view) kept },
    ghost places_kept: { IsTrue (D.state device).honest → IsKeptTruly (page_of (D.state device).disk.view) places } by { Prim.hlevel props },
}
