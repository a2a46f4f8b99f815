// Where trees stand.
ghost use Rattle.std.specs.Prelude.{◌≡◌};
ghost use Rattle.tree_nodes.specs.PageViews.{bounds_of};
ghost use Rattle.cow_tree.specs.PinnedTrees.{tree_under, bounds_at};

use page_store::Slot;
use tree_nodes::ImageBounds;

/// Where the tree of a generation stands, and what its pages are tested against.
#[derive(Clone, Copy, Debug, PartialEq, Eq)]
pub(crate) struct TreeRoot {
    /// How many pages the image has.
    pub(crate) pages: u32,
    pub(crate) seal: u64,
    /// How many levels it has.
    pub(crate) height: u16,
    /// The page of its root.
    pub(crate) tree: u32,
}

impl TreeRoot {
    /// The tree under a slot.
    pub(crate) fn under(slot: &Slot) -> TreeRoot
        ensures { result ≡ tree_under slot.now }
    {
        TreeRoot {
            pages: slot.root.pages,
            seal: slot.seal,
            height: slot.root.height,
            tree: slot.root.tree,
        }
    }

    /// What its pages are tested against.
    pub(crate) fn bounds(&self) -> ImageBounds
        ensures bounds { bounds_of result ≡ bounds_at self.now }
        ensures pages { result.pages ≡ self.now.pages }
    {
        ImageBounds {
            pages: self.pages,
            seal: self.seal,
        }
    }
}
