// What the pages of a tree are tested against.
ghost use Rattle.std.specs.Prelude.{◌≡◌};
ghost use Rattle.tree_nodes.specs.PageViews.{bounds_of};
ghost use Rattle.cow_tree.specs.Opening.{bounds_under};

use page_store::Slot;
use tree_nodes::ImageBounds;

/// What the pages of a slot's tree are tested against.
pub(crate) fn bounds_of(slot: &Slot) -> ImageBounds
    ensures bounds { bounds_of result ≡ bounds_under slot.now }
    ensures pages { result.pages ≡ slot.now.root.pages }
{
    ImageBounds {
        pages: slot.root.pages,
        seal: slot.seal,
    }
}
