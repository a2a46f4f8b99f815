// Pages that are read after the opening: the head of each is tested again, whatever the opening has found there.
ghost use Rattle.std.specs.Prelude.{◌≡◌, true, false, IfOk, IfErr};
ghost use Rattle.page_store.specs.Pages.{pair_at, child_at};
ghost use Rattle.page_store.specs.Content.{place_in};
ghost use Rattle.tree_nodes.specs.PageViews.{bounds_of, pairs_in, children_in, entries_by_head, has_head};
ghost use Rattle.cow_tree.specs.declared.page_fault.PageFault.TheVariants.{Damaged};

use crate::page_fault::PageFault;
use sector_device::PAGE_SIZE;
use tree_nodes::{Branch, ImageBounds, Leaf};

/// The leaf that a page's bytes have by their head; `Damaged` exactly where that isn't the head of this leaf.
pub(crate) fn leaf_by_head<'a>(
    bounds: ImageBounds,
    page: u32,
    bytes: &'a [u8; PAGE_SIZE],
) -> Result<Leaf<'a>, PageFault>
    ensures pairs { IfOk result (λ leaf. pairs_in leaf.count leaf.entries.now ≡ entries_by_head pair_at bytes.now) }
    ensures head { IfOk result (λ leaf. has_head (place_in (bounds_of bounds) 0 page) bytes.now ≡ true) }
    ensures fault { IfErr result (λ e. (e ≡ Damaged page) × (has_head (place_in (bounds_of bounds) 0 page) bytes.now ≡ false)) }
{
    match Leaf::by_head(bounds, page, bytes) {
        Ok(leaf) => Ok(leaf),
        Err(_) => Err(PageFault::Damaged { page }),
    }
}

/// The branch that a page's bytes have by their head; `Damaged` exactly where that isn't the head of this page.
pub(crate) fn branch_by_head<'a>(
    bounds: ImageBounds,
    level: u16,
    page: u32,
    bytes: &'a [u8; PAGE_SIZE],
) -> Result<Branch<'a>, PageFault>
    ensures children { IfOk result (λ branch. children_in branch.count branch.entries.now ≡ entries_by_head child_at bytes.now) }
    ensures head { IfOk result (λ branch. has_head (place_in (bounds_of bounds) level page) bytes.now ≡ true) }
    ensures fault { IfErr result (λ e. (e ≡ Damaged page) × (has_head (place_in (bounds_of bounds) level page) bytes.now ≡ false)) }
{
    match Branch::by_head(bounds, level, page, bytes) {
        Ok(branch) => Ok(branch),
        Err(_) => Err(PageFault::Damaged { page }),
    }
}
