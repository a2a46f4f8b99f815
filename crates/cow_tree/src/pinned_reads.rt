// Walking over a tree that a pin keeps.
ghost use Rattle.std.specs.Prelude.{◌≡◌, ◌≤◌, ◌*◌, Some, IsTrue, IfOk, IfSome, option_map, take};
ghost use Rattle.page_store.specs.Sizes.{longest_key, longest_value};
ghost use Rattle.sector_device.specs.Effects.{MadeAtMost};
ghost use Rattle.page_store.specs.Sectors.{page_of};
ghost use Rattle.page_store.specs.Steps.{crash_states_of};
ghost use Rattle.page_store.specs.Content.{Found};
ghost use Rattle.page_store.specs.Batch.{pair_after};
ghost use Rattle.page_store.specs.StoreState.{IsFilled};
ghost use Rattle.page_store.specs.Work.{pages_tried};
ghost use Rattle.cow_tree.specs.Walks.{ReadsTreePages};
ghost use Rattle.cow_tree.specs.Ways.{AnswersBy};
ghost use Rattle.cow_tree.specs.PinnedTrees.{IsRootedAt, tree_at};

use crate::next_reads::next_under;
use crate::page_fault::PageFault;
use crate::tree_root::TreeRoot;
use page_store::{LONGEST_KEY, LONGEST_VALUE};
use sector_device::Device;

/// Puts the pair of a tree after a key into the buffers. It reads the pages from the root on each time.
pub(crate) fn read_next<D: Device>(
    device: &mut D,
    tree: TreeRoot,
    after: &[u8],
    key: &mut [u8; LONGEST_KEY],
    value: &mut [u8; LONGEST_VALUE],
) -> Result<Option<(usize, usize)>, PageFault>
    requires fits { 8 * tree.pages ≤ (D.state device.old).size }
    requires rooted { IsRootedAt tree }
    ensures within { IfOk result (λ found. IfSome found (λ n. (n.0 ≤ longest_key) × (n.1 ≤ longest_value))) }
    ensures pair { IsTrue (D.state device.old).honest → (found : Found) → tree_at tree (page_of (D.state device.old).disk.view) ≡ Some found →
        AnswersBy result (λ sizes. option_map (λ n. (take n.0 key.new, take n.1 value.new)) sizes ≡ pair_after found.pairs after.now) }
    ensures key { IsFilled (λ n. n.0) result key.old key.new }
    ensures value { IsFilled (λ n. n.1) result value.old value.new }
    ensures reads { ReadsTreePages D.state (crash_states_of D.moment D.possible_since) device.old device.new result }
    ensures work { MadeAtMost (8 * pages_tried tree.height) 0 0 (D.state device.old) (D.state device.new) }
{
    if tree.height == 0 {
        return Ok(None);
    }
    next_under(
        device,
        tree.bounds(),
        tree.height - 1,
        tree.tree,
        after,
        key,
        value,
    )
}
