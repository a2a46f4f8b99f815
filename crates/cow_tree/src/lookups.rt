// Looking pairs up in a tree: the pages on the way to them are read, and no others.
ghost use Rattle.std.specs.Prelude.{◌≡◌, ◌≤◌, ◌<◌, ◌*◌, [], IsTrue, OnOk, IfOk, Some, option_map, take};
ghost use Rattle.sector_device.specs.Effects.{MadeAtMost};
ghost use Rattle.page_store.specs.Sectors.{page_of};
ghost use Rattle.page_store.specs.Steps.{crash_states_of};
ghost use Rattle.page_store.specs.Batch.{pair_after};
ghost use Rattle.page_store.specs.Work.{pages_tried};
ghost use Rattle.cow_tree.specs.LookUps.{LooksUpValue, FillsFronts, IsKeptUnder, KeepsNext, pair_in_front};
ghost use Rattle.cow_tree.specs.KeptPlaces.{IsKeptTruly};
ghost use Rattle.cow_tree.specs.KeptLeaves.{has_next};
ghost use Rattle.cow_tree.specs.Opening.{IsRooted, bounds_under};
ghost use Rattle.cow_tree.specs.PinnedTrees.{IsRootedAt, bounds_at, tree_at};

use crate::kept_leaf::KeptLeaf;
use crate::kept_places::KeptPlaces;
use crate::kept_reads::{get_behind, get_under};
use crate::page_fault::PageFault;
use crate::page_reads::leaf_after;
use crate::tree_root::TreeRoot;
use page_store::{LONGEST_KEY, LONGEST_VALUE, Slot};
use sector_device::Device;

/// Puts the value at a key of a tree into the buffer.
pub(crate) fn find_value<D: Device>(
    device: &mut D,
    places: &mut KeptPlaces,
    tree: TreeRoot,
    key: &[u8],
    buffer: &mut [u8; LONGEST_VALUE],
) -> Result<Option<usize>, PageFault>
    requires fits { 8 * tree.pages ≤ (D.state device.old).size }
    requires rooted { IsRootedAt tree }
    requires kept { IsTrue (D.state device.old).honest → IsKeptTruly (page_of (D.state device.old).disk.view) places.old }
    ensures found { LooksUpValue D.state (crash_states_of D.moment D.possible_since) (λ pages. tree_at tree pages) key.now device.old device.new buffer.old buffer.new result }
    ensures kept { IsTrue (D.state device.new).honest → IsKeptTruly (page_of (D.state device.new).disk.view) places.new }
    ensures work { MadeAtMost (8 * tree.height) 0 0 (D.state device.old) (D.state device.new) }
{
    if tree.height == 0 {
        return Ok(None);
    }
    if let Some(size) = get_behind(device, places, tree, key, buffer) {
        return Ok(Some(size));
    }
    let found = get_under(
        device,
        places,
        tree.bounds(),
        tree.height - 1,
        tree.tree,
        key,
        buffer,
    );
    if found.is_ok() {
        places.is_of(tree);
    }
    found
}

/// Keeps the leaf of a tree that has the pair after a key, or another where there is none.
pub(crate) fn read_next_leaf<D: Device>(
    device: &mut D,
    tree: TreeRoot,
    after: &[u8],
    kept: &mut KeptLeaf,
) -> Result<(), PageFault>
    requires fits { 8 * tree.pages ≤ (D.state device.old).size }
    requires rooted { IsRootedAt tree }
    ensures next { KeepsNext D.state (crash_states_of D.moment D.possible_since) (λ pages found. tree_at tree pages ≡ Some found) (bounds_at tree) after.now device.old device.new kept.new (λ done. pair_after kept.new after.now) result }
    ensures some { OnOk result (0 < tree.height → kept.new ≡ [] → ⊥) }
    ensures work { MadeAtMost (8 * pages_tried tree.height) 0 0 (D.state device.old) (D.state device.new) }
{
    if tree.height == 0 {
        kept.clear();
        return Ok(());
    }
    match leaf_after(
        device,
        tree.bounds(),
        tree.height - 1,
        tree.tree,
        after,
        kept,
    ) {
        Ok(_) => Ok(()),
        Err(fault) => {
            kept.clear();
            Err(fault)
        }
    }
}

/// Puts the pair of a slot's tree after a key into the buffers, from the leaf that is kept, or else from the one that is to be kept next.
pub(crate) fn find_next<D: Device>(
    device: &mut D,
    slot: &Slot,
    kept: &mut KeptLeaf,
    after: &[u8],
    key: &mut [u8; LONGEST_KEY],
    value: &mut [u8; LONGEST_VALUE],
) -> Result<Option<(usize, usize)>, PageFault>
    requires fits { 8 * slot.now.root.pages ≤ (D.state device.old).size }
    requires rooted { IsRooted slot.now.root }
    ensures fills { FillsFronts result key.old key.new value.old value.new }
    ensures next { KeepsNext D.state (crash_states_of D.moment D.possible_since) (IsKeptUnder slot.now kept.old) (bounds_under slot.now) after.now device.old device.new kept.new (pair_in_front key.new value.new) result }
    ensures from_kept { IfOk result (λ sizes. option_map (λ n. (take n.0 key.new, take n.1 value.new)) sizes ≡ pair_after kept.new after.now) }
    ensures some { OnOk result (0 < slot.now.root.height → kept.new ≡ [] → ⊥) }
    ensures work { MadeAtMost (8 * pages_tried slot.now.root.height) 0 0 (D.state device.old) (D.state device.new) }
    // Where the kept leaf tells the pair, nothing is read.
    ensures unread { IsTrue (has_next kept.old after.now) → (device.new ≡ device.old) × (kept.new ≡ kept.old) }
{
    if let Some(sizes) = kept.copy_next(after, key, value) {
        return Ok(Some(sizes));
    }
    read_next_leaf(device, TreeRoot::under(slot), after, kept)?;
    Ok(kept.copy_after(after, key, value))
}
