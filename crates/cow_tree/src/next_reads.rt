// The pair after a key, from the pages on the way to it: where the device lends them nothing is copied but the pair.
ghost use Rattle.std.specs.Prelude.{◌≡◌, ◌≤◌, ◌<◌, ◌-◌, ◌+◌, ◌*◌, None, Some, true, false, [], IfOk, IfErr, IfSome, length, option_map, take};
ghost use Rattle.sector_device.specs.Sizes.{page_size};
ghost use Rattle.sector_device.specs.Effects.{MadeAtMost};
ghost use Rattle.page_store.specs.Sizes.{longest_key, longest_value};
ghost use Rattle.page_store.specs.Steps.{crash_states_of};
ghost use Rattle.page_store.specs.Batch.{pair_after};
ghost use Rattle.page_store.specs.StoreState.{IsFilled};
ghost use Rattle.page_store.specs.Content.{place_in, walk};
ghost use Rattle.page_store.specs.Pages.{pair_at};
ghost use Rattle.page_store.specs.Work.{pages_tried};
ghost use Rattle.tree_nodes.specs.PageViews.{bounds_of, pairs_in, entries_by_head};
ghost use Rattle.cow_tree.specs.LookUps.{HasNextAt, LooksUpNext};
ghost use Rattle.cow_tree.specs.Ways.{begins_leaf};
ghost use Rattle.cow_tree.specs.declared.page_fault.PageFault.TheVariants.{Damaged};

use crate::opening_walk::load_page;
use crate::page_fault::PageFault;
use crate::page_heads::leaf_by_head;
use crate::page_reads::children_around;
use page_store::{LONGEST_KEY, LONGEST_VALUE};
use sector_device::{Device, PAGE_SIZE};
use tree_nodes::{ImageBounds, Leaf};

/// The leaf that a page's bytes have by their head; `Damaged` exactly where that isn't the head of this leaf, or no pair stands behind it.
fn filled_leaf<'a>(
    bounds: ImageBounds,
    page: u32,
    bytes: &'a [u8; PAGE_SIZE],
) -> Result<Leaf<'a>, PageFault>
    ensures pairs { IfOk result (λ leaf. pairs_in leaf.count leaf.entries.now ≡ entries_by_head pair_at bytes.now) }
    ensures begins { IfOk result (λ leaf. begins_leaf (place_in (bounds_of bounds) 0 page) bytes.now ≡ true) }
    ensures fault { IfErr result (λ e. (e ≡ Damaged page) × (begins_leaf (place_in (bounds_of bounds) 0 page) bytes.now ≡ false)) }
{
    let leaf = leaf_by_head(bounds, page, bytes)?;
    if leaf.first().is_none() {
        return Err(PageFault::Damaged { page });
    }
    Ok(leaf)
}

/// The pair after a key of a leaf.
fn pair_behind<'a>(leaf: &Leaf<'a>, after: &[u8]) -> Option<(&'a [u8], &'a [u8])>
    ensures pair { option_map (λ p. (p.0.now, p.1.now)) result ≡ pair_after (pairs_in leaf.now.count leaf.now.entries.now) after.now }
    ensures sizes { IfSome result (λ p. (length p.0.now ≤ longest_key) × (length p.1.now ≤ longest_value)) }
{
    let pair = leaf.after(after)?;
    Some(pair)
}

/// Puts the pair after a key of a leaf's page into the buffers; `Damaged` exactly where the bytes don't begin with the head of that leaf and a pair.
fn copy_pair(
    bounds: ImageBounds,
    page: u32,
    bytes: &[u8; PAGE_SIZE],
    after: &[u8],
    key: &mut [u8; LONGEST_KEY],
    value: &mut [u8; LONGEST_VALUE],
) -> Result<Option<(usize, usize)>, PageFault>
    ensures long { length bytes.now ≡ page_size }
    ensures within { IfOk result (λ found. IfSome found (λ n. (n.0 ≤ longest_key) × (n.1 ≤ longest_value))) }
    ensures pair { IfOk result (λ found. option_map (λ n. (take n.0 key.new, take n.1 value.new)) found ≡ pair_after (entries_by_head pair_at bytes.now) after.now) }
    ensures begins { IfOk result (λ found. begins_leaf (place_in (bounds_of bounds) 0 page) bytes.now ≡ true) }
    ensures fault { IfErr result (λ e. (e ≡ Damaged page) × (begins_leaf (place_in (bounds_of bounds) 0 page) bytes.now ≡ false)) }
    ensures key { IsFilled (λ n. n.0) result key.old key.new }
    ensures value { IsFilled (λ n. n.1) result value.old value.new }
{
    let leaf = filled_leaf(bounds, page, bytes)?;
    let Some((found, stored)) = pair_behind(&leaf, after) else {
        return Ok(None);
    };
    key[..found.len()].copy_from_slice(found);
    value[..stored.len()].copy_from_slice(stored);
    Ok(Some((found.len(), stored.len())))
}

/// Puts the pair after a key of a leaf into the buffers, by a copy of the page.
fn read_pair<D: Device>(
    device: &mut D,
    bounds: ImageBounds,
    page: u32,
    after: &[u8],
    key: &mut [u8; LONGEST_KEY],
    value: &mut [u8; LONGEST_VALUE],
) -> Result<Option<(usize, usize)>, PageFault>
    requires fits { 8 * bounds.pages ≤ (D.state device.old).size }
    requires most { page < bounds.pages }
    ensures next { LooksUpNext D.state (crash_states_of D.moment D.possible_since) (λ pages found. walk pages (bounds_of bounds) 0 page [] None ≡ Some found) after.now device.old device.new key.old key.new value.old value.new result }
    ensures work { MadeAtMost 8 0 0 (D.state device.old) (D.state device.new) }
{
    let mut bytes = [0; PAGE_SIZE];
    load_page(device, page, &mut bytes)?;
    copy_pair(bounds, page, &bytes, after, key, value)
}

/// Puts the pair after a key of a leaf into the buffers.
fn next_in_leaf<D: Device>(
    device: &mut D,
    bounds: ImageBounds,
    page: u32,
    after: &[u8],
    key: &mut [u8; LONGEST_KEY],
    value: &mut [u8; LONGEST_VALUE],
) -> Result<Option<(usize, usize)>, PageFault>
    requires fits { 8 * bounds.pages ≤ (D.state device.old).size }
    requires most { page < bounds.pages }
    ensures next { LooksUpNext D.state (crash_states_of D.moment D.possible_since) (λ pages found. walk pages (bounds_of bounds) 0 page [] None ≡ Some found) after.now device.old device.new key.old key.new value.old value.new result }
    ensures work { MadeAtMost 8 0 0 (D.state device.old) (D.state device.new) }
{
    if let Some(lent) = device.page(page) {
        return copy_pair(bounds, page, lent, after, key, value);
    }
    read_pair(device, bounds, page, after, key, value)
}

/// Puts the pair after a key that stands under a page, which has one, into the buffers.
#[cycle(next)]
fn next_in_sibling<D: Device>(
    device: &mut D,
    bounds: ImageBounds,
    level: u16,
    page: u32,
    after: &[u8],
    key: &mut [u8; LONGEST_KEY],
    value: &mut [u8; LONGEST_VALUE],
) -> Result<Option<(usize, usize)>, PageFault>
    requires fits { 8 * bounds.pages ≤ (D.state device.old).size }
    requires most { page < bounds.pages }
    ensures next { LooksUpNext D.state (crash_states_of D.moment D.possible_since) (HasNextAt (bounds_of bounds) level page after.now) after.now device.old device.new key.old key.new value.old value.new result }
    ensures some { IfOk result (λ found. found ≡ None → ⊥) }
    ensures work { MadeAtMost (8 * pages_tried (level + 1)) 0 0 (D.state device.old) (D.state device.new) }
{
    match next_under(device, bounds, level, page, after, key, value)? {
        Some(sizes) => Ok(Some(sizes)),
        None => Err(PageFault::Damaged { page }),
    }
}

/// Puts the pair after a key that stands under a page into the buffers, or none where there is none.
#[cycle(next)]
pub(crate) fn next_under<D: Device>(
    device: &mut D,
    bounds: ImageBounds,
    level: u16,
    page: u32,
    after: &[u8],
    key: &mut [u8; LONGEST_KEY],
    value: &mut [u8; LONGEST_VALUE],
) -> Result<Option<(usize, usize)>, PageFault>
    requires fits { 8 * bounds.pages ≤ (D.state device.old).size }
    requires most { page < bounds.pages }
    ensures next { LooksUpNext D.state (crash_states_of D.moment D.possible_since) (λ pages found. walk pages (bounds_of bounds) level page [] None ≡ Some found) after.now device.old device.new key.old key.new value.old value.new result }
    ensures work { MadeAtMost (8 * pages_tried (level + 1)) 0 0 (D.state device.old) (D.state device.new) }
{
    if level == 0 {
        return next_in_leaf(device, bounds, page, after, key, value);
    }
    let (child, sibling) = children_around(device, bounds, level, page, after)?;
    if let Some(sizes) = next_under(device, bounds, level - 1, child, after, key, value)? {
        return Ok(Some(sizes));
    }
    match sibling {
        Some(page) => next_in_sibling(device, bounds, level - 1, page, after, key, value),
        None => Ok(None),
    }
}
