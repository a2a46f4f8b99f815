// Pages on the way of a key. Each page of a tree was tested when the image was opened, or written by a commit since: only its head is tested again.
ghost use Rattle.std.specs.Prelude.{◌≡◌, ◌≤◌, ◌<◌, ◌-◌, ◌*◌, [], None, Some, true, false, IsTrue, IfOk, IfErr, IfSome, length, option_map, take, ◌+◌};
ghost use Rattle.page_store.specs.Sizes.{longest_value};
ghost use Rattle.sector_device.specs.Sizes.{page_size};
ghost use Rattle.sector_device.specs.Effects.{MadeAtMost, MadeIfOk};
ghost use Rattle.page_store.specs.Sectors.{page_of};
ghost use Rattle.page_store.specs.Steps.{crash_states_of};
ghost use Rattle.page_store.specs.Batch.{value_at};
ghost use Rattle.page_store.specs.StoreState.{IsFilled};
ghost use Rattle.page_store.specs.Content.{place_in, walk};
ghost use Rattle.page_store.specs.Pages.{pair_at};
ghost use Rattle.tree_nodes.specs.PageViews.{bounds_of, pairs_in, children_in, entries_by_head, has_head};
ghost use Rattle.cow_tree.specs.LookUps.{HasNextAt, LooksUpValue, ReadsNextLeaf};
ghost use Rattle.page_store.specs.Work.{pages_tried};
ghost use Rattle.cow_tree.specs.Walks.{ReadsTreePages};
ghost use Rattle.cow_tree.specs.Ways.{pages_around, are_inside, around_in, AnswersWay};
ghost use Rattle.cow_tree.specs.declared.page_fault.PageFault.TheVariants.{Damaged};

use crate::kept_leaf::KeptLeaf;
use crate::opening_walk::load_page;
use crate::page_fault::PageFault;
use crate::page_heads::{branch_by_head, leaf_by_head};
use common_types::compare_bytes;
use page_store::LONGEST_VALUE;
use sector_device::{Device, PAGE_SIZE};
use std::cmp::Ordering;
use tree_nodes::{Branch, ImageBounds, Leaf};

/// The page under which a key stands, and the page after it.
fn pages_around(branch: &Branch<'_>, key: &[u8]) -> Option<(u32, Option<u32>)>
    ensures { result ≡ pages_around key.now (children_in branch.now.count branch.now.entries.now) }
{
    let (_, first, others) = branch.first()?;
    let mut page = first;
    let mut left = others;
    while let Some((next, after, others)) = left.first() {
        if compare_bytes(key, next) == Ordering::Less {
            return Some((page, Some(after)));
        }
        page = after;
        left = others;
    }
    Some((page, None))
}

/// Whether the pages around a key are pages of an image of so many.
pub(crate) fn are_inside(pages: u32, around: (u32, Option<u32>)) -> bool
    ensures { result ≡ are_inside pages around }
{
    let (here, next) = around;
    match next {
        Some(next) => here < pages && next < pages,
        None => here < pages,
    }
}

/// The page under which a key stands, and the page after it, by the bytes of a branch's page; `Damaged` exactly where these don't begin with the head of that page, or name no pages
/// of the image there.
pub(crate) fn around_in(
    bounds: ImageBounds,
    level: u16,
    page: u32,
    bytes: &[u8; PAGE_SIZE],
    key: &[u8],
) -> Result<(u32, Option<u32>), PageFault>
    ensures long { length bytes.now ≡ page_size }
    ensures around { IfOk result (λ around. around_in (place_in (bounds_of bounds) level page) key.now bytes.now ≡ Some around) }
    ensures first { IfOk result (λ around. around.0 < bounds.pages) }
    ensures second { IfOk result (λ around. IfSome around.1 (λ page. page < bounds.pages)) }
    ensures fault { IfErr result (λ e. (e ≡ Damaged page) × (around_in (place_in (bounds_of bounds) level page) key.now bytes.now ≡ None)) }
{
    let branch = branch_by_head(bounds, level, page, bytes)?;
    match pages_around(&branch, key) {
        Some(around) if are_inside(bounds.pages, around) => Ok(around),
        _ => Err(PageFault::Damaged { page }),
    }
}

/// The page under a branch's page under which a key stands, and the page after it, by a copy of the page.
pub(crate) fn read_around<D: Device>(
    device: &mut D,
    bounds: ImageBounds,
    level: u16,
    page: u32,
    key: &[u8],
) -> Result<(u32, Option<u32>), PageFault>
    requires level { 0 < level }
    requires fits { 8 * bounds.pages ≤ (D.state device.old).size }
    requires most { page < bounds.pages }
    ensures way { IsTrue (D.state device.old).honest → AnswersWay (page_of (D.state device.old).disk.view) (bounds_of bounds) level page key.now result }
    ensures first { IfOk result (λ around. around.0 < bounds.pages) }
    ensures second { IfOk result (λ around. IfSome around.1 (λ page. page < bounds.pages)) }
    ensures reads { ReadsTreePages D.state (crash_states_of D.moment D.possible_since) device.old device.new result }
    ensures work { MadeIfOk result 8 0 0 (D.state device.old) (D.state device.new) }
{
    let mut bytes = [0; PAGE_SIZE];
    load_page(device, page, &mut bytes)?;
    around_in(bounds, level, page, &bytes, key)
}

/// The page under a branch's page under which a key stands, and the page after it.
pub(crate) fn children_around<D: Device>(
    device: &mut D,
    bounds: ImageBounds,
    level: u16,
    page: u32,
    key: &[u8],
) -> Result<(u32, Option<u32>), PageFault>
    requires level { 0 < level }
    requires fits { 8 * bounds.pages ≤ (D.state device.old).size }
    requires most { page < bounds.pages }
    ensures way { IsTrue (D.state device.old).honest → AnswersWay (page_of (D.state device.old).disk.view) (bounds_of bounds) level page key.now result }
    ensures first { IfOk result (λ around. around.0 < bounds.pages) }
    ensures second { IfOk result (λ around. IfSome around.1 (λ page. page < bounds.pages)) }
    ensures reads { ReadsTreePages D.state (crash_states_of D.moment D.possible_since) device.old device.new result }
    ensures work { MadeAtMost 8 0 0 (D.state device.old) (D.state device.new) }
{
    if let Some(lent) = device.page(page) {
        return around_in(bounds, level, page, lent, key);
    }
    read_around(device, bounds, level, page, key)
}

/// The value at a key of a leaf.
fn value_of<'a>(leaf: &Leaf<'a>, key: &[u8]) -> Option<&'a [u8]>
    ensures value { option_map (λ v. v.now) result ≡ value_at (pairs_in leaf.now.count leaf.now.entries.now) key.now }
    ensures size { IfSome result (λ v. length v.now ≤ longest_value) }
{
    let value = leaf.get(key)?;
    Some(value)
}

/// Puts the value at a key of a leaf's page into the buffer; `Damaged` exactly where the bytes don't begin with the head of that leaf.
pub(crate) fn copy_value(
    bounds: ImageBounds,
    page: u32,
    bytes: &[u8; PAGE_SIZE],
    key: &[u8],
    buffer: &mut [u8; LONGEST_VALUE],
) -> Result<Option<usize>, PageFault>
    ensures long { length bytes.now ≡ page_size }
    ensures within { IfOk result (λ found. IfSome found (λ n. n ≤ longest_value)) }
    ensures value { IfOk result (λ found. option_map (λ n. take n buffer.new) found ≡ value_at (entries_by_head pair_at bytes.now) key.now) }
    ensures head { IfOk result (λ found. has_head (place_in (bounds_of bounds) 0 page) bytes.now ≡ true) }
    ensures fault { IfErr result (λ e. (e ≡ Damaged page) × (has_head (place_in (bounds_of bounds) 0 page) bytes.now ≡ false)) }
    ensures buffer { IsFilled (λ n. n) result buffer.old buffer.new }
{
    let leaf = leaf_by_head(bounds, page, bytes)?;
    let Some(value) = value_of(&leaf, key) else {
        return Ok(None);
    };
    buffer[..value.len()].copy_from_slice(value);
    Ok(Some(value.len()))
}

/// Puts the value at a key of a leaf into the buffer, by a copy of the page.
pub(crate) fn read_value<D: Device>(
    device: &mut D,
    bounds: ImageBounds,
    page: u32,
    key: &[u8],
    buffer: &mut [u8; LONGEST_VALUE],
) -> Result<Option<usize>, PageFault>
    requires fits { 8 * bounds.pages ≤ (D.state device.old).size }
    requires most { page < bounds.pages }
    ensures found { LooksUpValue D.state (crash_states_of D.moment D.possible_since) (λ pages. walk pages (bounds_of bounds) 0 page [] None) key.now device.old device.new buffer.old buffer.new result }
    ensures work { MadeIfOk result 8 0 0 (D.state device.old) (D.state device.new) }
{
    let mut bytes = [0; PAGE_SIZE];
    load_page(device, page, &mut bytes)?;
    copy_value(bounds, page, &bytes, key, buffer)
}

/// Reads a leaf, and tells whether it has a pair after a key.
fn read_leaf<D: Device>(
    device: &mut D,
    bounds: ImageBounds,
    page: u32,
    after: &[u8],
    kept: &mut KeptLeaf,
) -> Result<bool, PageFault>
    requires fits { 8 * bounds.pages ≤ (D.state device.old).size }
    requires most { page < bounds.pages }
    ensures next { ReadsNextLeaf D.state (crash_states_of D.moment D.possible_since) (λ pages found. walk pages (bounds_of bounds) 0 page [] None ≡ Some found) (bounds_of bounds) after.now device.old device.new kept.new result }
    ensures work { MadeAtMost 8 0 0 (D.state device.old) (D.state device.new) }
{
    kept.read(device, bounds, page)?;
    Ok(kept.has_above(after))
}

/// Reads the leaf of the pair after a key under a page, which has one.
#[cycle(next)]
fn leaf_in_sibling<D: Device>(
    device: &mut D,
    bounds: ImageBounds,
    level: u16,
    page: u32,
    after: &[u8],
    kept: &mut KeptLeaf,
) -> Result<bool, PageFault>
    requires fits { 8 * bounds.pages ≤ (D.state device.old).size }
    requires most { page < bounds.pages }
    ensures next { ReadsNextLeaf D.state (crash_states_of D.moment D.possible_since) (HasNextAt (bounds_of bounds) level page after.now) (bounds_of bounds) after.now device.old device.new kept.new result }
    ensures work { MadeAtMost (8 * pages_tried (level + 1)) 0 0 (D.state device.old) (D.state device.new) }
{
    if !leaf_after(device, bounds, level, page, after, kept)? {
        return Err(PageFault::Damaged { page });
    }
    Ok(true)
}

/// Reads the leaf of the pair after a key under a page, or another where there is none, and tells whether there is.
#[cycle(next)]
pub(crate) fn leaf_after<D: Device>(
    device: &mut D,
    bounds: ImageBounds,
    level: u16,
    page: u32,
    after: &[u8],
    kept: &mut KeptLeaf,
) -> Result<bool, PageFault>
    requires fits { 8 * bounds.pages ≤ (D.state device.old).size }
    requires most { page < bounds.pages }
    ensures next { ReadsNextLeaf D.state (crash_states_of D.moment D.possible_since) (λ pages found. walk pages (bounds_of bounds) level page [] None ≡ Some found) (bounds_of bounds) after.now device.old device.new kept.new result }
    ensures work { MadeAtMost (8 * pages_tried (level + 1)) 0 0 (D.state device.old) (D.state device.new) }
{
    if level == 0 {
        return read_leaf(device, bounds, page, after, kept);
    }
    let (child, sibling) = children_around(device, bounds, level, page, after)?;
    if leaf_after(device, bounds, level - 1, child, after, kept)? {
        return Ok(true);
    }
    match sibling {
        Some(next) => leaf_in_sibling(device, bounds, level - 1, next, after, kept),
        None => Ok(false),
    }
}
