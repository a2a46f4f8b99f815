// Looking a value up: where the device lends the pages on its way, the places of their entries are kept, and they are searched by halves.
ghost use Rattle.std.specs.Prelude.{◌≡◌, true, ◌≤◌, ◌<◌, ◌-◌, ◌+◌, ◌*◌, ℕ, List, [], None, Some, Ok, IsTrue, IfOk, IfErr, IfSome, length, option_map, slice_get, drop, take};
ghost use Rattle.sector_device.specs.Effects.{MadeAtMost};
ghost use Rattle.page_store.specs.Sizes.{longest_value};
ghost use Rattle.page_store.specs.Sectors.{page_of};
ghost use Rattle.page_store.specs.Steps.{crash_states_of};
ghost use Rattle.page_store.specs.Batch.{value_at};
ghost use Rattle.page_store.specs.StoreState.{IsFilled};
ghost use Rattle.page_store.specs.Content.{Found, place_in, walk};
ghost use Rattle.tree_nodes.specs.PageViews.{bounds_of, children_in, has_head};
ghost use Rattle.cow_tree.specs.LookUps.{LooksUpValue};
ghost use Rattle.cow_tree.specs.KeptPlaces.{AnswersValueBy, AnswersWayBy, ArePlaces, IsKeptTruly, NamesLeafUnder};
ghost use Rattle.cow_tree.specs.PinnedTrees.{tree_at};
ghost use Rattle.cow_tree.specs.Walks.{IsPageInside, ReadsTreePages};
ghost use Rattle.cow_tree.specs.Ways.{AnswersBy, AnswersWay, IsOnWay};
ghost use Rattle.cow_tree.specs.declared.page_fault.PageFault.{PageFault as PageFaultValue};
ghost use Rattle.cow_tree.specs.declared.page_fault.PageFault.TheVariants.{Damaged};

use crate::kept_places::{KeptPlaces, PagePlaces};
use crate::opening_walk::count_pairs;
use crate::page_fault::PageFault;
use crate::page_heads::{branch_by_head, leaf_by_head};
use crate::page_places::{pages_by_places, value_by_number, value_by_places};
use crate::page_reads::{are_inside, around_in, copy_value, read_around, read_value};
use crate::tree_root::TreeRoot;
use page_store::LONGEST_VALUE;
use sector_device::{Device, PAGE_SIZE};
use tree_nodes::{Branch, ImageBounds};

/// How many children a branch has.
fn count_children(branch: Branch<'_>) -> u16
    ensures { result ≡ length (children_in branch.entry.count branch.entry.entries.now) }
{
    let mut count: u16 = 0;
    let mut left = branch;
    while let Some((_, _, others)) = left.first() {
        count += 1;
        left = others;
    }
    count
}

/// Keeps where the children of a branch begin, by its page's bytes; nothing where these don't begin with the head of that page.
fn keep_branch(
    places: &mut KeptPlaces,
    bounds: ImageBounds,
    level: u16,
    page: u32,
    bytes: &[u8; PAGE_SIZE],
)
    requires { 0 < level }
    ensures { (view : ℕ → List ℕ) → IsKeptTruly view places.old → view page ≡ bytes.now → IsKeptTruly view places.new }
{
    if let Ok(branch) = branch_by_head(bounds, level, page, bytes) {
        places.keep(level, page, count_children(branch), bytes);
    }
}

/// Keeps where the pairs of a leaf begin, likewise.
fn keep_leaf(places: &mut KeptPlaces, bounds: ImageBounds, page: u32, bytes: &[u8; PAGE_SIZE])
    ensures { (view : ℕ → List ℕ) → IsKeptTruly view places.old → view page ≡ bytes.now → IsKeptTruly view places.new }
{
    if let Ok(leaf) = leaf_by_head(bounds, page, bytes) {
        places.keep(0, page, count_pairs(leaf), bytes);
    }
}

/// The page under which a key stands, and the page after it, by the bytes of a branch's page and the places of its children.
fn around_kept(
    bounds: ImageBounds,
    level: u16,
    page: u32,
    bytes: &[u8; PAGE_SIZE],
    places: &PagePlaces,
    near: &mut usize,
    key: &[u8],
) -> Result<(u32, Option<u32>), PageFault>
    requires { 0 < level }
    ensures way { AnswersWayBy bytes.now places.now (bounds_of bounds) level page key.now result }
    ensures first { IfOk result (λ around. around.0 < bounds.pages) }
    ensures second { IfOk result (λ around. IfSome around.1 (λ page. page < bounds.pages)) }
    ensures head { IfOk result (λ around. has_head (place_in (bounds_of bounds) level page) bytes.now ≡ true) }
    ensures fault { IfErr result (λ e. e ≡ Damaged page) }
{
    branch_by_head(bounds, level, page, bytes)?;
    match pages_by_places(bytes, places, near, key) {
        Some(around) if are_inside(bounds.pages, around) => Ok(around),
        _ => Err(PageFault::Damaged { page }),
    }
}

/// The page under which a key stands, and the page after it, by the bytes of a branch's page.
fn around_lent(
    places: &mut KeptPlaces,
    bounds: ImageBounds,
    level: u16,
    page: u32,
    bytes: &[u8; PAGE_SIZE],
    key: &[u8],
) -> Result<(u32, Option<u32>), PageFault>
    requires { 0 < level }
    ensures way { (view : ℕ → List ℕ) (found : Found) → view page ≡ bytes.now → IsKeptTruly view places.old → walk view (bounds_of bounds) level page [] None ≡ Some found → AnswersBy result (IsOnWay view (bounds_of bounds) (level - 1) key.now found) }
    ensures kept { (view : ℕ → List ℕ) → view page ≡ bytes.now → IsKeptTruly view places.old → IsKeptTruly view places.new }
    ensures first { IfOk result (λ around. around.0 < bounds.pages) }
    ensures second { IfOk result (λ around. IfSome around.1 (λ page. page < bounds.pages)) }
    ensures head { IfOk result (λ around. has_head (place_in (bounds_of bounds) level page) bytes.now ≡ true) }
    ensures fault { IfErr result (λ e. e ≡ Damaged page) }
{
    let mut near = places.near(level);
    if let Some(kept) = places.of(level, page) {
        let around = around_kept(bounds, level, page, bytes, kept, &mut near, key);
        places.set_near(level, near);
        return around;
    }
    keep_branch(places, bounds, level, page, bytes);
    around_in(bounds, level, page, bytes, key)
}

/// The page under a branch's page under which a key stands, and the page after it.
fn page_around<D: Device>(
    device: &mut D,
    places: &mut KeptPlaces,
    bounds: ImageBounds,
    level: u16,
    page: u32,
    key: &[u8],
) -> Result<(u32, Option<u32>), PageFault>
    requires level { 0 < level }
    requires inside { IsPageInside (D.state device.old).size bounds.pages page }
    requires kept { IsTrue (D.state device.old).honest → IsKeptTruly (page_of (D.state device.old).disk.view) places.old }
    ensures way { IsTrue (D.state device.old).honest → AnswersWay (page_of (D.state device.old).disk.view) (bounds_of bounds) level page key.now result }
    ensures first { IfOk result (λ around. around.0 < bounds.pages) }
    ensures reads { ReadsTreePages D.state (crash_states_of D.moment D.possible_since) device.old device.new result }
    ensures kept { IsTrue (D.state device.new).honest → IsKeptTruly (page_of (D.state device.new).disk.view) places.new }
    ensures work { MadeAtMost 8 0 0 (D.state device.old) (D.state device.new) }
{
    if let Some(lent) = device.page(page) {
        return around_lent(places, bounds, level, page, lent, key);
    }
    read_around(device, bounds, level, page, key)
}

/// Puts a value into the front of the buffer. What stands behind it stays.
fn put_in_front(value: &[u8], buffer: &mut [u8; LONGEST_VALUE])
    requires { length value.now ≤ longest_value }
    ensures front { take (length value.now) buffer.new ≡ value.now }
    ensures behind { drop (length value.now) buffer.new ≡ drop (length value.now) buffer.old }
{
    buffer[..value.len()].copy_from_slice(value);
}

/// Puts the value at a key of a leaf into the buffer, by the bytes of its page and the places of its pairs.
fn copy_kept_value(
    bounds: ImageBounds,
    page: u32,
    bytes: &[u8; PAGE_SIZE],
    places: &PagePlaces,
    near: &mut usize,
    key: &[u8],
    buffer: &mut [u8; LONGEST_VALUE],
) -> Result<Option<usize>, PageFault>
    ensures within { IfOk result (λ found. IfSome found (λ n. n ≤ longest_value)) }
    ensures value { AnswersValueBy bytes.now places.now (bounds_of bounds) page key.now buffer.new result }
    ensures buffer { IsFilled (λ n. n) result buffer.old buffer.new }
    ensures head { IfOk result (λ found. has_head (place_in (bounds_of bounds) 0 page) bytes.now ≡ true) }
    ensures fault { IfErr result (λ e. e ≡ Damaged page) }
{
    leaf_by_head(bounds, page, bytes)?;
    let Some(value) = value_by_places(bytes, places, near, key) else {
        return Ok(None);
    };
    put_in_front(value, buffer);
    Ok(Some(value.len()))
}

/// Puts the value at a key of a leaf into the buffer, by the bytes of its page.
fn copy_lent_value(
    places: &mut KeptPlaces,
    bounds: ImageBounds,
    page: u32,
    bytes: &[u8; PAGE_SIZE],
    key: &[u8],
    buffer: &mut [u8; LONGEST_VALUE],
) -> Result<Option<usize>, PageFault>
    ensures within { IfOk result (λ found. IfSome found (λ n. n ≤ longest_value)) }
    ensures value { (view : ℕ → List ℕ) (found : Found) → view page ≡ bytes.now → IsKeptTruly view places.old → walk view (bounds_of bounds) 0 page [] None ≡ Some found →
        AnswersBy result (λ size. option_map (λ n. take n buffer.new) size ≡ value_at found.pairs key.now) }
    ensures kept { (view : ℕ → List ℕ) → view page ≡ bytes.now → IsKeptTruly view places.old → IsKeptTruly view places.new }
    ensures buffer { IsFilled (λ n. n) result buffer.old buffer.new }
    ensures head { IfOk result (λ found. has_head (place_in (bounds_of bounds) 0 page) bytes.now ≡ true) }
    ensures fault { IfErr result (λ e. e ≡ Damaged page) }
{
    let mut near = places.near(0);
    if let Some(kept) = places.of(0, page) {
        let found = copy_kept_value(bounds, page, bytes, kept, &mut near, key, buffer);
        places.set_near(0, near);
        return found;
    }
    keep_leaf(places, bounds, page, bytes);
    copy_value(bounds, page, bytes, key, buffer)
}

/// Puts the value at a key of a leaf into the buffer.
fn get_in_leaf<D: Device>(
    device: &mut D,
    places: &mut KeptPlaces,
    bounds: ImageBounds,
    page: u32,
    key: &[u8],
    buffer: &mut [u8; LONGEST_VALUE],
) -> Result<Option<usize>, PageFault>
    requires fits { 8 * bounds.pages ≤ (D.state device.old).size }
    requires most { page < bounds.pages }
    requires kept { IsTrue (D.state device.old).honest → IsKeptTruly (page_of (D.state device.old).disk.view) places.old }
    ensures found { LooksUpValue D.state (crash_states_of D.moment D.possible_since) (λ pages. walk pages (bounds_of bounds) 0 page [] None) key.now device.old device.new buffer.old buffer.new result }
    ensures kept { IsTrue (D.state device.new).honest → IsKeptTruly (page_of (D.state device.new).disk.view) places.new }
    ensures work { MadeAtMost 8 0 0 (D.state device.old) (D.state device.new) }
{
    if let Some(lent) = device.page(page) {
        return copy_lent_value(places, bounds, page, lent, key, buffer);
    }
    read_value(device, bounds, page, key, buffer)
}

/// The value of a pair of a leaf by its number, where that pair has this key, by the bytes of the leaf's page and the places of its pairs.
fn numbered_value<'a>(
    bounds: ImageBounds,
    page: u32,
    bytes: &'a [u8; PAGE_SIZE],
    places: &PagePlaces,
    number: usize,
    key: &[u8],
) -> Option<&'a [u8]>
    ensures value { (view : ℕ → List ℕ) (found : Found) → view page ≡ bytes.now → ArePlaces 0 bytes.now places.now.count places.now.at → walk view (bounds_of bounds) 0 page [] None ≡ Some found →
        IfSome result (λ v. slice_get found.pairs number ≡ Some (key.now, v.now)) }
    ensures size { IfSome result (λ v. length v.now ≤ longest_value) }
    ensures head { IfSome result (λ v. has_head (place_in (bounds_of bounds) 0 page) bytes.now ≡ true) }
{
    match leaf_by_head(bounds, page, bytes) {
        Ok(_) => value_by_number(bytes, places, number, key),
        Err(_) => None,
    }
}

/// Puts the value at a key into the buffer, where its pair is the one behind the pair that was found last, in a leaf of the same tree that the device lends.
pub(crate) fn get_behind<D: Device>(
    device: &D,
    places: &mut KeptPlaces,
    tree: TreeRoot,
    key: &[u8],
    buffer: &mut [u8; LONGEST_VALUE],
) -> Option<usize>
    requires kept { IsTrue (D.state device.now).honest → IsKeptTruly (page_of (D.state device.now).disk.view) places.old }
    ensures within { IfSome result (λ n. n ≤ longest_value) }
    ensures value { IsTrue (D.state device.now).honest → (found : Found) → tree_at tree (page_of (D.state device.now).disk.view) ≡ Some found →
        IfSome result (λ n. Some (take n buffer.new) ≡ value_at found.pairs key.now) }
    ensures buffer { IsFilled {E = PageFaultValue} (λ n. n) (Ok result) buffer.old buffer.new }
    ensures kept { IsTrue (D.state device.now).honest → IsKeptTruly (page_of (D.state device.now).disk.view) places.new }
{
    let page = places.leaf_of(tree)?;
    let bytes = device.page(page)?;
    let number = places.near(0);
    let kept = places.of(0, page)?;
    let stored = numbered_value(tree.bounds(), page, bytes, kept, number, key)?;
    places.set_near(0, number.saturating_add(1));
    put_in_front(stored, buffer);
    Some(stored.len())
}

/// Puts the value at a key that stands under a page into the buffer.
pub(crate) fn get_under<D: Device>(
    device: &mut D,
    places: &mut KeptPlaces,
    bounds: ImageBounds,
    level: u16,
    page: u32,
    key: &[u8],
    buffer: &mut [u8; LONGEST_VALUE],
) -> Result<Option<usize>, PageFault>
    requires fits { 8 * bounds.pages ≤ (D.state device.old).size }
    requires most { page < bounds.pages }
    requires kept { IsTrue (D.state device.old).honest → IsKeptTruly (page_of (D.state device.old).disk.view) places.old }
    ensures found { LooksUpValue D.state (crash_states_of D.moment D.possible_since) (λ pages. walk pages (bounds_of bounds) level page [] None) key.now device.old device.new buffer.old buffer.new result }
    ensures kept { IsTrue (D.state device.new).honest → IsKeptTruly (page_of (D.state device.new).disk.view) places.new }
    // The leaf in which it looked is a part of what stands there.
    ensures leaf { IsTrue (D.state device.old).honest → NamesLeafUnder (page_of (D.state device.old).disk.view) (bounds_of bounds) level page places.new.leaf result }
    ensures work { MadeAtMost (8 * (level + 1)) 0 0 (D.state device.old) (D.state device.new) }
{
    if level == 0 {
        let found = get_in_leaf(device, places, bounds, page, key, buffer);
        places.looked_into(page);
        return found;
    }
    let (child, _) = page_around(device, places, bounds, level, page, key)?;
    get_under(device, places, bounds, level - 1, child, key, buffer)
}
