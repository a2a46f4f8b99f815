// A page of which it is known where its entries begin.
ghost use Rattle.std.specs.Prelude.{◌≡◌, ◌∷◌, ◌<◌, ◌≤◌, [], List, Some, IfSome, IsTrue, MatchOption, ℕ, length, map, option_map, slice_get};
ghost use Rattle.std.specs.BTreeMap.{is_at};
ghost use Rattle.common_types.specs.ByteOrder.{byte_cmp};
ghost use Rattle.page_store.specs.Sizes.{longest_value};
ghost use Rattle.page_store.specs.Heads.{seen_child};
ghost use Rattle.page_store.specs.Keys.{precedes, rises};
ghost use Rattle.page_store.specs.Pages.{Pair, Child, key_of, child_key, starts_empty, pair_at, child_at};
ghost use Rattle.page_store.specs.Batch.{value_at};
ghost use Rattle.cow_tree.specs.KeptLeaves.{pairs_from};
ghost use Rattle.cow_tree.specs.KeptPlaces.{entry_from, key_from, AreFoundAt, ArePlaces, HasSoManyEntries, count_upto};
ghost use Rattle.cow_tree.specs.Ways.{pages_around, children_from};

use crate::kept_leaf::{ENTRIES, Place, pair_from};
use crate::kept_places::PagePlaces;
use common_types::compare_bytes;
use page_store::{child_at, pair_at};
use sector_device::PAGE_SIZE;
use std::cmp::Ordering;

/// Of how many entries of a page the places are kept, at most.
pub(crate) const MOST_PLACES: usize = 256;

/// The child at a place, and the place behind it.
fn child_from(bytes: &[u8; PAGE_SIZE], place: Place) -> Option<(&[u8], u32, Place)>
    ensures children { MatchOption result (children_from bytes.now place.at place.left ≡ []) (λ x. children_from bytes.now place.at place.left ≡ seen_child x.0.now x.1 ∷ children_from bytes.now x.2.at x.2.left) }
    ensures fewer { IfSome result (λ x. x.2.left < place.left) }
{
    if place.left < 1 {
        return None;
    }
    let entries = bytes.get(place.at..)?;
    let ((key, page), rest) = child_at(entries)?;
    let behind = Place {
        at: PAGE_SIZE - rest.len(),
        left: place.left - 1,
    };
    Some((key, page, behind))
}

/// Where so many pairs begin, one after another from the head of a page on, as far as they have the form; none where they are too many.
fn pair_places(bytes: &[u8; PAGE_SIZE], count: u16, at: &mut [u16; MOST_PLACES]) -> Option<u16>
    ensures { IfSome result (λ n. AreFoundAt (entry_from pair_at bytes.now) (pairs_from bytes.now 24 count) n at.new) }
{
    let mut place = Place {
        at: ENTRIES,
        left: count,
    };
    let mut placed: usize = 0;
    while let Some((_, _, behind)) = pair_from(bytes, place) {
        if placed >= MOST_PLACES {
            return None;
        }
        at[placed] = place.at as u16;
        placed += 1;
        place = behind;
    }
    Some(placed as u16)
}

/// Where so many children begin, likewise.
fn child_places(bytes: &[u8; PAGE_SIZE], count: u16, at: &mut [u16; MOST_PLACES]) -> Option<u16>
    ensures { IfSome result (λ n. AreFoundAt (entry_from child_at bytes.now) (children_from bytes.now 24 count) n at.new) }
{
    let mut place = Place {
        at: ENTRIES,
        left: count,
    };
    let mut placed: usize = 0;
    while let Some((_, _, behind)) = child_from(bytes, place) {
        if placed >= MOST_PLACES {
            return None;
        }
        at[placed] = place.at as u16;
        placed += 1;
        place = behind;
    }
    Some(placed as u16)
}

/// Where so many entries of a page of a level begin; none where they are too many.
pub(crate) fn places_in(
    level: u16,
    bytes: &[u8; PAGE_SIZE],
    count: u16,
    at: &mut [u16; MOST_PLACES],
) -> Option<u16>
    ensures { IfSome result (λ n. HasSoManyEntries level bytes.now count → ArePlaces level bytes.now n at.new) }
{
    if level == 0 {
        pair_places(bytes, count, at)
    } else {
        child_places(bytes, count, at)
    }
}

/// The key of the entry of a page of a level that begins at a place.
fn key_from(level: u16, bytes: &[u8; PAGE_SIZE], place: u16) -> Option<&[u8]>
    ensures { option_map (λ k. k.now) result ≡ key_from level bytes.now place }
{
    let entries = bytes.get(place as usize..)?;
    if level == 0 {
        let ((key, _), _) = pair_at(entries)?;
        return Some(key);
    }
    let ((key, _), _) = child_at(entries)?;
    Some(key)
}

/// Whether a key comes before another.
fn precedes(key: &[u8], other: &[u8]) -> bool
    ensures { result ≡ precedes key.now other.now }
{
    key.cmp(other) == Ordering::Less
}

/// Which of the entries from one on up to another is tried next: those around the likely one, and then the one in the middle.
fn tried_next(low: usize, high: usize, near: usize) -> usize
    requires { low < high }
    ensures from { low ≤ result }
    ensures below { result < high }
{
    if low <= near && near < high {
        return near;
    }
    if high == near {
        return high - 1;
    }
    if low > 0 && low - 1 == near {
        return low;
    }
    low + (high - low) / 2
}

/// How many entries of a page come before the first whose key is above a key, by halves once those around the likely one are tried.
fn count_upto(
    level: u16,
    bytes: &[u8; PAGE_SIZE],
    places: &PagePlaces,
    near: usize,
    key: &[u8],
) -> Option<usize>
    ensures { (keys : List (List ℕ)) → AreFoundAt (key_from level bytes.now) keys places.now.count places.now.at → IsTrue (rises keys) → result ≡ Some (count_upto key.now keys) }
{
    let mut low = 0;
    let mut high = places.count as usize;
    while low < high {
        let middle = tried_next(low, high, near);
        let here = key_from(level, bytes, *places.at.get(middle)?)?;
        if precedes(key, here) {
            high = middle;
        } else {
            low = middle + 1;
        }
    }
    Some(low)
}

/// Whether two keys are the same.
fn is_same(key: &[u8], other: &[u8]) -> bool
    ensures { result ≡ is_at (byte_cmp key.now) other.now }
{
    compare_bytes(key, other) == Ordering::Equal
}

/// The pair that begins at a place of a leaf's page.
fn pair_there(bytes: &[u8; PAGE_SIZE], place: u16) -> Option<(&[u8], &[u8])>
    ensures pair { option_map (λ p. (p.0.now, p.1.now)) result ≡ entry_from pair_at bytes.now place }
    ensures size { IfSome result (λ p. length p.1.now ≤ longest_value) }
{
    let (pair, _) = pair_at(bytes.get(place as usize..)?)?;
    Some(pair)
}

/// A pair of a leaf's page by its number.
fn pair_by_number<'a>(
    bytes: &'a [u8; PAGE_SIZE],
    places: &PagePlaces,
    number: usize,
) -> Option<(&'a [u8], &'a [u8])>
    ensures pair { (pairs : List Pair) → AreFoundAt (entry_from pair_at bytes.now) pairs places.now.count places.now.at → option_map (λ p. (p.0.now, p.1.now)) result ≡ slice_get pairs number }
    ensures size { IfSome result (λ p. length p.1.now ≤ longest_value) }
{
    if number >= places.count as usize {
        return None;
    }
    pair_there(bytes, *places.at.get(number)?)
}

/// The value of a pair of a leaf's page by its number, where that pair has this key.
pub(crate) fn value_by_number<'a>(
    bytes: &'a [u8; PAGE_SIZE],
    places: &PagePlaces,
    number: usize,
    key: &[u8],
) -> Option<&'a [u8]>
    ensures value { (pairs : List Pair) → AreFoundAt (entry_from pair_at bytes.now) pairs places.now.count places.now.at → IfSome result (λ v. slice_get pairs number ≡ Some (key.now, v.now)) }
    ensures size { IfSome result (λ v. length v.now ≤ longest_value) }
{
    let (own, value) = pair_by_number(bytes, places, number)?;
    if !is_same(key, own) {
        return None;
    }
    Some(value)
}

/// The value at a key of a leaf's page.
pub(crate) fn value_by_places<'a>(
    bytes: &'a [u8; PAGE_SIZE],
    places: &PagePlaces,
    near: &mut usize,
    key: &[u8],
) -> Option<&'a [u8]>
    ensures value { (pairs : List Pair) → AreFoundAt (entry_from pair_at bytes.now) pairs places.now.count places.now.at → IsTrue (rises (map key_of pairs)) → option_map (λ v. v.now) result ≡ value_at pairs key.now }
    ensures size { IfSome result (λ v. length v.now ≤ longest_value) }
{
    let count = count_upto(0, bytes, places, *near, key)?;
    *near = count;
    if count < 1 {
        return None;
    }
    let (here, value) = pair_by_number(bytes, places, count - 1)?;
    if !is_same(key, here) {
        return None;
    }
    Some(value)
}

/// The page of the child that begins at a place of a branch's page.
fn page_from(bytes: &[u8; PAGE_SIZE], place: u16) -> Option<u32>
    ensures { result ≡ option_map (λ child. child.page) (entry_from child_at bytes.now place) }
{
    let ((_, page), _) = child_at(bytes.get(place as usize..)?)?;
    Some(page)
}

/// The page of a child of a branch's page by its number.
fn page_by_number(bytes: &[u8; PAGE_SIZE], places: &PagePlaces, number: usize) -> Option<u32>
    ensures { (children : List Child) → AreFoundAt (entry_from child_at bytes.now) children places.now.count places.now.at → result ≡ option_map (λ child. child.page) (slice_get children number) }
{
    if number >= places.count as usize {
        return None;
    }
    page_from(bytes, *places.at.get(number)?)
}

/// The page under which a key stands, and the page after it, by a branch's page.
pub(crate) fn pages_by_places(
    bytes: &[u8; PAGE_SIZE],
    places: &PagePlaces,
    near: &mut usize,
    key: &[u8],
) -> Option<(u32, Option<u32>)>
    ensures { (children : List Child) → AreFoundAt (entry_from child_at bytes.now) children places.now.count places.now.at → IsTrue (rises (map child_key children)) → IsTrue (starts_empty (map child_key children)) → result ≡ pages_around key.now children }
{
    let count = count_upto(1, bytes, places, *near, key)?;
    *near = count;
    if count < 1 {
        return None;
    }
    let page = page_by_number(bytes, places, count - 1)?;
    Some((page, page_by_number(bytes, places, count)))
}
