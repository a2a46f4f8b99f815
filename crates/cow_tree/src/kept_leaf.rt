// The leaf that a next pair was last read from.
ghost use Rattle.std.specs.Prelude.{◌≡◌, ◌≤◌, ◌<◌, ◌*◌, ◌∷◌, ◌⊎◌, false, List, [], None, Some, Ok, IsTrue, OnOk, IfSome, IsSomeAnd, MatchOption, length, take, drop};
ghost use Rattle.sector_device.specs.Effects.{MadeAtMost};
ghost use Rattle.std.specs.Option.{is_some};
ghost use Rattle.page_store.specs.Sizes.{longest_key, longest_value};
ghost use Rattle.page_store.specs.Sectors.{page_of};
ghost use Rattle.page_store.specs.Steps.{crash_states_of};
ghost use Rattle.page_store.specs.Pages.{Pair, leaf_of};
ghost use Rattle.page_store.specs.Batch.{pair_after};
ghost use Rattle.page_store.specs.StoreState.{IsFilled};
ghost use Rattle.page_store.specs.Content.{place_in};
ghost use Rattle.tree_nodes.specs.PageViews.{bounds_of, pairs_in};
ghost use Rattle.cow_tree.specs.KeptLeaves.{begins_by, next_in, pairs_from, CopiesPair, IsBehind, IsPlaceBehind, IsReachedAfter};
ghost use Rattle.cow_tree.specs.Ways.{AnswersBy};
ghost use Rattle.cow_tree.specs.Walks.{ReadsTreePages};
ghost use Rattle.cow_tree.specs.declared.page_fault.PageFault.{PageFault as PageFaultValue};

use crate::opening_walk::count_pairs;
use crate::page_copies::copy_page;
use crate::page_fault::PageFault;
use crate::page_heads::leaf_by_head;
use common_types::compare_bytes;
use page_store::{LONGEST_KEY, LONGEST_VALUE, pair_at};
use sector_device::{Device, PAGE_SIZE};
use std::cmp::Ordering;
use std::marker::Model;
use tree_nodes::{ImageBounds, Leaf};

/// Where the entries of a page begin.
pub(crate) const ENTRIES: usize = 24;

/// A place from which on no pair stands.
const NOWHERE: Place = Place {
    at: ENTRIES,
    left: 0,
};

/// A place in the page of a leaf: where a pair begins, and how many there are from it on.
#[derive(Clone, Copy)]
pub(crate) struct Place {
    pub(crate) at: usize,
    pub(crate) left: u16,
}

/// The pairs of a leaf, in the bytes of its page; or none. The place of the pair that was given last is known, so that a walk takes one step for each.
#[derive(Drop)]
pub(crate) struct KeptLeaf {
    count: u16,
    bytes: [u8; PAGE_SIZE],
    last: Place,
}

impl Model for KeptLeaf {
    ghost use Rattle.std.specs.Prelude.{List, drop};
    ghost use Rattle.page_store.specs.Pages.{Pair};
    ghost use Rattle.tree_nodes.specs.PageViews.{pairs_in};
    ghost use Rattle.cow_tree.specs.KeptLeaves.{pairs_from, TellsAsAll};

    ghost Value = { List Pair };

    ghost view = { λ kept. pairs_in kept.count (drop 24 kept.bytes) };

    ghost invariant = { λ kept. TellsAsAll (pairs_from kept.bytes kept.last.at kept.last.left) (pairs_in kept.count (drop 24 kept.bytes)) };
}

impl KeptLeaf {
    /// No pair.
    pub(crate) fn none() -> KeptLeaf
        ensures { result ≡ [] }
    {
        KeptLeaf {
            count: 0,
            bytes: [0; PAGE_SIZE],
            last: NOWHERE,
        }
    }

    /// Keeps no pair any more.
    pub(crate) fn clear(&mut self)
        ensures { self.new ≡ [] }
    {
        self.count = 0;
        self.last = NOWHERE;
    }

    /// Reads a leaf from its page, of which the opening has tested all, or which a commit has written: only its head is tested again, and that it has a pair.
    pub(crate) fn read<D: Device>(
        &mut self,
        device: &mut D,
        bounds: ImageBounds,
        page: u32,
    ) -> Result<(), PageFault>
        requires fits { 8 * bounds.pages ≤ (D.state device.old).size }
        requires most { page < bounds.pages }
        ensures pairs { IsTrue (D.state device.old).honest → (pairs : List Pair) → leaf_of (place_in (bounds_of bounds) 0 page) [] None (page_of (D.state device.old).disk.view page) ≡ Some pairs →
            AnswersBy result (λ done. self.new ≡ pairs) }
        ensures some { OnOk result (self.new ≡ [] → ⊥) }
        ensures reads { ReadsTreePages D.state (crash_states_of D.moment D.possible_since) device.old device.new result }
        ensures work { MadeAtMost 8 0 0 (D.state device.old) (D.state device.new) }
    {
        self.last.left = 0;
        copy_page(device, page, &mut self.bytes)?;
        let leaf = leaf_by_head(bounds, page, &self.bytes)?;
        self.count = count_pairs(leaf);
        if self.count < 1 {
            return Err(PageFault::Damaged { page });
        }
        Ok(())
    }

    /// Its pairs.
    fn pairs(&self) -> Leaf<'_>
        ensures { pairs_in result.count result.entries.now ≡ self.now }
    {
        Leaf::of_entries(self.count, &self.bytes[ENTRIES..])
    }

    /// Whether a key of it is above this one.
    pub(crate) fn has_above(&self, key: &[u8]) -> bool
        ensures { result ≡ is_some (pair_after self.now key.now) }
    {
        self.pairs().after(key).is_some()
    }

    /// Puts the pair with the least key above this one into the buffers, where its first key isn't above this one.
    pub(crate) fn copy_next(
        &mut self,
        after: &[u8],
        key: &mut [u8; LONGEST_KEY],
        value: &mut [u8; LONGEST_VALUE],
    ) -> Option<(usize, usize)>
        ensures copied { CopiesPair (next_in self.old after.now) result key.old key.new value.old value.new }
        ensures kept { self.new ≡ self.old }
    {
        let from = place_by(&self.bytes, self.last, first_place(self.count), after)?;
        let (place, sizes) = copy_from(&self.bytes, from, after, key, value)?;
        self.last = place;
        Some(sizes)
    }

    /// Puts the pair with the least key above this one into the buffers.
    pub(crate) fn copy_after(
        &mut self,
        after: &[u8],
        key: &mut [u8; LONGEST_KEY],
        value: &mut [u8; LONGEST_VALUE],
    ) -> Option<(usize, usize)>
        ensures copied { CopiesPair (pair_after self.old after.now) result key.old key.new value.old value.new }
        ensures kept { self.new ≡ self.old }
    {
        let first = first_place(self.count);
        let from = place_by(&self.bytes, self.last, first, after).unwrap_or(first);
        let (place, sizes) = copy_from(&self.bytes, from, after, key, value)?;
        self.last = place;
        Some(sizes)
    }
}

/// The place of the first pair of a leaf.
fn first_place(count: u16) -> Place
    ensures at { result.at ≡ 24 }
    ensures left { result.left ≡ count }
{
    Place {
        at: ENTRIES,
        left: count,
    }
}

/// The pair at a place, and the place behind it.
pub(crate) fn pair_from(bytes: &[u8; PAGE_SIZE], place: Place) -> Option<(&[u8], &[u8], Place)>
    ensures pairs { MatchOption result (pairs_from bytes.now place.at place.left ≡ []) (λ x. pairs_from bytes.now place.at place.left ≡ (x.0.now, x.1.now) ∷ pairs_from bytes.now x.2.at x.2.left) }
    ensures fewer { IfSome result (λ x. x.2.left < place.left) }
    ensures sizes { IfSome result (λ x. (length x.0.now ≤ longest_key) × (length x.1.now ≤ longest_value)) }
{
    if place.left < 1 {
        return None;
    }
    let entries = bytes.get(place.at..)?;
    let ((key, value), rest) = pair_at(entries)?;
    let behind = Place {
        at: PAGE_SIZE - rest.len(),
        left: place.left - 1,
    };
    Some((key, value, behind))
}

/// The place behind the pair at a place, where that pair isn't above a key.
#[tactic(auto, using(crate::proofs::LeafPlaces::behind_first, crate::proofs::LeafPlaces::begins_above, crate::proofs::LeafPlaces::begins_nowhere))]
fn place_behind(bytes: &[u8; PAGE_SIZE], place: Place, key: &[u8]) -> Option<Place>
    ensures { MatchOption result (begins_by key.now (pairs_from bytes.now place.at place.left) ≡ false) (λ behind. IsBehind key.now (pairs_from bytes.now behind.at behind.left) (pairs_from bytes.now place.at place.left)) }
{
    match pair_from(bytes, place) {
        Some((first, _, behind)) if compare_bytes(key, first) != Ordering::Less => Some(behind),
        _ => None,
    }
}

/// The first pair above a key, from a place on, and its place.
fn place_after<'a>(
    bytes: &'a [u8; PAGE_SIZE],
    from: Place,
    key: &[u8],
) -> Option<(Place, &'a [u8], &'a [u8])>
    ensures reached { MatchOption result (pair_after (pairs_from bytes.now from.at from.left) key.now ≡ None)
        (λ x. IsReachedAfter key.now (x.1.now, x.2.now) (pairs_from bytes.now x.0.at x.0.left) (pairs_from bytes.now from.at from.left)) }
    ensures sizes { IfSome result (λ x. (length x.1.now ≤ longest_key) × (length x.2.now ≤ longest_value)) }
{
    let mut place = from;
    while let Some((here, value, behind)) = pair_from(bytes, place) {
        if compare_bytes(key, here) == Ordering::Less {
            return Some((place, here, value));
        }
        place = behind;
    }
    None
}

/// The place behind the one of two pairs that isn't above a key, the second only where the first is above it.
fn place_by(bytes: &[u8; PAGE_SIZE], one: Place, other: Place, key: &[u8]) -> Option<Place>
    ensures first { IsTrue (begins_by key.now (pairs_from bytes.now one.at one.left)) → IsSomeAnd result (λ place. pairs_from bytes.now place.at place.left ≡ drop 1 (pairs_from bytes.now one.at one.left)) }
    ensures place { MatchOption result (begins_by key.now (pairs_from bytes.now other.at other.left) ≡ false) (λ place. IsPlaceBehind bytes.now key.now place one ⊎ IsPlaceBehind bytes.now key.now place other) }
{
    if let Some(place) = place_behind(bytes, one, key) {
        return Some(place);
    }
    place_behind(bytes, other, key)
}

/// Puts the first pair above a key, from a place on, into the buffers, and gives its place.
fn copy_from(
    bytes: &[u8; PAGE_SIZE],
    from: Place,
    after: &[u8],
    key: &mut [u8; LONGEST_KEY],
    value: &mut [u8; LONGEST_VALUE],
) -> Option<(Place, (usize, usize))>
    ensures within { IfSome result (λ x. (x.1.0 ≤ longest_key) × (x.1.1 ≤ longest_value)) }
    ensures reached { MatchOption result (pair_after (pairs_from bytes.now from.at from.left) after.now ≡ None)
        (λ x. IsReachedAfter after.now (take x.1.0 key.new, take x.1.1 value.new) (pairs_from bytes.now x.0.at x.0.left) (pairs_from bytes.now from.at from.left)) }
    ensures key { IsFilled {E = PageFaultValue} (λ x. x.1.0) (Ok result) key.old key.new }
    ensures value { IsFilled {E = PageFaultValue} (λ x. x.1.1) (Ok result) value.old value.new }
{
    let (place, found, stored) = place_after(bytes, from, after)?;
    key[..found.len()].copy_from_slice(found);
    value[..stored.len()].copy_from_slice(stored);
    Some((place, (found.len(), stored.len())))
}
