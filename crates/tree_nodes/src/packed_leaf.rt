// A leaf whose pairs stay as the bytes of its entries.
ghost use Rattle.std.specs.Prelude.{◌≡◌, ◌↔◌, ◌≤◌, ◌<◌, ◌+◌, ◌-◌, ◌^◌, ◌++◌, ◌==◌, ◌&&◌, [], Some, None, IsTrue, IsSome, IfOk, IfSome, OnOk, MatchOption, MatchResult, nat_lt, length, take, drop, is_some};
ghost use Rattle.std.specs.Int.{w16, from_be_bytes};
ghost use Rattle.std.specs.Map.{remove_entry};
ghost use Rattle.std.specs.BTreeMap.{insert_entry, is_at};
ghost use lib.Seq.{paste};
ghost use Rattle.sector_device.specs.Sizes.{page_size};
ghost use Rattle.common_types.specs.ByteOrder.{byte_cmp};
ghost use Rattle.page_store.specs.Batch.{is_pair, value_at};
ghost use Rattle.page_store.specs.Content.{place_in};
ghost use Rattle.page_store.specs.Pages.{pair_at, entries_at, leaf_of};
ghost use Rattle.page_store.specs.Flat.{entry_size};
ghost use Rattle.page_store.specs.Encoding.{entry_bytes};
ghost use Rattle.tree_nodes.specs.Tree.{leaf, entry_room, leaf_bytes};
ghost use Rattle.tree_nodes.specs.PageBytes.{leaf_page, IsWritable};
ghost use Rattle.tree_nodes.specs.PageViews.{bounds_of, pairs_in, after_entries};
ghost use Rattle.tree_nodes.specs.PackedEntries.{IsPacked, bytes_below, bytes_there, bytes_before, bytes_of_first};
ghost use Rattle.tree_nodes.specs.Supply.{tree_in};
ghost use Rattle.tree_nodes.specs.Needs.{IsNodeReadFault};

use crate::page_views::{PAGE_WORD, after_pairs, fits_place};
use crate::splitting::ENTRY_ROOM;
use crate::{ImageBounds, Leaf, NodeFault};
use common_types::compare_bytes;
use page_store::{LONGEST_KEY, LONGEST_VALUE, Pair, are_zero, head_at};
use sector_device::PAGE_SIZE;
use std::alloc::{AllocError, Global};
use std::cmp::Ordering;
use std::marker::Model;

/// How many bytes an entry has before its key: the lengths of key and value.
const LENGTHS: usize = 4;

/// The pairs of a leaf, as the bytes of its entries.
#[derive(Drop)]
pub struct PackedLeaf {
    count: u16,
    bytes: Vec<u8>,
}

impl Model for PackedLeaf {
    ghost use Rattle.std.specs.Prelude.{List, ℕ};

    ghost Value = { List (List ℕ × List ℕ) };

    ghost use Rattle.tree_nodes.specs.PageViews.{pairs_in};
    ghost use Rattle.tree_nodes.specs.PackedEntries.{IsPacked};

    ghost view = { λ leaf. pairs_in leaf.count leaf.bytes.items };

    ghost invariant = { λ leaf. IsPacked leaf.count leaf.bytes.items };
}

/// The bytes of so many pairs, and those after them, where they have the form.
fn split_pairs(count: u16, bytes: &[u8]) -> Option<(&[u8], &[u8])>
    ensures parts { MatchOption result (None ≡ after_entries (entries_at pair_at count bytes.now)) (λ x. Some x.1.now ≡ after_entries (entries_at pair_at count bytes.now)) }
    ensures pairs { IfSome result (λ x. pairs_in count x.0.now ≡ pairs_in count bytes.now) }
    ensures packed { IfSome result (λ x. IsPacked count x.0.now) }
{
    let rest = after_pairs(count, bytes)?;
    let (packed, _) = bytes.split_at(bytes.len() - rest.len());
    Some((packed, rest))
}

/// How many pairs a leaf has and the bytes of their entries, by the bytes of its page, where these have the form.
pub(crate) fn entries_in<'a>(
    bounds: ImageBounds,
    page: u32,
    bytes: &'a [u8; PAGE_SIZE],
) -> Option<(u16, &'a [u8])>
    ensures { MatchOption result (leaf_of (place_in (bounds_of bounds) 0 page) [] None bytes.now ≡ None) (λ x. (leaf_of (place_in (bounds_of bounds) 0 page) [] None bytes.now ≡ Some (pairs_in x.0 x.1.now)) × IsPacked x.0 x.1.now) }
{
    let (head, entries) = head_at(&PAGE_WORD, bytes)?;
    let (packed, rest) = split_pairs(head.count, entries)?;
    if !fits_place(bounds, 0, page, head) {
        return None;
    }
    if !are_zero(rest) {
        return None;
    }
    if !Leaf::of_entries(head.count, packed).keys_rise() {
        return None;
    }
    Some((head.count, packed))
}

/// The number that two bytes say.
fn length_at(bytes: &[u8], at: usize) -> u16
    requires { at + 2 ≤ length bytes.now }
    ensures { result ≡ from_be_bytes w16 (take 2 (drop at bytes.now)) }
{
    let (_, rest) = bytes.split_at(at);
    let (front, _) = rest.split_at(2);
    u16::from_be_bytes([front[0], front[1]])
}

/// The key of the first of some entries, and how many bytes that entry has.
fn first_key(entries: &[u8]) -> (&[u8], usize)
    requires { IsSome (pair_at entries.now) }
    ensures key { IfSome (pair_at entries.now) (λ x. result.0.now ≡ x.0.0) }
    ensures size { IfSome (pair_at entries.now) (λ x. result.1 ≡ entry_size x.0) }
{
    let length = usize::from(length_at(entries, 0));
    let size = LENGTHS + length + usize::from(length_at(entries, 2));
    let (_, rest) = entries.split_at(LENGTHS);
    let (key, _) = rest.split_at(length);
    (key, size)
}

/// How many bytes stand before the place of a key among so many entries, and how many the entry of the key has there.
fn place_for(count: u16, entries: &[u8], key: &[u8]) -> (usize, usize)
    requires { length (pairs_in count entries.now) ≡ count }
    ensures before { result.0 ≡ bytes_below key.now (pairs_in count entries.now) }
    ensures there { result.1 ≡ bytes_there key.now (pairs_in count entries.now) }
{
    let mut left = entries;
    for _ in 0..count {
        let (here, size) = first_key(left);
        match compare_bytes(key, here) {
            Ordering::Less => return (entries.len() - left.len(), 0),
            Ordering::Equal => return (entries.len() - left.len(), size),
            Ordering::Greater => {}
        }
        let (_, others) = left.split_at(size);
        left = others;
    }
    (entries.len() - left.len(), 0)
}

/// How many bytes stand before the entry of a key among so many, and how many that entry has, 0 where there is none.
fn place_of(count: u16, entries: &[u8], key: &[u8]) -> (usize, usize)
    requires { length (pairs_in count entries.now) ≡ count }
    ensures before { result.0 ≡ bytes_before (is_at (byte_cmp key.now)) (pairs_in count entries.now) }
    ensures there { result.1 ≡ bytes_of_first (is_at (byte_cmp key.now)) (pairs_in count entries.now) }
{
    let mut left = entries;
    for _ in 0..count {
        let (here, size) = first_key(left);
        if compare_bytes(key, here) == Ordering::Equal {
            return (entries.len() - left.len(), size);
        }
        let (_, others) = left.split_at(size);
        left = others;
    }
    (entries.len() - left.len(), 0)
}

/// Adds the entry of a pair to the bytes.
#[tactic(auto, unfolding(page_store::specs::Batch::is_value))]
fn put_entry(out: &mut Vec<u8>, key: &[u8], value: &[u8]) -> Result<(), AllocError>
    requires { IsTrue (is_pair (key.now, value.now)) }
    ensures { OnOk result (out.new.items ≡ out.old.items ++ entry_bytes (key.now, value.now)) }
{
    out.extend_from_slice(&(key.len() as u16).to_be_bytes())?;
    out.extend_from_slice(&(value.len() as u16).to_be_bytes())?;
    out.extend_from_slice(key)?;
    out.extend_from_slice(value)
}

/// Writes a piece at a place of a page, and answers where it ends.
fn write_at(page: &mut [u8; PAGE_SIZE], at: usize, piece: &[u8]) -> usize
    requires { at + length piece.now ≤ page_size }
    ensures page { page.new ≡ paste page.old at piece.now (length piece.now) }
    ensures end { result ≡ at + length piece.now }
{
    let end = at + piece.len();
    page[at..end].copy_from_slice(piece);
    end
}

impl PackedLeaf {
    /// The leaf that the bytes of a page have the form of; `Damaged` exactly where they have not the form of that page.
    pub(crate) fn of_page(
        alloc: Global,
        bounds: ImageBounds,
        page: u32,
        bytes: &[u8; PAGE_SIZE],
    ) -> Result<PackedLeaf, NodeFault>
        ensures { MatchResult result (λ packed. tree_in (bounds_of bounds) 0 page bytes.now ≡ Some (leaf packed)) (IsNodeReadFault page (tree_in (bounds_of bounds) 0 page bytes.now)) }
    {
        let Some((count, entries)) = entries_in(bounds, page, bytes) else {
            return Err(NodeFault::Damaged { page });
        };
        let bytes = Vec::from_slice(alloc, entries)?;
        Ok(PackedLeaf { count, bytes })
    }

    /// Its pairs, lent. It takes no memory.
    pub fn pairs(&self) -> Leaf<'_>
        ensures { pairs_in result.count result.entries.now ≡ self.now }
    {
        Leaf::of_entries(self.count, &self.bytes)
    }

    /// Copies of its pairs.
    pub(crate) fn to_pairs(&self, alloc: Global) -> Result<Vec<Pair>, AllocError>
        ensures { IfOk result (λ pairs. pairs.items ≡ self.now) }
    {
        self.pairs().to_pairs(alloc)
    }

    /// How many pairs it has. It takes no memory.
    pub fn len(&self) -> usize
        ensures { result ≡ length self.now }
    {
        usize::from(self.count)
    }

    /// Whether it has no pair. It takes no memory.
    pub fn is_empty(&self) -> bool
        ensures { result ≡ (length self.now == 0) }
    {
        self.count == 0
    }

    /// Whether a pair stands at a key. It takes no memory.
    pub(crate) fn has(&self, key: &[u8]) -> bool
        ensures { result ≡ is_some (value_at self.now key.now) }
    {
        let (_, size) = place_of(self.count, &self.bytes, key);
        size != 0
    }

    /// Whether it fits a page. It takes no memory.
    pub(crate) fn fits(&self) -> bool
        ensures { IsTrue result ↔ IsWritable (leaf self.now) }
    {
        self.bytes.len() <= ENTRY_ROOM
    }

    /// Whether a pair of a key and a value can be put into it: `put` asks for that. It takes no memory.
    #[tactic(auto, unfolding(page_store::specs::Batch::is_value))]
    pub(crate) fn takes(&self, key: &[u8], value: &[u8]) -> bool
        ensures { result ≡ (is_pair (key.now, value.now) && nat_lt (length self.now) (2 ^ 16 - 1)) }
    {
        key.len() >= 1
            && key.len() <= LONGEST_KEY
            && value.len() <= LONGEST_VALUE
            && self.count < u16::MAX
    }

    /// The same leaf with a value at a key, in place of what was there.
    pub(crate) fn put(
        &self,
        alloc: Global,
        key: &[u8],
        value: &[u8],
    ) -> Result<PackedLeaf, AllocError>
        requires pair { IsTrue (is_pair (key.now, value.now)) }
        requires room { length self.now < 2 ^ 16 - 1 }
        ensures { IfOk result (λ packed. packed ≡ insert_entry byte_cmp self.now key.now value.now) }
    {
        let old = self.bytes.as_slice();
        let (at, size) = place_for(self.count, old, key);
        let (front, rest) = old.split_at(at);
        let (_, back) = rest.split_at(size);
        let room = front.len() + LENGTHS + key.len() + value.len() + back.len();
        let mut bytes = Vec::with_capacity(alloc, room)?;
        bytes.extend_from_slice(front)?;
        put_entry(&mut bytes, key, value)?;
        bytes.extend_from_slice(back)?;
        let count = if size == 0 {
            self.count + 1
        } else {
            self.count
        };
        Ok(PackedLeaf { count, bytes })
    }

    /// Takes what stands at a key away. It takes no memory.
    pub(crate) fn remove(&mut self, key: &[u8])
        ensures { self.new ≡ remove_entry (is_at (byte_cmp key.now)) self.old }
    {
        let (at, size) = place_of(self.count, &self.bytes, key);
        if size == 0 {
            return;
        }
        let left = self.bytes.len() - size;
        self.bytes.copy_within(at + size.., at);
        self.bytes.truncate(left);
        self.count -= 1;
    }

    /// Its bytes as a page of a number and a generation. It takes no memory.
    pub(crate) fn to_page(&self, page: u32, generation: u64) -> [u8; PAGE_SIZE]
        requires { leaf_bytes self.now ≤ entry_room }
        ensures { result ≡ leaf_page page generation self.now }
    {
        let mut made = [0; PAGE_SIZE];
        let at = write_at(&mut made, 0, &PAGE_WORD);
        let at = write_at(&mut made, at, &page.to_be_bytes());
        let at = write_at(&mut made, at, &generation.to_be_bytes());
        let at = write_at(&mut made, at, &0u16.to_be_bytes());
        let at = write_at(&mut made, at, &self.count.to_be_bytes());
        let _ = write_at(&mut made, at, &self.bytes);
        made
    }
}
