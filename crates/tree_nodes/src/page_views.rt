// Entries of a page, lent from its bytes.
ghost use Rattle.std.specs.Prelude.{◌≡◌, ◌∷◌, ◌<◌, true, false, [], Some, None, IfOk, IfErr, IfSome, MatchOption, option_map, option_copied, length, map, drop};
ghost use Rattle.page_store.specs.Keys.{rises, is_between};
ghost use Rattle.page_store.specs.Pages.{pair_at, child_at, entries_at, key_of, child_key, fits_place, starts_empty, leaf_of, branch_of, is_inside};
ghost use Rattle.page_store.specs.Batch.{value_at, pair_after};
ghost use Rattle.page_store.specs.Content.{place_in};
ghost use Rattle.page_store.specs.Heads.{seen_head, seen_child};
ghost use Rattle.std.specs.List.{list_all};
ghost use Rattle.tree_nodes.specs.NodeView.{others_view};
ghost use Rattle.tree_nodes.specs.Supply.{others_named};
ghost use Rattle.tree_nodes.specs.PageViews.{bounds_of, pairs_in, children_in, entries_by_head, least_entry, is_head_of, has_head, after_entries, are_children, page_on_path};
ghost use Rattle.tree_nodes.specs.declared.fault.NodeFault.TheVariants.{Damaged};

use crate::leaf_form::after_between;
use crate::packed_leaf::entries_in;
use crate::splitting::ENTRY_ROOM;
use crate::{Node, NodeFault};
use common_types::{Bytes, compare_bytes};
use page_store::{PageHead, Pair, are_zero, child_at, head_at, pair_at};
use sector_device::PAGE_SIZE;
use std::alloc::{AllocError, Global};
use std::cmp::Ordering;

/// The first word of a tree page.
pub(crate) const PAGE_WORD: [u8; 8] = *b"GOPHPAGE";

/// What the pages of an image are tested against.
#[derive(Clone, Copy, Debug, PartialEq, Eq)]
pub struct ImageBounds {
    /// How many pages the image has.
    pub pages: u32,
    /// The generation that is current.
    pub seal: u64,
}

/// The pairs of a leaf, in rising order, lent from the bytes of its page.
#[derive(Clone, Copy)]
pub struct Leaf<'a> {
    count: u16,
    entries: &'a [u8],
}

/// The children of a branch, in rising order, lent from the bytes of its page.
#[derive(Clone, Copy)]
pub struct Branch<'a> {
    count: u16,
    entries: &'a [u8],
}

/// Whether a head is that of a page of this number and level, of a generation up to the current one, and of at least one entry.
pub(crate) fn fits_place(bounds: ImageBounds, level: u16, page: u32, head: PageHead) -> bool
    ensures { result ≡ fits_place (place_in (bounds_of bounds) level page) (seen_head head) }
{
    head.number == page
        && head.level == level
        && head.generation >= 1
        && head.generation <= bounds.seal
        && head.count >= 1
}

/// How many bytes an entry of a level takes at least: a pair has two lengths and a key of one byte, a child a length and a number.
fn least_entry(level: u16) -> usize
    ensures { result ≡ least_entry level }
{
    match level {
        0 => 5,
        _ => 6,
    }
}

/// Whether a head is that of a page of this number and level, and counts no more entries than a page has room for.
fn is_head_of(bounds: ImageBounds, level: u16, page: u32, head: PageHead) -> bool
    ensures { result ≡ is_head_of (place_in (bounds_of bounds) level page) (seen_head head) }
{
    let least = head.count as usize * least_entry(level);
    fits_place(bounds, level, page, head) && least <= ENTRY_ROOM
}

/// Whether a key is none below the first, and below the second, where there is one.
fn is_between(low: &[u8], high: Option<&[u8]>, key: &[u8]) -> bool
    ensures { result ≡ is_between low.now (option_copied high.entry) key.now }
{
    if compare_bytes(key, low) == Ordering::Less {
        return false;
    }
    match high {
        Some(high) => compare_bytes(key, high) == Ordering::Less,
        None => true,
    }
}

/// The bytes after so many pairs, where they have the form.
pub(crate) fn after_pairs(count: u16, bytes: &[u8]) -> Option<&[u8]>
    ensures { option_map (λ r. r.now) result ≡ after_entries (entries_at pair_at count bytes.now) }
{
    let mut rest = bytes;
    for _ in 0..count {
        let (_, after) = pair_at(rest)?;
        rest = after;
    }
    Some(rest)
}

/// The bytes after so many children, where they have the form.
fn after_children(count: u16, bytes: &[u8]) -> Option<&[u8]>
    ensures { option_map (λ r. r.now) result ≡ after_entries (entries_at child_at count bytes.now) }
{
    let mut rest = bytes;
    for _ in 0..count {
        let (_, after) = child_at(rest)?;
        rest = after;
    }
    Some(rest)
}

impl<'a> Leaf<'a> {
    /// So many pairs that stand one after another in bytes, or as many as have the form: no more is tested. It takes no memory.
    pub fn of_entries(count: u16, entries: &'a [u8]) -> Leaf<'a>
        ensures { pairs_in result.count result.entries.now ≡ pairs_in count entries.now }
    {
        Leaf { count, entries }
    }

    /// The pairs of a page, as many as its head counts; `Damaged` exactly where the bytes don't begin with the head of that leaf. Behind the head nothing is tested but the sizes of
    /// pairs, as they are read. It takes no memory.
    pub fn by_head(
        bounds: ImageBounds,
        page: u32,
        bytes: &'a [u8; PAGE_SIZE],
    ) -> Result<Leaf<'a>, NodeFault>
        ensures pairs { IfOk result (λ leaf. pairs_in leaf.count leaf.entries.now ≡ entries_by_head pair_at bytes.now) }
        ensures head { IfOk result (λ leaf. has_head (place_in (bounds_of bounds) 0 page) bytes.now ≡ true) }
        ensures fault { IfErr result (λ e. (e ≡ Damaged page) × (has_head (place_in (bounds_of bounds) 0 page) bytes.now ≡ false)) }
    {
        match head_at(&PAGE_WORD, bytes) {
            Some((head, entries)) if is_head_of(bounds, 0, page, head) => Ok(Leaf {
                count: head.count,
                entries,
            }),
            _ => Err(NodeFault::Damaged { page }),
        }
    }

    /// Its first pair, and the others; none where it has none. It takes no memory.
    pub fn first(&self) -> Option<(&'a [u8], &'a [u8], Leaf<'a>)>
        ensures pairs { MatchOption result (pairs_in self.now.count self.now.entries.now ≡ []) (λ x. pairs_in self.now.count self.now.entries.now ≡ (x.0.now, x.1.now) ∷ pairs_in x.2.count x.2.entries.now) }
        ensures fewer { MatchOption result (self.now.count ≡ self.now.count) (λ x. x.2.count < self.now.count) }
    {
        if self.count < 1 {
            return None;
        }
        let ((key, value), entries) = pair_at(self.entries)?;
        let others = Leaf {
            count: self.count - 1,
            entries,
        };
        Some((key, value, others))
    }

    /// The value at a key. It takes no memory.
    pub fn get(&self, key: &[u8]) -> Option<&'a [u8]>
        ensures { option_map (λ v. v.now) result ≡ value_at (pairs_in self.now.count self.now.entries.now) key.now }
    {
        let mut left = *self;
        while let Some((here, value, others)) = left.first() {
            if compare_bytes(key, here) == Ordering::Equal {
                return Some(value);
            }
            left = others;
        }
        None
    }

    /// The pair with the least key above this one. It takes no memory.
    pub fn after(&self, key: &[u8]) -> Option<(&'a [u8], &'a [u8])>
        ensures { option_map (λ p. (p.0.now, p.1.now)) result ≡ pair_after (pairs_in self.now.count self.now.entries.now) key.now }
    {
        let mut left = *self;
        while let Some((here, value, others)) = left.first() {
            if compare_bytes(key, here) == Ordering::Less {
                return Some((here, value));
            }
            left = others;
        }
        None
    }
}

impl<'a> Leaf<'a> {
    /// The pairs of a leaf, by the bytes of its page; `Damaged` exactly where they have not the form of that page. It takes no memory.
    pub fn new(
        bounds: ImageBounds,
        page: u32,
        bytes: &'a [u8; PAGE_SIZE],
    ) -> Result<Leaf<'a>, NodeFault>
        ensures pairs { IfOk result (λ leaf. leaf_of (place_in (bounds_of bounds) 0 page) [] None bytes.now ≡ Some (pairs_in leaf.count leaf.entries.now)) }
        ensures fault { IfErr result (λ e. (e ≡ Damaged page) × (leaf_of (place_in (bounds_of bounds) 0 page) [] None bytes.now ≡ None)) }
    {
        match entries_in(bounds, page, bytes) {
            Some((count, entries)) => Ok(Leaf::of_entries(count, entries)),
            None => Err(NodeFault::Damaged { page }),
        }
    }

    /// Whether its keys rise.
    pub(crate) fn keys_rise(&self) -> bool
        ensures { result ≡ rises (map key_of (pairs_in self.now.count self.now.entries.now)) }
    {
        let Some((first, _, others)) = self.first() else {
            return true;
        };
        let mut before = first;
        let mut left = others;
        while let Some((key, _, others)) = left.first() {
            if compare_bytes(before, key) != Ordering::Less {
                return false;
            }
            before = key;
            left = others;
        }
        true
    }
}

impl<'a> Leaf<'a> {
    /// The pairs of a leaf whose keys lie between two keys, by the bytes of its page; `Damaged` exactly where they have not the form of that page, or a key lies elsewhere. It
    /// takes no memory.
    pub fn between(
        bounds: ImageBounds,
        page: u32,
        low: &[u8],
        high: Option<&[u8]>,
        bytes: &'a [u8; PAGE_SIZE],
    ) -> Result<Leaf<'a>, NodeFault>
        ensures pairs { IfOk result (λ leaf. leaf_of (place_in (bounds_of bounds) 0 page) low.now (option_copied high.entry) bytes.now ≡ Some (pairs_in leaf.count leaf.entries.now)) }
        ensures count { IfOk result (λ leaf. leaf.count ≡ length (pairs_in leaf.count leaf.entries.now)) }
        ensures fault { IfErr result (λ e. (e ≡ Damaged page) × (leaf_of (place_in (bounds_of bounds) 0 page) low.now (option_copied high.entry) bytes.now ≡ None)) }
    {
        match leaf_between(bounds, page, low, high, bytes) {
            Some(leaf) => Ok(leaf),
            None => Err(NodeFault::Damaged { page }),
        }
    }

    /// How many pairs it has, where as many as it counts have the form.
    pub fn count(&self) -> u16
        ensures { result ≡ self.now.count }
    {
        let Leaf { count, .. } = *self;
        count
    }
}

impl<'a> Leaf<'a> {
    /// Copies of its pairs.
    pub(crate) fn to_pairs(&self, alloc: Global) -> Result<Vec<Pair>, AllocError>
        ensures { IfOk result (λ pairs. pairs.items ≡ pairs_in self.now.count self.now.entries.now) }
    {
        let mut pairs = Vec::new(alloc);
        let mut left = *self;
        while let Some((key, value, others)) = left.first() {
            pairs.push(Pair::from_slices(alloc, key, value)?)?;
            left = others;
        }
        Ok(pairs)
    }
}

impl<'a> Branch<'a> {
    /// The children of a branch of a level, by the bytes of its page; `Damaged` exactly where they have not the form of that page. It takes no memory.
    pub fn new(
        bounds: ImageBounds,
        level: u16,
        page: u32,
        bytes: &'a [u8; PAGE_SIZE],
    ) -> Result<Branch<'a>, NodeFault>
        ensures children { IfOk result (λ branch. branch_of (place_in (bounds_of bounds) level page) [] None bytes.now ≡ Some (children_in branch.count branch.entries.now)) }
        ensures fault { IfErr result (λ e. (e ≡ Damaged page) × (branch_of (place_in (bounds_of bounds) level page) [] None bytes.now ≡ None)) }
    {
        match branch_in(bounds, level, page, bytes) {
            Some(branch) => Ok(branch),
            None => Err(NodeFault::Damaged { page }),
        }
    }

    /// The children of a page, as many as its head counts; `Damaged` exactly where the bytes don't begin with the head of that page. Behind the head nothing is tested but the sizes of
    /// keys, as they are read. It takes no memory.
    pub fn by_head(
        bounds: ImageBounds,
        level: u16,
        page: u32,
        bytes: &'a [u8; PAGE_SIZE],
    ) -> Result<Branch<'a>, NodeFault>
        ensures children { IfOk result (λ branch. children_in branch.count branch.entries.now ≡ entries_by_head child_at bytes.now) }
        ensures head { IfOk result (λ branch. has_head (place_in (bounds_of bounds) level page) bytes.now ≡ true) }
        ensures fault { IfErr result (λ e. (e ≡ Damaged page) × (has_head (place_in (bounds_of bounds) level page) bytes.now ≡ false)) }
    {
        match head_at(&PAGE_WORD, bytes) {
            Some((head, entries)) if is_head_of(bounds, level, page, head) => Ok(Branch {
                count: head.count,
                entries,
            }),
            _ => Err(NodeFault::Damaged { page }),
        }
    }

    /// Its first child, by key and page, and the others; none where it has none. It takes no memory.
    pub fn first(&self) -> Option<(&'a [u8], u32, Branch<'a>)>
        ensures children { MatchOption result (children_in self.now.count self.now.entries.now ≡ []) (λ x. children_in self.now.count self.now.entries.now ≡ seen_child x.0.now x.1 ∷ children_in x.2.count x.2.entries.now) }
        ensures fewer { MatchOption result (self.now.count ≡ self.now.count) (λ x. x.2.count < self.now.count) }
    {
        if self.count == 0 {
            return None;
        }
        let ((key, page), entries) = child_at(self.entries)?;
        let others = Branch {
            count: self.count - 1,
            entries,
        };
        Some((key, page, others))
    }

    /// The page under which a key stands: that of the last child whose key isn't above it. It takes no memory.
    pub fn page_of(&self, key: &[u8]) -> Option<u32>
        ensures { result ≡ page_on_path key.now (children_in self.now.count self.now.entries.now) }
    {
        let (_, first, others) = self.first()?;
        let mut page = first;
        let mut left = others;
        while let Some((next, after, others)) = left.first() {
            if compare_bytes(key, next) == Ordering::Less {
                return Some(page);
            }
            page = after;
            left = others;
        }
        Some(page)
    }

    /// Whether its keys rise.
    fn keys_rise(&self) -> bool
        ensures { result ≡ rises (map child_key (children_in self.now.count self.now.entries.now)) }
    {
        let Some((first, _, others)) = self.first() else {
            return true;
        };
        let mut before = first;
        let mut left = others;
        while let Some((key, _, others)) = left.first() {
            if compare_bytes(before, key) != Ordering::Less {
                return false;
            }
            before = key;
            left = others;
        }
        true
    }

    /// Whether its children are pages of an image of so many.
    fn are_inside(&self, pages: u32) -> bool
        ensures { result ≡ list_all (is_inside pages) (children_in self.now.count self.now.entries.now) }
    {
        let mut left = *self;
        while let Some((_, page, others)) = left.first() {
            if page < 2 || page >= pages {
                return false;
            }
            left = others;
        }
        true
    }

    /// Whether its first key is empty, its keys rise, and its children are pages of an image of so many.
    fn are_children(&self, pages: u32) -> bool
        ensures { result ≡ are_children pages (children_in self.now.count self.now.entries.now) }
    {
        self.starts_empty() && self.keys_rise() && self.are_inside(pages)
    }

    /// Whether its first key is empty.
    fn starts_empty(&self) -> bool
        ensures { result ≡ starts_empty (map child_key (children_in self.now.count self.now.entries.now)) }
    {
        match self.first() {
            Some((key, _, _)) => key.is_empty(),
            None => false,
        }
    }
}

impl<'a> Branch<'a> {
    /// The children of a branch of a level whose keys but the first lie between two keys, by the bytes of its page; `Damaged` exactly where they have not the form of that page,
    /// or a key lies elsewhere. It takes no memory.
    pub fn between(
        bounds: ImageBounds,
        level: u16,
        page: u32,
        low: &[u8],
        high: Option<&[u8]>,
        bytes: &'a [u8; PAGE_SIZE],
    ) -> Result<Branch<'a>, NodeFault>
        ensures children { IfOk result (λ branch. branch_of (place_in (bounds_of bounds) level page) low.now (option_copied high.entry) bytes.now ≡ Some (children_in branch.count branch.entries.now)) }
        ensures fault { IfErr result (λ e. (e ≡ Damaged page) × (branch_of (place_in (bounds_of bounds) level page) low.now (option_copied high.entry) bytes.now ≡ None)) }
    {
        let branch = Branch::new(bounds, level, page, bytes)?;
        if !branch.lies_between(low, high) {
            return Err(NodeFault::Damaged { page });
        }
        Ok(branch)
    }

    /// Whether all its keys but the first lie between two.
    fn lies_between(&self, low: &[u8], high: Option<&[u8]>) -> bool
        ensures { result ≡ list_all (is_between low.now (option_copied high.entry)) (drop 1 (map child_key (children_in self.now.count self.now.entries.now))) }
    {
        let Some((_, _, others)) = self.first() else {
            return true;
        };
        let mut left = others;
        while let Some((key, _, others)) = left.first() {
            if !is_between(low, high, key) {
                return false;
            }
            left = others;
        }
        true
    }
}

impl<'a> Branch<'a> {
    /// Its children as pages of a tree, each with a copy of its key.
    pub(crate) fn to_others(&self, alloc: Global) -> Result<Vec<(Bytes, Node)>, AllocError>
        ensures { IfOk result (λ others. others_view others.items ≡ others_named (children_in self.now.count self.now.entries.now)) }
    {
        let mut children = Vec::new(alloc);
        let mut left = *self;
        while let Some((key, page, others)) = left.first() {
            children.push((Bytes::from_slice(alloc, key)?, Node::Page(page)))?;
            left = others;
        }
        Ok(children)
    }
}

/// The leaf between two keys that the bytes of a page have the form of.
fn leaf_between<'a>(
    bounds: ImageBounds,
    page: u32,
    low: &[u8],
    high: Option<&[u8]>,
    bytes: &'a [u8; PAGE_SIZE],
) -> Option<Leaf<'a>>
    ensures pairs { MatchOption result (leaf_of (place_in (bounds_of bounds) 0 page) low.now (option_copied high.entry) bytes.now ≡ None) (λ leaf. leaf_of (place_in (bounds_of bounds) 0 page) low.now (option_copied high.entry) bytes.now ≡ Some (pairs_in leaf.count leaf.entries.now)) }
    ensures count { IfSome result (λ leaf. leaf.count ≡ length (pairs_in leaf.count leaf.entries.now)) }
{
    let (head, entries) = head_at(&PAGE_WORD, bytes)?;
    let rest = after_between(head.count, low, high, entries)?;
    if !fits_place(bounds, 0, page, head) {
        return None;
    }
    if !are_zero(rest) {
        return None;
    }
    Some(Leaf {
        count: head.count,
        entries,
    })
}

/// The branch that the bytes of a page have the form of.
fn branch_in<'a>(
    bounds: ImageBounds,
    level: u16,
    page: u32,
    bytes: &'a [u8; PAGE_SIZE],
) -> Option<Branch<'a>>
    ensures { MatchOption result (branch_of (place_in (bounds_of bounds) level page) [] None bytes.now ≡ None) (λ branch. branch_of (place_in (bounds_of bounds) level page) [] None bytes.now ≡ Some (children_in branch.count branch.entries.now)) }
{
    let (head, entries) = head_at(&PAGE_WORD, bytes)?;
    let rest = after_children(head.count, entries)?;
    let branch = Branch {
        count: head.count,
        entries,
    };
    if !fits_place(bounds, level, page, head) {
        return None;
    }
    if !are_zero(rest) {
        return None;
    }
    if !branch.are_children(bounds.pages) {
        return None;
    }
    Some(branch)
}
