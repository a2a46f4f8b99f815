// Where the entries of pages begin: kept of pages that were looked into lately, so that these are searched by halves. Where memory lacks for it, they are searched from the front. And in which leaf a value was found last, so that the next one is found there.
ghost use Rattle.std.specs.Prelude.{◌≡◌, ◌<◌, ℕ, List, IfSome};
ghost use Rattle.cow_tree.specs.KeptPlaces.{ArePlaces, HasSoManyEntries, IsKeptOf, IsKeptTruly, IsLeafAt};

use crate::page_places::{MOST_PLACES, places_in};
use crate::tree_root::TreeRoot;
use sector_device::PAGE_SIZE;
use std::alloc::Global;

/// Of how many pages the places are kept, at most.
const KEPT_PAGES: usize = 64;

/// For how many levels it is kept how far the search came.
const LEVELS: usize = 16;

/// Where the entries of a page of a level begin; of none where the count is 0.
#[derive(Clone, Copy)]
pub(crate) struct PagePlaces {
    pub(crate) page: u32,
    pub(crate) level: u16,
    pub(crate) count: u16,
    pub(crate) at: [u16; MOST_PLACES],
}

/// The places of no page.
const NO_PLACES: PagePlaces = PagePlaces {
    page: 0,
    level: 0,
    count: 0,
    at: [0; MOST_PLACES],
};

/// Where the entries of some pages begin. Which of its places a page has here its number tells. They lie on the heap, once there is something to keep.
/// Beside them stands how far the last search came on each level, and which leaf was looked into last, with the tree that it is of where that is known, since keys are mostly looked up in their order.
#[derive(Drop)]
pub(crate) struct KeptPlaces {
    pages: Vec<PagePlaces>,
    near: [usize; LEVELS],
    leaf: u32,
    tree: Option<TreeRoot>,
}

impl KeptPlaces {
    /// Of no page.
    pub(crate) fn none(alloc: Global) -> KeptPlaces
        ensures { (view : ℕ → List ℕ) → IsKeptTruly view result }
    {
        KeptPlaces {
            pages: Vec::new(alloc),
            near: [0; LEVELS],
            leaf: 0,
            tree: None,
        }
    }

    /// How many entries of a page of a level came before the key that was looked for last.
    pub(crate) fn near(&self, level: u16) -> usize {
        self.near[level as usize % LEVELS]
    }

    /// Keeps how many they are.
    pub(crate) fn set_near(&mut self, level: u16, count: usize)
        ensures pages { self.new.pages ≡ self.old.pages }
        ensures leaf { (self.new.leaf ≡ self.old.leaf) × (self.new.tree ≡ self.old.tree) }
    {
        self.near[level as usize % LEVELS] = count;
    }

    /// Keeps nothing any more.
    pub(crate) fn clear(&mut self)
        ensures { (view : ℕ → List ℕ) → IsKeptTruly view self.new }
    {
        self.tree = None;
        for at in 0..self.pages.len() {
            self.pages[at].count = 0;
        }
    }

    /// What is kept of a page of a level.
    pub(crate) fn of(&self, level: u16, page: u32) -> Option<&PagePlaces>
        ensures { (view : ℕ → List ℕ) → IsKeptTruly view self.now → IfSome result (λ kept. ArePlaces level (view page) kept.now.count kept.now.at) }
    {
        let number = page as usize % KEPT_PAGES;
        if number >= self.pages.len() {
            return None;
        }
        let kept = &self.pages[number];
        if kept.count > 0 && kept.page == page && kept.level == level {
            return Some(kept);
        }
        None
    }

    /// Makes room for all pages where there is none, and memory for it.
    fn make_room(&mut self)
        ensures { (view : ℕ → List ℕ) → IsKeptTruly view self.old → IsKeptTruly view self.new }
    {
        if self.pages.is_empty() {
            let _ = self.pages.resize(KEPT_PAGES, NO_PLACES);
            self.clear();
        }
    }

    /// Puts what is kept of a page in its place, where there is room.
    fn put(&mut self, number: usize, kept: PagePlaces)
        ensures { (view : ℕ → List ℕ) → IsKeptTruly view self.old → IsKeptOf view kept → IsKeptTruly view self.new }
    {
        if number < self.pages.len() {
            self.pages[number] = kept;
        }
    }

    /// Keeps where so many entries of a page begin, by its bytes, in place of what was kept there. Nothing is kept where memory lacks.
    pub(crate) fn keep(&mut self, level: u16, page: u32, count: u16, bytes: &[u8; PAGE_SIZE])
        ensures { (view : ℕ → List ℕ) → IsKeptTruly view self.old → view page ≡ bytes.now → HasSoManyEntries level bytes.now count → IsKeptTruly view self.new }
    {
        self.make_room();
        let kept = places_of(level, page, count, bytes);
        self.put(page as usize % KEPT_PAGES, kept);
    }

    /// Keeps that a page was looked into last; of which tree it is a leaf isn't known yet.
    pub(crate) fn looked_into(&mut self, page: u32)
        ensures kept { (view : ℕ → List ℕ) → IsKeptTruly view self.old → IsKeptTruly view self.new }
        ensures leaf { self.new.leaf ≡ page }
    {
        self.tree = None;
        self.leaf = page;
    }

    /// Keeps that the page that was looked into last is a leaf of this tree.
    pub(crate) fn is_of(&mut self, tree: TreeRoot)
        ensures { (view : ℕ → List ℕ) → IsKeptTruly view self.old → IsLeafAt view tree self.old.leaf → IsKeptTruly view self.new }
    {
        self.tree = Some(tree);
    }

    /// The page that was looked into last, where it is known to be a leaf of this tree.
    pub(crate) fn leaf_of(&self, tree: TreeRoot) -> Option<u32>
        ensures { (view : ℕ → List ℕ) → IsKeptTruly view self.now → IfSome result (IsLeafAt view tree) }
    {
        match self.tree {
            Some(known) if known == tree => Some(self.leaf),
            _ => None,
        }
    }
}

/// Where so many entries of a page begin, by its bytes; of none where they are too many.
fn places_of(level: u16, page: u32, count: u16, bytes: &[u8; PAGE_SIZE]) -> PagePlaces
    ensures page { result.page ≡ page }
    ensures level { result.level ≡ level }
    ensures kept { (view : ℕ → List ℕ) → view page ≡ bytes.now → HasSoManyEntries level bytes.now count → IsKeptOf view result }
{
    let mut at = [0; MOST_PLACES];
    let count = places_in(level, bytes, count, &mut at).unwrap_or(0);
    PagePlaces {
        page,
        level,
        count,
        at,
    }
}
