// An image in memory: its pages, and which of them are free.
ghost use Rattle.std.specs.Prelude.{◌≡◌, ◌≤◌};

use crate::shown::Shown;
use crate::trouble::Trouble;
use crate::walk::ENTRIES;
use page_alloc::Ledger;
use sector_device::PAGE_SIZE;
use std::alloc::Global;
use std::mem;
use tree_nodes::{Branch, ImageBounds, Leaf, Node, encode, is_writable};

/// The pages of an image, and the ledger of them. A commit runs from one switch to the next.
#[derive(Drop)]
pub(crate) struct Image {
    pub alloc: Global,
    count: u32,
    pages: Vec<[u8; PAGE_SIZE]>,
    ledger: Ledger,
    generation: u64,
    ghost same: { ledger.generation ≡ generation },
}

impl Image {
    /// So many pages, of which none is held.
    pub fn new(alloc: Global, count: u32) -> Result<Image, Trouble>
        requires { 2 ≤ count }
    {
        let mut pages = Vec::with_capacity(alloc, count as usize)?;
        for _page in 0..count {
            pages.push([0; PAGE_SIZE])?;
        }
        let ledger = Ledger::new(alloc, count, 1)?;
        Ok(Image {
            alloc,
            count,
            pages,
            ledger,
            generation: 1,
        })
    }

    /// What its pages are tested against.
    pub fn bounds(&self) -> ImageBounds {
        ImageBounds {
            pages: self.count,
            seal: self.generation,
        }
    }

    /// How many pages are free.
    pub fn free(&self) -> usize {
        self.ledger.free()
    }

    /// How many pages are neither free nor root slots.
    pub fn used(&self) -> usize {
        self.pages
            .len()
            .saturating_sub(2)
            .saturating_sub(self.free())
    }

    /// The bytes of a page.
    pub fn read(&self, page: u32) -> Result<&[u8; PAGE_SIZE], Trouble> {
        match self.pages.get(page as usize) {
            Some(bytes) => Ok(bytes),
            None => Err(Trouble::Wrong("no such page")),
        }
    }

    /// The running commit gives a page up.
    pub fn retire(&mut self, page: u32) -> Result<(), Trouble> {
        if !self.ledger.lives(page) {
            return Err(Trouble::Wrong("a page that doesn't live is named"));
        }
        self.ledger.retire(page);
        Ok(())
    }

    /// Writes an owned node to a free page.
    fn store(&mut self, node: &Node, level: u16) -> Result<u32, Trouble> {
        if !is_writable(node) {
            return Err(Trouble::Wrong("a node doesn't fit its page"));
        }
        if self.ledger.free() == 0 {
            return Err(Trouble::Full);
        }
        let page = self.ledger.take();
        let generation = self.generation.saturating_add(1);
        let bytes = encode(self.alloc, node, page, generation, level)?;
        match self.pages.get_mut(page as usize) {
            Some(place) => *place = bytes,
            None => return Err(Trouble::Wrong("no such page is free")),
        }
        Ok(page)
    }

    /// Writes the owned nodes of a tree of a level to free pages, children first, and gives the page of its root.
    pub fn write(&mut self, node: Node, level: u16) -> Result<u32, Trouble> {
        match node {
            Node::Page(page) => Ok(page),
            Node::Leaf(pairs) => self.store(&Node::Leaf(pairs), level),
            Node::Packed(leaf) => self.store(&Node::Packed(leaf), level),
            Node::Branch(first, others) => {
                if level == 0 {
                    return Err(Trouble::Wrong("a branch stands at level 0"));
                }
                let mut first = first;
                let mut others = others;
                let child = mem::replace(&mut *first, Node::Page(0));
                *first = Node::Page(self.write(child, level - 1)?);
                for at in 0..others.len() {
                    let child = mem::replace(&mut others[at].1, Node::Page(0));
                    others[at].1 = Node::Page(self.write(child, level - 1)?);
                }
                self.store(&Node::Branch(first, others), level)
            }
        }
    }

    /// The running commit's generation is the current one.
    pub fn switch(&mut self) -> Result<(), Trouble> {
        let Some(next) = self.generation.checked_add(1) else {
            return Err(Trouble::Full);
        };
        self.ledger.advance(next);
        self.generation = next;
        Ok(())
    }

    /// What the running commit took and retired is as before.
    pub fn abandon(&mut self) {
        self.ledger.abandon();
    }

    /// The value at a key of a leaf.
    pub fn show_value(&self, page: u32, key: &[u8], shown: &mut Shown) -> Result<(), Trouble> {
        let leaf = Leaf::new(self.bounds(), page, self.read(page)?)?;
        match leaf.get(key) {
            Some(value) => shown.bytes(value),
            None => shown.word("none"),
        }
    }

    /// The key behind a key of a leaf.
    pub fn show_after(&self, page: u32, key: &[u8], shown: &mut Shown) -> Result<(), Trouble> {
        let leaf = Leaf::new(self.bounds(), page, self.read(page)?)?;
        match leaf.after(key) {
            Some((next, _)) => shown.bytes(next),
            None => shown.word("none"),
        }
    }

    /// The page under which a key stands, by a branch of level 1.
    pub fn show_page(&self, page: u32, key: &[u8], shown: &mut Shown) -> Result<(), Trouble> {
        let branch = Branch::new(self.bounds(), 1, page, self.read(page)?)?;
        match branch.page_of(key) {
            Some(child) => shown.number(child as usize),
            None => shown.word("none"),
        }
    }

    /// How many entries a page of level 0 or 1 has, where its keys lie between two.
    pub fn count_between(
        &self,
        page: u32,
        level: u16,
        low: &[u8],
        high: Option<&[u8]>,
    ) -> Result<usize, Trouble> {
        let bytes = self.read(page)?;
        if level == 0 {
            let leaf = Leaf::between(self.bounds(), page, low, high, bytes)?;
            return Ok(leaf_count(leaf));
        }
        let branch = Branch::between(self.bounds(), level, page, low, high, bytes)?;
        Ok(branch_count(branch))
    }
}

/// How many pairs a leaf has.
pub fn leaf_count(leaf: Leaf<'_>) -> usize {
    let mut left = leaf;
    for count in 0..ENTRIES {
        match left.first() {
            Some((_, _, others)) => left = others,
            None => return count,
        }
    }
    ENTRIES
}

/// How many children a branch has.
fn branch_count(branch: Branch<'_>) -> usize {
    let mut left = branch;
    for count in 0..ENTRIES {
        match left.first() {
            Some((_, _, others)) => left = others,
            None => return count,
        }
    }
    ENTRIES
}
