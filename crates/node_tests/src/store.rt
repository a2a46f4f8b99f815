// A tree over an image, changed in memory and written by commits.
ghost use Rattle.std.specs.Prelude.{◌≤◌};

use crate::image::{Image, leaf_count};
use crate::trouble::Trouble;
use crate::walk::ENTRIES;
use std::alloc::Global;
use std::mem;
use tree_nodes::{Branch, EditAnswer, Leaf, OwnedTree};

/// How many levels a tree is tried with at most.
pub const LEVELS: usize = 16;

/// A tree over an image.
#[derive(Drop)]
pub(crate) struct Store {
    pub image: Image,
    pub tree: OwnedTree,
    /// The page and the height of the tree as the last commit wrote it.
    root: Option<(u32, u16)>,
    /// Whether a page of each level was needed.
    pub met: [bool; 16],
}

impl Store {
    /// No pairs, over an image of so many pages.
    pub fn new(alloc: Global, pages: u32) -> Result<Store, Trouble>
        requires { 2 ≤ pages }
    {
        Ok(Store {
            image: Image::new(alloc, pages)?,
            tree: OwnedTree::new(),
            root: None,
            met: [false; 16],
        })
    }

    /// Reads the page that a key needs.
    pub fn supply(&mut self, key: &[u8], page: u32) -> Result<(), Trouble> {
        let bytes = *self.image.read(page)?;
        let bounds = self.image.bounds();
        self.tree.supply(self.image.alloc, bounds, key, &bytes)?;
        let level = bytes[21] as usize;
        if level < LEVELS {
            self.met[level] = true;
        }
        self.image.retire(page)
    }

    /// Puts a value at a key once. Where memory lacks the tree is gone.
    pub fn try_put(&mut self, key: &[u8], value: &[u8]) -> Result<EditAnswer, Trouble> {
        let tree = mem::replace(&mut self.tree, OwnedTree::new());
        if tree.height() as usize >= LEVELS {
            return Err(Trouble::Wrong("the tree is too high"));
        }
        let (tree, answer) = tree.put(self.image.alloc, key, value)?;
        self.tree = tree;
        Ok(answer)
    }

    /// Puts a value at a key, with all pages that this needs.
    pub fn put(&mut self, key: &[u8], value: &[u8]) -> Result<(), Trouble> {
        for _ in 0..=LEVELS {
            match self.try_put(key, value)? {
                EditAnswer::Done => return Ok(()),
                EditAnswer::Need(page) => self.supply(key, page)?,
            }
        }
        Err(Trouble::Wrong("a put needs too many pages"))
    }

    /// Takes a key away, with all pages that this needs.
    pub fn delete(&mut self, key: &[u8]) -> Result<(), Trouble> {
        for _ in 0..=LEVELS {
            match self.tree.delete(key) {
                EditAnswer::Done => return Ok(()),
                EditAnswer::Need(page) => self.supply(key, page)?,
            }
        }
        Err(Trouble::Wrong("a delete needs too many pages"))
    }

    /// Writes what is owned to free pages, and switches to it.
    pub fn commit(&mut self) -> Result<(), Trouble> {
        let tree = mem::replace(&mut self.tree, OwnedTree::new());
        let height = tree.height();
        let root = match tree.into_root() {
            Some(node) => Some((self.image.write(node, height.saturating_sub(1))?, height)),
            None => None,
        };
        self.image.switch()?;
        self.root = root;
        self.reopen();
        Ok(())
    }

    /// Goes back to what the last commit wrote.
    pub fn abandon(&mut self) {
        self.image.abandon();
        self.reopen();
    }

    /// The tree as the last commit wrote it.
    fn reopen(&mut self) {
        self.tree = match self.root {
            Some((page, height)) if height > 0 => OwnedTree::at_page(page, height),
            _ => OwnedTree::new(),
        };
    }

    /// How many pairs the tree has that the last commit wrote.
    pub fn pairs(&self) -> Result<usize, Trouble> {
        match self.root {
            Some((page, height)) => pairs_under(&self.image, page, height.saturating_sub(1)),
            None => Ok(0),
        }
    }
}

/// How many pairs a page of a level has under it.
fn pairs_under(image: &Image, page: u32, level: u16) -> Result<usize, Trouble> {
    if level == 0 {
        let leaf = Leaf::new(image.bounds(), page, image.read(page)?)?;
        return Ok(leaf_count(leaf));
    }
    let mut count = 0usize;
    let mut left = Branch::new(image.bounds(), level, page, image.read(page)?)?;
    for _ in 0..ENTRIES {
        let Some((_, child, others)) = left.first() else {
            break;
        };
        count = count.saturating_add(pairs_under(image, child, level - 1)?);
        left = others;
    }
    Ok(count)
}
