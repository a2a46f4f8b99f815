// A tree, owned nodes and pages, from left to right, beside a sorted map.
use crate::image::Image;
use crate::trouble::Trouble;
use std::collections::BTreeMap;
use std::collections::btree_map::Iter;
use tree_nodes::{Branch, Leaf, Node, OwnedTree};

/// More entries than a page can have.
pub const ENTRIES: usize = 4096;

/// What a walk has still to meet, and how many pages it has met.
#[derive(Drop)]
pub(crate) struct Walk<'a> {
    image: &'a Image,
    left: Iter<'a, Vec<u8>, Vec<u8>>,
    pub pages: usize,
}

impl<'a> Walk<'a> {
    pub fn new(image: &'a Image, pairs: &'a BTreeMap<Vec<u8>, Vec<u8>>) -> Walk<'a> {
        Walk {
            image,
            left: pairs.iter(),
            pages: 0,
        }
    }

    /// Whether a pair is the next one of the map.
    fn is_next(&mut self, key: &[u8], value: &[u8]) -> bool {
        match self.left.next() {
            Some((next_key, next_value)) => {
                next_key.as_slice() == key && next_value.as_slice() == value
            }
            None => false,
        }
    }

    /// Whether the pairs of a leaf are the next ones.
    fn meets_leaf(&mut self, page: u32) -> Result<bool, Trouble> {
        let image = self.image;
        let mut left = Leaf::new(image.bounds(), page, image.read(page)?)?;
        for _ in 0..ENTRIES {
            let Some((key, value, others)) = left.first() else {
                break;
            };
            if !self.is_next(key, value) {
                return Ok(false);
            }
            left = others;
        }
        Ok(true)
    }

    /// Whether the pairs under a page are the next ones.
    fn meets_page(&mut self, page: u32, level: u16) -> Result<bool, Trouble> {
        self.pages = self.pages.saturating_add(1);
        if level == 0 {
            return self.meets_leaf(page);
        }
        let image = self.image;
        let mut left = Branch::new(image.bounds(), level, page, image.read(page)?)?;
        for _ in 0..ENTRIES {
            let Some((_, child, others)) = left.first() else {
                break;
            };
            if !self.meets_page(child, level - 1)? {
                return Ok(false);
            }
            left = others;
        }
        Ok(true)
    }

    /// Whether the pairs under a node are the next ones.
    fn meets_node(&mut self, node: &Node, level: u16) -> Result<bool, Trouble> {
        match node {
            Node::Page(page) => self.meets_page(*page, level),
            Node::Leaf(pairs) => {
                for pair in pairs {
                    if !self.is_next(pair.key(), pair.value()) {
                        return Ok(false);
                    }
                }
                Ok(level == 0)
            }
            Node::Packed(leaf) => {
                let mut left = leaf.pairs();
                for _ in 0..leaf.len() {
                    let Some((key, value, others)) = left.first() else {
                        break;
                    };
                    if !self.is_next(key, value) {
                        return Ok(false);
                    }
                    left = others;
                }
                Ok(level == 0)
            }
            Node::Branch(first, others) => {
                if level == 0 || !self.meets_node(first, level - 1)? {
                    return Ok(false);
                }
                for child in others {
                    if !self.meets_node(&child.1, level - 1)? {
                        return Ok(false);
                    }
                }
                Ok(true)
            }
        }
    }

    /// Whether the pairs of a tree are all that are left.
    pub fn meets(&mut self, tree: &OwnedTree) -> Result<bool, Trouble> {
        let met = match tree.root() {
            Some(root) => self.meets_node(root, tree.height().saturating_sub(1))?,
            None => tree.height() == 0,
        };
        Ok(met && self.left.next().is_none())
    }
}
