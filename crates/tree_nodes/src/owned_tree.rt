// A tree of pages by its root and its height.
ghost use Rattle.std.specs.Prelude.{◌≡◌, ◌≤◌, ◌<◌, ◌+◌, ◌-◌, ◌^◌, ℕ, min, List, Some, option_map, IfOk, IfErr, OnOk, OnErr, IfSome, IsSome, IsSomeAnd};
ghost use Rattle.tree_nodes.specs.Tree.{OldPages};
ghost use Rattle.tree_nodes.specs.Image.{old_of};
ghost use Rattle.tree_nodes.specs.NodeView.{tree_of, left_of, grown_of};
ghost use Rattle.tree_nodes.specs.PageViews.{bounds_of};
ghost use Rattle.tree_nodes.specs.Put.{rooted};
ghost use Rattle.tree_nodes.specs.Supply.{tree_in};
ghost use Rattle.tree_nodes.specs.Steps.{put_step, delete_step, supply_step, stepped, no_tree, needed_under, put_under, delete_under, read_under};
ghost use Rattle.tree_nodes.specs.Growth.{owned_under};
ghost use Rattle.tree_nodes.specs.Keys.{has_under};
ghost use Rattle.tree_nodes.specs.OwnedTrees.{state_of, need_of, at_page, over_root};
ghost use Rattle.tree_nodes.specs.Needs.{IsNodeReadFault, ShowsNeeded, needed_level};

use crate::node::{holds_key, owned_count};
use crate::supplying::level_under;
use crate::{ImageBounds, Node, NodeFault, NodeGrown, delete, needed, put, read_node, supply};
use page_store::Pair;
use sector_device::PAGE_SIZE;
use std::alloc::{AllocError, Global};

/// What a put or a delete answers.
#[derive(Clone, Copy, Debug, PartialEq, Eq)]
pub enum EditAnswer {
    /// It is made.
    Done,
    /// Nothing has changed: the page of this number, the one that the key's path ends at, is to be supplied first.
    Need(u32),
}

/// A tree of pages by its root and its height; neither where it has no pairs.
#[derive(Drop)]
pub struct OwnedTree {
    root: Option<Node>,
    height: u16,
}

/// The root over what a tree has grown to.
fn root_over(alloc: Global, grown: NodeGrown) -> Result<Node, AllocError>
    ensures { IfOk result (λ node. tree_of node ≡ rooted (grown_of grown)) }
{
    match grown {
        NodeGrown::One(node) => Ok(node),
        NodeGrown::Two(node, key, next) => {
            let first = Box::new(alloc, node)?;
            let mut others = Vec::new(alloc);
            others.push((key, next))?;
            Ok(Node::Branch(first, others))
        }
    }
}

impl OwnedTree {
    /// The tree without pairs.
    pub fn new() -> OwnedTree
        ensures { state_of result ≡ no_tree }
    {
        OwnedTree {
            root: None,
            height: 0,
        }
    }

    /// The tree under a page of an image, of at least one level.
    pub fn at_page(page: u32, height: u16) -> OwnedTree
        requires { 1 ≤ height }
        ensures { state_of result ≡ at_page page height }
    {
        OwnedTree {
            root: Some(Node::Page(page)),
            height,
        }
    }

    /// The tree under an owned root, of at least one level.
    pub fn over(root: Node, height: u16) -> OwnedTree
        requires { 1 ≤ height }
        ensures { state_of result ≡ over_root (tree_of root) height }
    {
        OwnedTree {
            root: Some(root),
            height,
        }
    }

    /// How many levels it has: 0 where it has no pairs.
    pub fn height(&self) -> u16
        ensures { result ≡ (state_of self.now).height }
    {
        self.height
    }

    /// Its root; none where it has no pairs.
    pub fn root(&self) -> Option<&Node>
        ensures { option_map (λ node. tree_of node.now) result ≡ (state_of self.now).root }
    {
        self.root.as_ref()
    }

    /// Its root, owned.
    pub fn into_root(self) -> Option<Node>
        ensures { left_of result ≡ (state_of self).root }
    {
        let OwnedTree { root, .. } = self;
        root
    }

    /// The page that a key's path ends at, where the nodes on it aren't all owned. It takes no memory.
    pub fn needed(&self, key: &[u8]) -> Option<u32>
        ensures { result ≡ needed_under key.now (state_of self.now).root }
    {
        match &self.root {
            Some(root) => needed(root, key),
            None => None,
        }
    }

    /// Whether a key has a value, by the leaf that its path ends at; no where the nodes on the path aren't all owned (`needed` tells that). It takes no memory.
    pub fn contains(&self, key: &[u8]) -> bool
        ensures { result ≡ has_under key.now (state_of self.now).root }
    {
        match &self.root {
            Some(root) => holds_key(root, key),
            None => false,
        }
    }

    /// How many of its nodes are owned, up to the greatest `u64`. It takes no memory.
    pub fn owned_nodes(&self) -> u64
        ensures { result ≡ min (owned_under (state_of self.now).root) (2 ^ 64 - 1) }
    {
        match &self.root {
            Some(root) => owned_count(root),
            None => 0,
        }
    }

    /// Puts a value at a key, in place of what was there. Where memory lacks the tree is gone.
    pub fn put(
        self,
        alloc: Global,
        key: &[u8],
        value: &[u8],
    ) -> Result<(OwnedTree, EditAnswer), AllocError>
        requires { (state_of self).height + 1 < 2 ^ 16 }
        ensures tree { IfOk result (λ x. (old : OldPages) → state_of x.0 ≡ stepped old (state_of self) (put_step key.now value.now)) }
        ensures answer { IfOk result (λ x. need_of x.1 ≡ needed_under key.now (state_of self).root) }
    {
        match self.needed(key) {
            Some(page) => Ok((self, EditAnswer::Need(page))),
            None => Ok((self.with_pair(alloc, key, value)?, EditAnswer::Done)),
        }
    }

    /// With a value at a key to which no page is needed.
    fn with_pair(self, alloc: Global, key: &[u8], value: &[u8]) -> Result<OwnedTree, AllocError>
        requires { (state_of self).height + 1 < 2 ^ 16 }
        ensures { IfOk result (λ tree. state_of tree ≡ put_under key.now value.now (state_of self).root (state_of self).height) }
    {
        let OwnedTree { root, height } = self;
        let Some(node) = root else {
            let mut pairs = Vec::new(alloc);
            pairs.push(Pair::from_slices(alloc, key, value)?)?;
            return Ok(OwnedTree {
                root: Some(Node::Leaf(pairs)),
                height: 1,
            });
        };
        let grown = put(alloc, node, key, value)?;
        let height = match &grown {
            NodeGrown::One(_) => height,
            NodeGrown::Two(_, _, _) => height + 1,
        };
        Ok(OwnedTree {
            root: Some(root_over(alloc, grown)?),
            height,
        })
    }

    /// Takes a key away. It takes no memory.
    pub fn delete(&mut self, key: &[u8]) -> EditAnswer
        ensures tree { (old : OldPages) → state_of self.new ≡ stepped old (state_of self.old) (delete_step key.now) }
        ensures answer { need_of result ≡ needed_under key.now (state_of self.old).root }
    {
        if let Some(page) = self.needed(key) {
            return EditAnswer::Need(page);
        }
        self.remove(key);
        EditAnswer::Done
    }

    /// Takes a key away to which no page is needed.
    fn remove(&mut self, key: &[u8])
        ensures { state_of self.new ≡ delete_under key.now (state_of self.old).root (state_of self.old).height }
    {
        self.root = match self.root.take() {
            Some(node) => delete(node, key),
            None => None,
        };
        if self.root.is_none() {
            *self = OwnedTree::new();
        }
    }

    /// Reads the page that a key needs from its bytes and puts what they say in its place; nothing changes where none is needed. `Damaged` exactly where
    /// the bytes are not that page. After a fault nothing has changed.
    pub fn supply(
        &mut self,
        alloc: Global,
        bounds: ImageBounds,
        key: &[u8],
        bytes: &[u8; PAGE_SIZE],
    ) -> Result<(), NodeFault>
        // of any image with these bytes at that page
        ensures tree { OnOk result ((image : ℕ → List ℕ) → ShowsNeeded image key.now (state_of self.old) bytes.now → state_of self.new ≡ stepped (old_of image (bounds_of bounds)) (state_of self.old) (supply_step key.now)) }
        ensures read { OnOk result (IfSome (needed_under key.now (state_of self.old).root) (λ page. IsSome (tree_in (bounds_of bounds) (needed_level key.now (state_of self.old)) page bytes.now))) }

        ensures fault { IfErr result (λ e. IsSomeAnd (needed_under key.now (state_of self.old).root) (λ page. IsNodeReadFault page (tree_in (bounds_of bounds) (needed_level key.now (state_of self.old)) page bytes.now) e)) }
        ensures err { OnErr result (state_of self.new ≡ state_of self.old) }
    {
        let Some(page) = self.needed(key) else {
            return Ok(());
        };
        let read = read_node(alloc, bounds, self.level_at(key), page, bytes)?;
        self.replace(key, read);
        Ok(())
    }

    /// The level at which a key's path ends.
    fn level_at(&self, key: &[u8]) -> u16
        ensures { result ≡ needed_level key.now (state_of self.now) }
    {
        let top = self.height.saturating_sub(1);
        match &self.root {
            Some(root) => level_under(root, key, top),
            None => top,
        }
    }

    /// Puts a node in place of the page that a key's path ends at.
    fn replace(&mut self, key: &[u8], read: Node)
        ensures { state_of self.new ≡ read_under key.now (Some (tree_of read)) (state_of self.old).root (state_of self.old).height }
    {
        if let Some(root) = self.root.take() {
            self.root = Some(supply(root, key, read));
        }
    }
}
