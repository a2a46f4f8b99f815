// A tree of which some nodes are owned and the others are page numbers.
ghost use Rattle.std.specs.Prelude.{◌≡◌, ◌≤◌, ◌-◌, ◌^◌, min, length, is_some};
ghost use Rattle.page_store.specs.Batch.{value_at};
ghost use Rattle.tree_nodes.specs.Tree.{way, place, owned_nodes};
ghost use Rattle.tree_nodes.specs.Keys.{has_key};
ghost use Rattle.tree_nodes.specs.NodeView.{tree_of, others_view};

use crate::PackedLeaf;
use common_types::{Bytes, compare_bytes};
use page_store::Pair;
use std::cmp::Ordering;

/// A node of a tree, and all that is owned under it.
#[derive(Drop)]
pub enum Node {
    /// The page of this number, as it stands in the image.
    Page(u32),
    /// A leaf of these pairs.
    Leaf(Vec<Pair>),
    /// A leaf of the pairs of these entries.
    Packed(PackedLeaf),
    /// A branch of its first child, and of the others, each with the key from which on its own keys are.
    Branch(Box<Node>, Vec<(Bytes, Node)>),
}

/// One node, or two and the key from which on the second begins.
#[derive(Drop)]
pub enum NodeGrown {
    /// It fits one page.
    One(Node),
    /// It was split.
    Two(Node, Bytes, Node),
}

/// The page that a key's path ends at, where the nodes on it aren't all owned. It takes no memory.
pub fn needed(node: &Node, key: &[u8]) -> Option<u32>
    ensures { result ≡ way key.now (tree_of node.now) }
{
    match node {
        Node::Page(page) => Some(*page),
        Node::Leaf(_) => None,
        Node::Packed(_) => None,
        Node::Branch(first, others) => {
            let place = place_of(others, key);
            if place == 0 {
                needed(first, key)
            } else {
                needed(&others[place - 1].1, key)
            }
        }
    }
}

/// Whether a key has a value, by the leaf that its path ends at; no where the nodes on the path aren't all owned. It takes no memory.
pub(crate) fn holds_key(node: &Node, key: &[u8]) -> bool
    ensures { result ≡ has_key key.now (tree_of node.now) }
{
    match node {
        Node::Page(_) => false,
        Node::Leaf(pairs) => has_pair(pairs, key),
        Node::Packed(leaf) => leaf.has(key),
        Node::Branch(first, others) => {
            let place = place_of(others, key);
            if place == 0 {
                holds_key(first, key)
            } else {
                holds_key(&others[place - 1].1, key)
            }
        }
    }
}

/// Whether one of these pairs stands at a key.
fn has_pair(pairs: &[Pair], key: &[u8]) -> bool
    ensures { result ≡ is_some (value_at pairs.now key.now) }
{
    for pair in pairs {
        if compare_bytes(key, pair.key()) == Ordering::Equal {
            return true;
        }
    }
    false
}

/// How many nodes of a tree are owned, up to the greatest `u64`. It takes no memory.
pub(crate) fn owned_count(node: &Node) -> u64
    ensures { result ≡ min (owned_nodes (tree_of node.now)) (2 ^ 64 - 1) }
{
    match node {
        Node::Page(_) => 0,
        Node::Leaf(_) => 1,
        Node::Packed(_) => 1,
        Node::Branch(first, others) => {
            let mut count = owned_count(first).saturating_add(1);
            for child in others {
                count = count.saturating_add(owned_count(&child.1));
            }
            count
        }
    }
}

/// How many of these children a key's path passes over: those whose keys aren't above it.
pub(crate) fn place_of(children: &[(Bytes, Node)], key: &[u8]) -> usize
    ensures place { result ≡ place key.now (others_view children.now) }
    ensures bound { result ≤ length children.now }
{
    for at in 0..children.len() {
        if compare_bytes(key, children[at].0.as_slice()) == Ordering::Less {
            return at;
        }
    }
    children.len()
}
