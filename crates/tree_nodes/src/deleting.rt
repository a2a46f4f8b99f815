// A key deleted from a tree whose way to it is owned.
ghost use Rattle.std.specs.Prelude.{◌≡◌, ◌<◌, length};
ghost use Rattle.std.specs.Map.{remove_entry};
ghost use Rattle.std.specs.BTreeMap.{is_at};
ghost use Rattle.common_types.specs.ByteOrder.{byte_cmp};
ghost use Rattle.tree_nodes.specs.Delete.{leaf_left, first_left, others_less, delete as delete_in};
ghost use Rattle.tree_nodes.specs.NodeView.{others_view, tree_of, left_of};

use crate::node::place_of;
use crate::{Node, PackedLeaf};
use common_types::Bytes;
use page_store::{Pair, remove_pair};
use std::mem;

/// What is left of a leaf without a key.
fn shrink_leaf(pairs: Vec<Pair>, key: &[u8]) -> Option<Node>
    ensures { left_of result ≡ leaf_left (remove_entry (is_at (byte_cmp key.now)) pairs.items) }
{
    let mut pairs = pairs;
    remove_pair(&mut pairs, key);
    if pairs.is_empty() {
        None
    } else {
        Some(Node::Leaf(pairs))
    }
}

/// What is left of a packed leaf without a key.
fn shrink_packed(leaf: PackedLeaf, key: &[u8]) -> Option<Node>
    ensures { left_of result ≡ leaf_left (remove_entry (is_at (byte_cmp key.now)) leaf) }
{
    let mut leaf = leaf;
    leaf.remove(key);
    if leaf.is_empty() {
        None
    } else {
        Some(Node::Packed(leaf))
    }
}

/// A branch of what is left of its first child, and the others.
fn with_first_left(first: Box<Node>, others: Vec<(Bytes, Node)>, left: Option<Node>) -> Option<Node>
    ensures { left_of result ≡ first_left (left_of left) (others_view others.items) }
{
    let mut first = first;
    let mut others = others;
    match left {
        Some(child) => {
            *first = child;
            Some(Node::Branch(first, others))
        }
        None => {
            if others.is_empty() {
                return None;
            }
            let (_, next) = others.remove(0);
            *first = next;
            Some(Node::Branch(first, others))
        }
    }
}

/// The children with what is left of one of them.
pub(crate) fn with_child_left(
    others: Vec<(Bytes, Node)>,
    at: usize,
    left: Option<Node>,
) -> Vec<(Bytes, Node)>
    requires { at < length others.items }
    ensures { others_view result.items ≡ others_less (others_view others.items) at (left_of left) }
{
    let mut others = others;
    match left {
        Some(child) => {
            others[at].1 = child;
            others
        }
        None => {
            let _ = others.remove(at);
            others
        }
    }
}

/// Takes a key away. Nothing is left of a node without entries. Where the key's path ends at a page that isn't owned (`needed` tells which), the tree comes back as it is. It takes no memory.
pub fn delete(node: Node, key: &[u8]) -> Option<Node>
    ensures { left_of result ≡ delete_in key.now (tree_of node) }
{
    match node {
        Node::Page(page) => Some(Node::Page(page)),
        Node::Leaf(pairs) => shrink_leaf(pairs, key),
        Node::Packed(leaf) => shrink_packed(leaf, key),
        Node::Branch(first, others) => {
            let place = place_of(&others, key);
            if place == 0 {
                let mut first = first;
                let child = mem::replace(&mut *first, Node::Page(0));
                let left = delete(child, key);
                with_first_left(first, others, left)
            } else {
                let mut others = others;
                let child = mem::replace(&mut others[place - 1].1, Node::Page(0));
                let left = delete(child, key);
                let others = with_child_left(others, place - 1, left);
                Some(Node::Branch(first, others))
            }
        }
    }
}
