// A pair put into a tree whose way to the key is owned.
ghost use Rattle.std.specs.Prelude.{◌≡◌, ◌<◌, length, IfOk};
ghost use Rattle.std.specs.BTreeMap.{insert_entry};
ghost use Rattle.common_types.specs.ByteOrder.{byte_cmp};
ghost use Rattle.tree_nodes.specs.Put.{split_leaf, grown_first, others_with, put as put_in};
ghost use Rattle.tree_nodes.specs.NodeView.{tree_of, others_view, grown_of};

use crate::node::place_of;
use crate::splitting::{split_branch, split_leaf};
use crate::{Node, NodeGrown, PackedLeaf};
use common_types::Bytes;
use page_store::{Pair, put_pair};
use std::alloc::{AllocError, Global};
use std::mem;

/// A leaf in which a value is put at a key.
fn grow_leaf(
    alloc: Global,
    pairs: Vec<Pair>,
    key: &[u8],
    value: &[u8],
) -> Result<NodeGrown, AllocError>
    ensures { IfOk result (λ g. grown_of g ≡ split_leaf (insert_entry byte_cmp pairs.items key.now value.now)) }
{
    let mut pairs = pairs;
    let key = Bytes::from_slice(alloc, key)?;
    let value = Bytes::from_slice(alloc, value)?;
    put_pair(&mut pairs, key, value)?;
    split_leaf(alloc, pairs)
}

/// A packed leaf in which a value is put at a key.
fn grow_packed(
    alloc: Global,
    leaf: PackedLeaf,
    key: &[u8],
    value: &[u8],
) -> Result<NodeGrown, AllocError>
    ensures { IfOk result (λ g. grown_of g ≡ split_leaf (insert_entry byte_cmp leaf key.now value.now)) }
{
    if !leaf.takes(key, value) {
        return grow_leaf(alloc, leaf.to_pairs(alloc)?, key, value);
    }
    let leaf = leaf.put(alloc, key, value)?;
    if leaf.fits() {
        return Ok(NodeGrown::One(Node::Packed(leaf)));
    }
    split_leaf(alloc, leaf.to_pairs(alloc)?)
}

/// A branch whose first child has grown.
fn with_first(
    alloc: Global,
    first: Box<Node>,
    others: Vec<(Bytes, Node)>,
    grown: NodeGrown,
) -> Result<NodeGrown, AllocError>
    ensures { IfOk result (λ g. grown_of g ≡ grown_first (grown_of grown) (others_view others.items)) }
{
    let mut first = first;
    let mut others = others;
    match grown {
        NodeGrown::One(child) => {
            *first = child;
            split_branch(alloc, first, others)
        }
        NodeGrown::Two(child, key, next) => {
            *first = child;
            others.insert(0, (key, next))?;
            split_branch(alloc, first, others)
        }
    }
}

/// The children of which one has grown.
fn with_child(
    others: Vec<(Bytes, Node)>,
    at: usize,
    grown: NodeGrown,
) -> Result<Vec<(Bytes, Node)>, AllocError>
    requires { at < length others.items }
    ensures { IfOk result (λ v. others_view v.items ≡ others_with (others_view others.items) at (grown_of grown)) }
{
    let mut others = others;
    match grown {
        NodeGrown::One(child) => {
            others[at].1 = child;
            Ok(others)
        }
        NodeGrown::Two(child, key, next) => {
            others[at].1 = child;
            others.insert(at + 1, (key, next))?;
            Ok(others)
        }
    }
}

/// Puts a value at a key, in place of what was there. Where the key's path ends at a page that isn't owned (`needed` tells which), the tree comes back as it is.
pub fn put(alloc: Global, node: Node, key: &[u8], value: &[u8]) -> Result<NodeGrown, AllocError>
    ensures { IfOk result (λ g. grown_of g ≡ put_in key.now value.now (tree_of node)) }
{
    match node {
        Node::Page(page) => Ok(NodeGrown::One(Node::Page(page))),
        Node::Leaf(pairs) => grow_leaf(alloc, pairs, key, value),
        Node::Packed(leaf) => grow_packed(alloc, leaf, key, value),
        Node::Branch(first, others) => {
            let place = place_of(&others, key);
            if place == 0 {
                let mut first = first;
                let child = mem::replace(&mut *first, Node::Page(0));
                let grown = put(alloc, child, key, value)?;
                with_first(alloc, first, others, grown)
            } else {
                let mut others = others;
                let child = mem::replace(&mut others[place - 1].1, Node::Page(0));
                let grown = put(alloc, child, key, value)?;
                let others = with_child(others, place - 1, grown)?;
                split_branch(alloc, first, others)
            }
        }
    }
}
