// Entries that don't fit one page, split in two.
ghost use Rattle.std.specs.Prelude.{◌≡◌, ◌↔◌, ◌≤◌, ◌+◌, IsTrue, IfOk, length};
ghost use Rattle.page_store.specs.Encoding.{fitting};
ghost use Rattle.tree_nodes.specs.Tree.{entry_room, leaf_bytes, other_bytes};
ghost use Rattle.tree_nodes.specs.Splits.{fitting_others, leaf_place, branch_place};
ghost use Rattle.tree_nodes.specs.Put.{split_leaf, split_branch};
ghost use Rattle.tree_nodes.specs.NodeView.{tree_of, others_view, grown_of};

use crate::{Node, NodeGrown};
use common_types::Bytes;
use page_store::Pair;
use std::alloc::{AllocError, Global};

/// How many bytes of a page are for its entries.
pub(crate) const ENTRY_ROOM: usize = 4072;

/// How many bytes the first part of a split leaf has at most.
const FRONT_OF_LEAF: usize = 2700;

/// How many bytes the entries of the first part of a split branch have at most, its first entry left out.
const FRONT_OF_BRANCH: usize = 2200;

/// How many bytes the first entry of a branch has.
const FIRST_ENTRY: usize = 6;

/// How many pairs from the first on fit into so many bytes.
fn fitting(room: usize, pairs: &[Pair]) -> usize
    ensures count { result ≡ fitting room pairs.now }
    ensures bound { result ≤ length pairs.now }
{
    let mut room = room as u128;
    let mut count = 0;
    for pair in pairs {
        let size = 4 + pair.key().len() as u128 + pair.value().len() as u128;
        if size > room {
            return count;
        }
        room -= size;
        count += 1;
    }
    count
}

/// How many children from the first on, each with its key, fit into so many bytes.
fn fitting_others(room: usize, others: &[(Bytes, Node)]) -> usize
    ensures count { result ≡ fitting_others room (others_view others.now) }
    ensures bound { result ≤ length others.now }
{
    let mut room = room as u128;
    let mut count = 0;
    for child in others {
        let size = 6 + child.0.as_slice().len() as u128;
        if size > room {
            return count;
        }
        room -= size;
        count += 1;
    }
    count
}

/// How many of these pairs stand in the first of two leaves.
fn leaf_place(pairs: &[Pair]) -> usize
    ensures count { result ≡ leaf_place pairs.now }
    ensures bound { result ≤ length pairs.now }
{
    fitting(FRONT_OF_LEAF, pairs)
}

/// How many of these children stand in the first of two branches, beside its first one.
fn branch_place(others: &[(Bytes, Node)]) -> usize
    ensures count { result ≡ branch_place (others_view others.now) }
    ensures bound { result ≤ length others.now }
{
    fitting_others(FRONT_OF_BRANCH, others)
}

/// Whether these pairs fit one page.
pub(crate) fn leaf_fits(pairs: &[Pair]) -> bool
    ensures { IsTrue result ↔ (leaf_bytes pairs.now ≤ entry_room) }
{
    fitting(ENTRY_ROOM, pairs) == pairs.len()
}

/// Whether these children, and a first one before them, fit one page.
pub(crate) fn branch_fits(others: &[(Bytes, Node)]) -> bool
    ensures { IsTrue result ↔ (6 + other_bytes (others_view others.now) ≤ entry_room) }
{
    fitting_others(ENTRY_ROOM - FIRST_ENTRY, others) == others.len()
}

/// A leaf of these pairs, or two where they don't fit one page.
pub(crate) fn split_leaf(alloc: Global, pairs: Vec<Pair>) -> Result<NodeGrown, AllocError>
    ensures { IfOk result (λ g. grown_of g ≡ split_leaf pairs.items) }
{
    let mut pairs = pairs;
    if fitting(ENTRY_ROOM, &pairs) == pairs.len() {
        return Ok(NodeGrown::One(Node::Leaf(pairs)));
    }
    let back = pairs.split_off(leaf_place(&pairs))?;
    if back.is_empty() {
        return Ok(NodeGrown::One(Node::Leaf(pairs)));
    }
    let key = Bytes::from_slice(alloc, back[0].key())?;
    Ok(NodeGrown::Two(Node::Leaf(pairs), key, Node::Leaf(back)))
}

/// A branch of these children, or two where they don't fit one page.
pub(crate) fn split_branch(
    alloc: Global,
    first: Box<Node>,
    others: Vec<(Bytes, Node)>,
) -> Result<NodeGrown, AllocError>
    ensures { IfOk result (λ g. grown_of g ≡ split_branch (tree_of first.value) (others_view others.items)) }
{
    let mut others = others;
    if fitting_others(ENTRY_ROOM - FIRST_ENTRY, &others) == others.len() {
        return Ok(NodeGrown::One(Node::Branch(first, others)));
    }
    let mut back = others.split_off(branch_place(&others))?;
    if back.is_empty() {
        return Ok(NodeGrown::One(Node::Branch(first, others)));
    }
    let (key, node) = back.remove(0);
    let next = Box::new(alloc, node)?;
    Ok(NodeGrown::Two(Node::Branch(first, others), key, Node::Branch(next, back)))
}
