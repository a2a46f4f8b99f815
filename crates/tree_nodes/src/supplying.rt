// A page on a key's path, read from its bytes, and the tree with what was read.
ghost use Rattle.std.specs.Prelude.{◌≡◌, ◌-◌, ◌<◌, Some, MatchResult};
ghost use Rattle.tree_nodes.specs.PageViews.{bounds_of};
ghost use Rattle.tree_nodes.specs.Supply.{tree_in, path_depth, supplied};
ghost use Rattle.tree_nodes.specs.Needs.{IsNodeReadFault};
ghost use Rattle.tree_nodes.specs.NodeView.{tree_of};

use crate::deleting::with_child_left;
use crate::node::place_of;
use crate::{Branch, ImageBounds, Node, NodeFault, PackedLeaf};
use sector_device::PAGE_SIZE;
use std::alloc::Global;
use std::mem;

/// The node that the bytes of a page of a level say: the children of a branch are the pages that it names. `Damaged` exactly where the bytes are not that page.
pub fn read_node(
    alloc: Global,
    bounds: ImageBounds,
    level: u16,
    page: u32,
    bytes: &[u8; PAGE_SIZE],
) -> Result<Node, NodeFault>
    ensures { MatchResult result (λ node. tree_in (bounds_of bounds) level page bytes.now ≡ Some (tree_of node)) (IsNodeReadFault page (tree_in (bounds_of bounds) level page bytes.now)) }
{
    if level == 0 {
        read_leaf(alloc, bounds, page, bytes)
    } else {
        read_branch(alloc, bounds, level, page, bytes)
    }
}

/// The node that the bytes of a page of level 0 say.
fn read_leaf(
    alloc: Global,
    bounds: ImageBounds,
    page: u32,
    bytes: &[u8; PAGE_SIZE],
) -> Result<Node, NodeFault>
    ensures { MatchResult result (λ node. tree_in (bounds_of bounds) 0 page bytes.now ≡ Some (tree_of node)) (IsNodeReadFault page (tree_in (bounds_of bounds) 0 page bytes.now)) }
{
    let leaf = PackedLeaf::of_page(alloc, bounds, page, bytes)?;
    Ok(Node::Packed(leaf))
}

/// The node that the bytes of a page of a level above 0 say.
fn read_branch(
    alloc: Global,
    bounds: ImageBounds,
    level: u16,
    page: u32,
    bytes: &[u8; PAGE_SIZE],
) -> Result<Node, NodeFault>
    requires { 0 < level }
    ensures { MatchResult result (λ node. tree_in (bounds_of bounds) level page bytes.now ≡ Some (tree_of node)) (IsNodeReadFault page (tree_in (bounds_of bounds) level page bytes.now)) }
{
    let branch = Branch::new(bounds, level, page, bytes)?;
    let Some((_, first, others)) = branch.first() else {
        return Err(NodeFault::Damaged { page });
    };
    let first = Box::new(alloc, Node::Page(first))?;
    Ok(Node::Branch(first, others.to_others(alloc)?))
}

/// The level at which a key's path ends, in a tree of this level. It takes no memory.
pub(crate) fn level_under(node: &Node, key: &[u8], level: u16) -> u16
    ensures { result ≡ level - path_depth key.now (tree_of node.now) }
{
    match node {
        Node::Page(_) => level,
        Node::Leaf(_) => level,
        Node::Packed(_) => level,
        Node::Branch(first, others) => {
            let place = place_of(others, key);
            let below = level.saturating_sub(1);
            if place == 0 {
                level_under(first, key, below)
            } else {
                level_under(&others[place - 1].1, key, below)
            }
        }
    }
}

/// The tree with a node in place of the page that a key's path ends at; as it is where no page is needed. It takes no memory.
pub fn supply(node: Node, key: &[u8], read: Node) -> Node
    ensures { tree_of result ≡ supplied key.now (tree_of read) (tree_of node) }
{
    match node {
        Node::Page(_) => read,
        Node::Leaf(pairs) => Node::Leaf(pairs),
        Node::Packed(leaf) => Node::Packed(leaf),
        Node::Branch(first, others) => {
            let place = place_of(&others, key);
            if place == 0 {
                let mut first = first;
                let child = mem::replace(&mut *first, Node::Page(0));
                let child = supply(child, key, read);
                *first = child;
                Node::Branch(first, others)
            } else {
                let mut others = others;
                let child = mem::replace(&mut others[place - 1].1, Node::Page(0));
                let child = supply(child, key, read);
                let others = with_child_left(others, place - 1, Some(child));
                Node::Branch(first, others)
            }
        }
    }
}
