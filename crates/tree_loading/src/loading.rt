// The tree of pairs in filled pages, level by level.
ghost use Rattle.std.specs.Prelude.{◌≡◌, ◌≤◌, ◌*◌, ℕ, length, IsTrue, IfOk};
ghost use Rattle.std.specs.List.{list_all};
ghost use Rattle.page_store.specs.Sizes.{most_pairs};
ghost use Rattle.page_store.specs.Batch.{is_map, is_pair};
ghost use Rattle.tree_nodes.specs.NodeView.{others_view};
ghost use Rattle.tree_nodes.specs.OwnedTrees.{state_of};
ghost use Rattle.tree_loading.specs.Filled.{leaves_of, branches_of, root_over, filled};

use crate::branch_row::BranchRow;
use crate::leaf_row::LeafRow;
use common_types::Bytes;
use page_store::Pair;
use std::alloc::{AllocError, Global};
use tree_nodes::{Node, OwnedTree};

/// The leaves of these pairs, each with its first key.
fn leaves_of(alloc: Global, pairs: Vec<Pair>) -> Result<Vec<(Bytes, Node)>, AllocError>
    requires { IsTrue (list_all is_pair pairs.items) }
    ensures { IfOk result (λ row. others_view row.items ≡ leaves_of pairs.items) }
{
    let mut row = LeafRow::new(alloc);
    for pair in pairs {
        row.add(alloc, pair)?;
    }
    row.finish(alloc)
}

/// The branches over the nodes of a level, each with its first key.
fn branches_of(alloc: Global, level: Vec<(Bytes, Node)>) -> Result<Vec<(Bytes, Node)>, AllocError>
    ensures { IfOk result (λ row. others_view row.items ≡ branches_of (others_view level.items)) }
{
    let mut row = BranchRow::new(alloc);
    for (key, node) in level {
        row.add(alloc, key, node)?;
    }
    row.finish(alloc)
}

/// The tree over the only node of a level, which stands so high; without levels where there is no node.
fn tree_over(level: Vec<(Bytes, Node)>, height: u16) -> OwnedTree
    requires one { length level.items ≤ 1 }
    requires height { 1 ≤ height }
    ensures { (most : ℕ) → state_of result ≡ root_over most height (others_view level.items) }
{
    let mut level = level;
    match level.pop() {
        Some((_key, root)) => OwnedTree::over(root, height),
        None => OwnedTree::new(),
    }
}

/// The tree of these pairs in filled pages: the pairs in the longest runs that fit a leaf, then the nodes of each level in the longest runs that fit a branch, up to one root.
/// The laws of this crate say what it has. It fails only where memory lacks.
pub fn filled_tree(alloc: Global, pairs: Vec<Pair>) -> Result<OwnedTree, AllocError>
    requires map { IsTrue (is_map pairs.items) }
    requires count { length pairs.items ≤ most_pairs }
    ensures { IfOk result (λ tree. state_of tree ≡ filled pairs.items) }
{
    let mut level = leaves_of(alloc, pairs)?;
    let mut height = 1;
    while level.len() > 1 {
        level = branches_of(alloc, level)?;
        height += 1;
    }
    Ok(tree_over(level, height))
}
