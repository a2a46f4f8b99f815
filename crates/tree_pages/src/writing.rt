// Owned nodes as new pages.
ghost use Rattle.std.specs.Prelude.{◌≡◌, ◌≤◌, ◌<◌, ◌+◌, ◌∷◌, [], IfOk, length};
ghost use Rattle.tree_nodes.specs.Tree.{page, branch, other_bytes, entry_room};
ghost use Rattle.tree_nodes.specs.NodeView.{tree_of, others_view};
ghost use Rattle.tree_nodes.specs.PageBytes.{IsWritable};
ghost use Rattle.tree_pages.specs.Written.{AllFit, RowFits, Adds, page_for, AddsTree, AddsRow, owned_nodes, row_owned_nodes};

use common_types::Bytes;
use page_store::NewPage;
use std::alloc::{AllocError, Global};
use tree_nodes::{Node, encode};

/// Adds an owned node, whose children are pages, as the next page, under the next number.
fn add_page(
    alloc: Global,
    node: &Node,
    level: u16,
    generation: u64,
    numbers: &[u32],
    pages: &mut Vec<NewPage>,
) -> Result<u32, AllocError>
    requires room { length pages.old.items < length numbers.now }
    requires writable { IsWritable (tree_of node.now) }
    ensures { IfOk result (λ n. Adds numbers.now pages.old.items pages.new.items (page_for n generation level (tree_of node.now) ∷ [])) }
{
    let number = numbers[pages.len()];
    let bytes = encode(alloc, node, number, generation, level)?;
    pages.push(NewPage { number, bytes })?;
    Ok(number)
}

/// Adds a branch by the pages of its children.
fn add_branch(
    alloc: Global,
    child: u32,
    named: Vec<(Bytes, Node)>,
    level: u16,
    generation: u64,
    numbers: &[u32],
    pages: &mut Vec<NewPage>,
) -> Result<u32, AllocError>
    requires room { length pages.old.items < length numbers.now }
    requires fits { 6 + other_bytes (others_view named.items) ≤ entry_room }
    ensures { IfOk result (λ n. Adds numbers.now pages.old.items pages.new.items (page_for n generation level (branch (page child) (others_view named.items)) ∷ [])) }
{
    let branch = Node::Branch(Box::new(alloc, Node::Page(child))?, named);
    add_page(alloc, &branch, level, generation, numbers, pages)
}

/// Adds the owned nodes of a tree of a level as pages of a generation, each under the next number of a list, those under a branch before it. Answers the number of the
/// page at which the tree then stands. The list has a number for each. Where memory lacks some of the pages may have been added.
#[cycle(writes)]
pub fn write_node(
    alloc: Global,
    node: &Node,
    level: u16,
    generation: u64,
    numbers: &[u32],
    pages: &mut Vec<NewPage>,
) -> Result<u32, AllocError>
    requires room { length pages.old.items + owned_nodes (tree_of node.now) ≤ length numbers.now }
    requires fits { AllFit level (tree_of node.now) }
    ensures { IfOk result (AddsTree numbers.now generation level pages.old.items pages.new.items (tree_of node.now)) }
{
    match node {
        Node::Page(page) => Ok(*page),
        Node::Leaf(_) | Node::Packed(_) => {
            add_page(alloc, node, level, generation, numbers, pages)
        }
        Node::Branch(first, others) => {
            let below = level.saturating_sub(1);
            let child = write_node(alloc, first, below, generation, numbers, pages)?;
            let named = write_children(alloc, others, below, generation, numbers, pages)?;
            add_branch(alloc, child, named, level, generation, numbers, pages)
        }
    }
}

/// Adds the owned nodes of the children of a branch after its first. Answers the same children by the numbers at which they then stand.
#[cycle(writes)]
fn write_children(
    alloc: Global,
    children: &[(Bytes, Node)],
    level: u16,
    generation: u64,
    numbers: &[u32],
    pages: &mut Vec<NewPage>,
) -> Result<Vec<(Bytes, Node)>, AllocError>
    requires room { length pages.old.items + row_owned_nodes (others_view children.now) ≤ length numbers.now }
    requires fits { RowFits level (others_view children.now) }
    ensures { IfOk result (λ named. AddsRow numbers.now generation level pages.old.items pages.new.items (others_view children.now) (others_view named.items)) }
{
    let mut named = Vec::new(alloc);
    for child in children {
        let page = write_node(alloc, &child.1, level, generation, numbers, pages)?;
        named.push((child.0.clone()?, Node::Page(page)))?;
    }
    Ok(named)
}
