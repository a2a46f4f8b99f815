// The bytes of owned nodes.
ghost use Rattle.std.specs.Prelude.{◌≡◌, ◌↔◌, ◌≤◌, ◌<◌, ◌^◌, ◌+◌, ◌++◌, ◌∷◌, [], IsTrue, IfOk, OnOk, length};
ghost use Rattle.std.specs.List.{list_all};
ghost use Rattle.page_store.specs.Batch.{is_pair};
ghost use Rattle.page_store.specs.Heads.{seen_child};
ghost use Rattle.tree_nodes.specs.Tree.{entry_room, leaf_bytes, other_bytes};
ghost use Rattle.tree_nodes.specs.PageBytes.{head_bytes, child_bytes, children_bytes, other_entries, branch_entries, leaf_page, branch_page, number_of, page_of_tree, IsWritable};
ghost use Rattle.tree_nodes.specs.NodeView.{tree_of, others_view};

use crate::Node;
use crate::page_views::PAGE_WORD;
use crate::splitting::{branch_fits, leaf_fits};
use common_types::Bytes;
use page_store::{LONGEST_KEY, LONGEST_VALUE, Pair, padded_page, put_entries};
use sector_device::PAGE_SIZE;
use std::alloc::{AllocError, Global};

/// What stands before the entries of a page.
fn page_head(
    alloc: Global,
    page: u32,
    generation: u64,
    level: u16,
    count: u16,
) -> Result<Vec<u8>, AllocError>
    ensures { IfOk result (λ bytes. bytes.items ≡ head_bytes page generation level count) }
{
    let mut bytes = Vec::new(alloc);
    bytes.extend_from_slice(&PAGE_WORD)?;
    bytes.extend_from_slice(&page.to_be_bytes())?;
    bytes.extend_from_slice(&generation.to_be_bytes())?;
    bytes.extend_from_slice(&level.to_be_bytes())?;
    bytes.extend_from_slice(&count.to_be_bytes())?;
    Ok(bytes)
}

/// The number of a child's page, 0 where it is owned.
fn page_number(node: &Node) -> u32
    ensures { result ≡ number_of (tree_of node.now) }
{
    match node {
        Node::Page(page) => *page,
        Node::Leaf(_) => 0,
        Node::Packed(_) => 0,
        Node::Branch(_, _) => 0,
    }
}

/// Adds an entry of a branch.
fn put_child(out: &mut Vec<u8>, key: &[u8], page: u32) -> Result<(), AllocError>
    requires { length key.now < 2 ^ 16 }
    ensures { OnOk result (out.new.items ≡ out.old.items ++ child_bytes (seen_child key.now page)) }
{
    out.extend_from_slice(&(key.len() as u16).to_be_bytes())?;
    out.extend_from_slice(&page.to_be_bytes())?;
    out.extend_from_slice(key)
}

/// Adds the entries of a branch after its first.
fn put_others(out: &mut Vec<u8>, others: &[(Bytes, Node)]) -> Result<(), AllocError>
    requires { other_bytes (others_view others.now) ≤ entry_room }
    ensures { OnOk result (out.new.items ≡ out.old.items ++ children_bytes (other_entries (others_view others.now))) }
{
    for child in others {
        put_child(out, child.0.as_slice(), page_number(&child.1))?;
    }
    Ok(())
}

/// The bytes of a leaf of these pairs, as a page of a number and a generation.
#[tactic(auto, unfolding(crate::specs::PageBytes::leaf_page))]
pub fn encode_leaf(
    alloc: Global,
    page: u32,
    generation: u64,
    pairs: &[Pair],
) -> Result<[u8; PAGE_SIZE], AllocError>
    requires pairs { IsTrue (list_all is_pair pairs.now) }
    requires room { leaf_bytes pairs.now ≤ entry_room }
    ensures { IfOk result (λ bytes. bytes ≡ leaf_page page generation pairs.now) }
{
    let mut bytes = page_head(alloc, page, generation, 0, pairs.len() as u16)?;
    put_entries(&mut bytes, pairs)?;
    Ok(padded_page(&bytes))
}

/// The bytes of a branch.
#[tactic(auto, unfolding(crate::specs::PageBytes::branch_page))]
fn branch_page(
    alloc: Global,
    page: u32,
    generation: u64,
    level: u16,
    first: &Node,
    others: &[(Bytes, Node)],
) -> Result<[u8; PAGE_SIZE], AllocError>
    requires { 6 + other_bytes (others_view others.now) ≤ entry_room }
    ensures { IfOk result (λ bytes. bytes ≡ branch_page page generation level (branch_entries (tree_of first.now) (others_view others.now))) }
{
    let mut bytes = page_head(alloc, page, generation, level, (others.len() + 1) as u16)?;
    put_child(&mut bytes, &[], page_number(first))?;
    put_others(&mut bytes, others)?;
    Ok(padded_page(&bytes))
}

/// Whether all of these have the sizes of a pair.
#[tactic(auto, unfolding(page_store::specs::Batch::is_value))]
fn are_pairs(pairs: &[Pair]) -> bool
    ensures { result ≡ list_all is_pair pairs.now }
{
    pairs.iter().all(|pair| {
        let (key, value) = (pair.key().len(), pair.value().len());
        key >= 1 && key <= LONGEST_KEY && value <= LONGEST_VALUE
    })
}

/// Whether a node is owned and fits its page: `encode` asks for that. It takes no memory.
pub fn is_writable(node: &Node) -> bool
    ensures { IsTrue result ↔ IsWritable (tree_of node.now) }
{
    match node {
        Node::Page(_) => false,
        Node::Leaf(pairs) => are_pairs(pairs) && leaf_fits(pairs),
        Node::Packed(leaf) => leaf.fits(),
        Node::Branch(_, others) => branch_fits(others),
    }
}

/// The bytes of an owned node of a level, as a page of a number and a generation; a branch names the pages of its children.
pub fn encode(
    alloc: Global,
    node: &Node,
    page: u32,
    generation: u64,
    level: u16,
) -> Result<[u8; PAGE_SIZE], AllocError>
    requires { IsWritable (tree_of node.now) }
    ensures { IfOk result (λ bytes. bytes ≡ page_of_tree page generation level (tree_of node.now)) }
{
    match node {
        Node::Page(_) => Ok([0; PAGE_SIZE]),
        Node::Leaf(pairs) => encode_leaf(alloc, page, generation, pairs),
        Node::Packed(leaf) => Ok(leaf.to_page(page, generation)),
        Node::Branch(first, others) => {
            branch_page(alloc, page, generation, level, first, others)
        }
    }
}
