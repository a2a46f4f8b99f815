// What `bench/nodes` times: each call does one thing so many times, and counts what it did.
use crate::image::Image;
use crate::store::Store;
use crate::trouble::Trouble;
use page_store::LONGEST_KEY;
use tree_nodes::{EditAnswer, Node, read_node};

/// Eight bytes that look random. No two numbers have the same.
fn mixed(number: u32) -> [u8; 8] {
    let first = (number as u64).wrapping_mul(0x9e37_79b9_7f4a_7c15);
    let second = (first ^ (first >> 32)).wrapping_mul(0xd6e8_feb8_6659_fd93);
    (second ^ (second >> 32)).to_be_bytes()
}

/// The key of a number, of the greatest length. Keys differ in their last eight bytes alone, so that two are compared from end to end.
fn long_key(number: u32) -> [u8; LONGEST_KEY] {
    let mut key = [b'k'; LONGEST_KEY];
    key[292..].copy_from_slice(&mixed(number));
    key
}

/// Puts the pairs of so many numbers, from the first one on, into a tree. How many puts were made.
pub fn put_many(store: &mut Store, first: u32, many: u32) -> Result<usize, Trouble> {
    let mut done = 0usize;
    for number in first..first.saturating_add(many) {
        match store.try_put(&long_key(number), &mixed(number))? {
            EditAnswer::Done => done = done.saturating_add(1),
            EditAnswer::Need(_) => {}
        }
    }
    Ok(done)
}

/// Takes the keys of so many numbers away. How many deletes were made.
pub fn delete_many(store: &mut Store, first: u32, many: u32) -> usize {
    let mut done = 0usize;
    for number in first..first.saturating_add(many) {
        match store.tree.delete(&long_key(number)) {
            EditAnswer::Done => done = done.saturating_add(1),
            EditAnswer::Need(_) => {}
        }
    }
    done
}

/// How many pairs the owned leaves under a node have.
pub fn owned_pairs(node: &Node) -> usize {
    match node {
        Node::Page(_) => 0,
        Node::Leaf(pairs) => pairs.len(),
        Node::Packed(leaf) => leaf.len(),
        Node::Branch(first, others) => {
            let mut count = owned_pairs(first);
            for child in others {
                count = count.saturating_add(owned_pairs(&child.1));
            }
            count
        }
    }
}

/// Reads a leaf so many times. How often it was read, and how many pairs all readings have.
pub fn read_many(image: &Image, page: u32, many: u32) -> Result<[usize; 2], Trouble> {
    let bytes = image.read(page)?;
    let mut figures = [0usize; 2];
    for _ in 0..many {
        let node = read_node(image.alloc, image.bounds(), 0, page, bytes)?;
        figures[0] = figures[0].saturating_add(1);
        figures[1] = figures[1].saturating_add(owned_pairs(&node));
    }
    Ok(figures)
}
