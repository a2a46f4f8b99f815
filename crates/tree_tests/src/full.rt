// An image that is filled until it has no room.
use crate::batches::commit_tree;
use crate::made::{device_under, image_of, new_tree, open_tree};
use crate::pairs::{kept_by, one_edit, pairs_of};
use crate::trouble::Trouble;
use cow_tree::TreeKeeper;
use page_store::{Keeper, LONGEST_VALUE};
use sector_device::MemDisk;
use std::alloc::Global;

/// How many pages the image has.
const PAGES: u16 = 16;

/// Puts 1,024 bytes at the key of a number.
fn put(alloc: Global, keeper: &mut TreeKeeper<MemDisk>, number: u8) -> Result<(), Trouble> {
    commit_tree(
        keeper,
        &one_edit(alloc, &[b'k', number], Some(&[number; LONGEST_VALUE]))?,
    )
}

/// A tree with so many pairs, each of which was a commit.
fn filled(alloc: Global, pairs: u8) -> Result<TreeKeeper<MemDisk>, Trouble> {
    let mut keeper = open_tree(alloc, new_tree(alloc, PAGES)?)?;
    for number in 0..pairs {
        put(alloc, &mut keeper, number)?;
    }
    Ok(keeper)
}

/// How many pairs an image of 16 pages takes, one after another.
pub fn room(alloc: Global) -> Result<u8, Trouble> {
    let mut keeper = filled(alloc, 0)?;
    for number in 0..100 {
        if put(alloc, &mut keeper, number).is_err() {
            return Ok(number);
        }
    }
    Err(Trouble::Wrong("an image without end"))
}

/// The put of one pair more than there is room for. It changes neither the pairs nor the figures, and calls for no write.
pub fn one_more(alloc: Global, pairs: u8) -> Result<(), Trouble> {
    let disk = device_under(filled(alloc, pairs)?)?;
    let (image, calls) = (image_of(alloc, &disk)?, disk.writes_and_syncs().len());
    let mut keeper = filled(alloc, pairs)?;
    let before = kept_by(alloc, &mut keeper)?;
    let answer = put(alloc, &mut keeper, pairs);
    if kept_by(alloc, &mut keeper)? != before || !keeper.is_usable() {
        return Err(Trouble::Wrong("a refused commit changes what is kept"));
    }
    let disk = device_under(keeper)?;
    if disk.writes_and_syncs().len() != calls || image_of(alloc, &disk)? != image {
        return Err(Trouble::Wrong("a refused commit writes"));
    }
    answer
}

/// How many pages are free with so many pairs; once one more is refused and the first one is taken away; and once all are taken away, one after another.
pub fn emptied(alloc: Global, pairs: u8) -> Result<[u64; 3], Trouble> {
    let mut keeper = filled(alloc, pairs)?;
    let mut free = [keeper.figures().free; 3];
    let _ = put(alloc, &mut keeper, pairs);
    for number in 0..pairs {
        commit_tree(&mut keeper, &one_edit(alloc, &[b'k', number], None)?)?;
        if number == 0 {
            free[1] = keeper.figures().free;
        }
    }
    free[2] = keeper.figures().free;
    match pairs_of(alloc, &mut keeper)?.is_empty() {
        true => Ok(free),
        false => Err(Trouble::Wrong("pairs are left")),
    }
}
