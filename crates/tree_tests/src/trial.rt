// A few commits, each made again where it found no memory.
use crate::batches::commit_tree;
use crate::made::{device_under, new_tree, open_tree};
use crate::pairs::{one_edit, pairs_of};
use crate::trouble::Trouble;
use cow_tree::TreeKeeper;
use page_store::{Keeper, LONGEST_VALUE};
use sector_device::MemDisk;
use std::alloc::Global;

/// How many pages the image has, and how many commits are made.
const PAGES: u16 = 16;

const COMMITS: u8 = 8;

/// A disk with a fresh image, tried twice.
fn made(alloc: Global) -> Result<MemDisk, Trouble> {
    match new_tree(alloc, PAGES) {
        Ok(disk) => Ok(disk),
        Err(_) => new_tree(alloc, PAGES),
    }
}

/// The keeper of the tree on a disk. An opening that finds no memory hands the disk back.
fn opened(alloc: Global, disk: MemDisk) -> Result<TreeKeeper<MemDisk>, Trouble> {
    match TreeKeeper::open(alloc, disk) {
        Ok(keeper) => Ok(keeper),
        Err((_, disk)) => open_tree(alloc, disk),
    }
}

/// A put of 1,024 bytes, or in the end a delete.
fn change(alloc: Global, keeper: &mut TreeKeeper<MemDisk>, number: u8) -> Result<(), Trouble> {
    let value = [number; LONGEST_VALUE];
    let batch = match number < COMMITS - 1 {
        true => one_edit(alloc, &[b'k', number], Some(&value))?,
        false => one_edit(alloc, b"k\0", None)?,
    };
    commit_tree(keeper, &batch)
}

/// How many keys and values there are, tried twice.
fn counted(alloc: Global, keeper: &mut TreeKeeper<MemDisk>) -> Result<usize, Trouble> {
    match pairs_of(alloc, keeper) {
        Ok(pairs) => Ok(pairs.len() / 2),
        Err(_) => Ok(pairs_of(alloc, keeper)?.len() / 2),
    }
}

/// A change, made again where it found no memory. It changed nothing then, or failed as the disk did, and then for good.
fn changed(
    alloc: Global,
    keeper: TreeKeeper<MemDisk>,
    number: u8,
) -> Result<TreeKeeper<MemDisk>, Trouble> {
    let mut keeper = keeper;
    let before = keeper.figures();
    if change(alloc, &mut keeper, number).is_ok() {
        return Ok(keeper);
    }
    if keeper.figures() != before {
        return Err(Trouble::Wrong("a refused commit changes the figures"));
    }
    if !keeper.is_usable() {
        keeper = opened(alloc, device_under(keeper)?)?;
    }
    change(alloc, &mut keeper, number)?;
    Ok(keeper)
}

/// How many pairs there are in the end, and how many pages are free.
pub fn trial(alloc: Global) -> Result<(usize, u64), Trouble> {
    let mut keeper = opened(alloc, made(alloc)?)?;
    for number in 0..COMMITS {
        keeper = changed(alloc, keeper, number)?;
    }
    Ok((counted(alloc, &mut keeper)?, keeper.figures().free))
}
