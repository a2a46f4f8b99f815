// Root slots: which one opens, which one a commit writes, and torn ones.
use crate::batches::commit_tree;
use crate::made::{
    Sectors, current_slot, device_under, disk_of, empty_slot, image_of, new_tree, open_tree,
    write_slot,
};
use crate::pairs::{one_edit, pairs_of};
use crate::trouble::Trouble;
use page_store::{Keeper, slot_page};
use sector_device::{MemDisk, SECTOR_SIZE};
use std::alloc::Global;

/// How many pages the images have.
const PAGES: u16 = 16;

/// A commit on an image whose slot 0 is of generation 98 and slot 1 of 99.
#[derive(Clone, Copy)]
pub(crate) struct Switch {
    /// The generations that open before and after it.
    pub before: u64,
    pub after: u64,
    /// The slot that the commit wrote.
    pub slot: u32,
}

/// Whether an image has, on the page of a slot, the sectors that another has there.
fn has_slot_of(image: &[[u8; SECTOR_SIZE]], other: &[[u8; SECTOR_SIZE]], number: usize) -> bool {
    let slots = image.chunks(8).zip(other.chunks(8));
    match slots.skip(number).next() {
        Some((slot, other)) => slot == other,
        None => false,
    }
}

/// What a commit does with slots of generations 98 and 99. Slot 1, the newer one, stays.
pub fn switched(alloc: Global) -> Result<Switch, Trouble> {
    let mut disk = new_tree(alloc, PAGES)?;
    write_slot(alloc, &mut disk, &empty_slot(0, 98, PAGES.into(), 98)?)?;
    write_slot(alloc, &mut disk, &empty_slot(1, 99, PAGES.into(), 99)?)?;
    let image = image_of(alloc, &disk)?;
    let mut keeper = open_tree(alloc, disk)?;
    let before = keeper.figures().generation;
    if keeper.banner().port != 99 {
        return Err(Trouble::Wrong("the older slot opens"));
    }
    commit_tree(&mut keeper, &one_edit(alloc, b"k", Some(b"v"))?)?;
    let left = image_of(alloc, &device_under(keeper)?)?;
    if !has_slot_of(&left, &image, 1) {
        return Err(Trouble::Wrong("the newer slot is written"));
    }
    match current_slot(alloc, &left)? {
        Some(slot) => Ok(Switch {
            before,
            after: slot.seal,
            slot: slot.number,
        }),
        None => Err(Trouble::Wrong("no slot is valid")),
    }
}

/// An image of generation 2, of one pair, and the one of generation 3 that came of it, of two.
fn two_images(alloc: Global) -> Result<(Sectors, Sectors), Trouble> {
    let mut keeper = open_tree(alloc, new_tree(alloc, PAGES)?)?;
    commit_tree(&mut keeper, &one_edit(alloc, b"a", Some(b"1"))?)?;
    let older = image_of(alloc, &device_under(keeper)?)?;
    let mut keeper = open_tree(alloc, disk_of(alloc, &older)?)?;
    commit_tree(&mut keeper, &one_edit(alloc, b"b", Some(b"2"))?)?;
    let newer = image_of(alloc, &device_under(keeper)?)?;
    Ok((older, newer))
}

/// Overwrites the sectors of a half of a slot.
fn tear(image: &mut [[u8; SECTOR_SIZE]], number: u32, half: usize) {
    let first = 8 * number as usize + 4 * half.min(1);
    for sector in image.iter_mut().skip(first).take(4) {
        *sector = [0xa5; SECTOR_SIZE];
    }
}

/// An image whose newer slot has lost a half: the generation that opens, and the one after one more commit. What opens has the pairs of the image before.
pub fn torn(alloc: Global, half: usize) -> Result<(u64, u64), Trouble> {
    let (older, newer) = two_images(alloc)?;
    let Some(slot) = current_slot(alloc, &newer)? else {
        return Err(Trouble::Wrong("no slot is valid"));
    };
    let mut image = newer;
    tear(&mut image, slot.number, half);
    let mut keeper = open_tree(alloc, MemDisk::of(alloc, image)?)?;
    let mut before = open_tree(alloc, MemDisk::of(alloc, older)?)?;
    if pairs_of(alloc, &mut keeper)? != pairs_of(alloc, &mut before)? {
        return Err(Trouble::Wrong("other pairs than before"));
    }
    let opened = keeper.figures().generation;
    commit_tree(&mut keeper, &one_edit(alloc, b"c", Some(b"3"))?)?;
    Ok((opened, keeper.figures().generation))
}

/// Opens an image both of whose slots have lost a half.
pub fn both_torn(alloc: Global, half: usize) -> Result<(), Trouble> {
    let (_, newer) = two_images(alloc)?;
    let mut image = newer;
    tear(&mut image, 0, half);
    tear(&mut image, 1, half);
    let _ = open_tree(alloc, MemDisk::of(alloc, image)?)?;
    Ok(())
}

/// Commits on an image with the last generation in its second slot, on its first sector alone or on all. The figures stay.
pub fn spent(alloc: Global, sectors: usize) -> Result<(), Trouble> {
    let mut image = image_of(alloc, &new_tree(alloc, PAGES)?)?;
    let slot = empty_slot(1, u64::MAX, PAGES.into(), 99)?;
    if slot.number >= 2 {
        return Err(Trouble::Line);
    }
    let page = slot_page(alloc, &slot)?;
    for (sector, bytes) in image
        .iter_mut()
        .skip(8)
        .take(sectors)
        .zip(page.chunks(SECTOR_SIZE))
    {
        if bytes.len() == SECTOR_SIZE {
            sector.copy_from_slice(bytes);
        }
    }
    let mut keeper = open_tree(alloc, MemDisk::of(alloc, image)?)?;
    let figures = keeper.figures();
    let answer = commit_tree(&mut keeper, &one_edit(alloc, b"k", Some(b"v"))?);
    if keeper.figures() != figures || !keeper.is_usable() {
        return Err(Trouble::Wrong("a refused commit changes the figures"));
    }
    answer
}
