// Commits that are stopped at each call of the device.
use crate::batches::commit_tree;
use crate::made::{Sectors, device_under, disk_of, height_of, image_of, new_tree, open_tree};
use crate::pairs::{one_edit, pairs_of, value_of};
use crate::trouble::Trouble;
use common_types::Bytes;
use cow_tree::TreeKeeper;
use page_store::{Edit, KeeperFault, LONGEST_VALUE};
use sector_device::{Call, FuseDisk, MemDisk, SECTOR_SIZE};
use std::alloc::Global;
use test_help::Dice;

/// How many pages the image has, how many pairs, and how many commits are made before.
const PAGES: u16 = 48;

const PAIRS: u8 = 30;

const COMMITS: usize = 60;

/// Of so many writes all subsets are tried, and of more so many random ones.
const ALL_OF: usize = 8;

const SUBSETS: usize = 200;

/// More calls than a commit makes.
const CALLS: u64 = 2_000;

/// What was seen of a commit that is stopped at each call.
#[derive(Clone, Copy)]
pub(crate) struct Seen {
    /// At how many calls it was stopped.
    pub crashes: usize,
    /// How many images were left, and how many of them with the new pairs.
    pub images: usize,
    pub new: usize,
}

/// The pairs before and after a commit.
#[derive(Drop)]
struct Sides {
    old: Vec<Bytes>,
    new: Vec<Bytes>,
}

/// The key of a number, as long as makes a tree of that height.
fn key(alloc: Global, height: u16, number: u8) -> Result<Vec<u8>, Trouble> {
    let length = if height > 2 { 299 } else { 3 };
    let mut key = vec![in alloc; b'k'; length]?;
    key.push(number)?;
    Ok(key)
}

/// Puts a value at a key.
fn put(
    alloc: Global,
    keeper: &mut TreeKeeper<MemDisk>,
    key: &[u8],
    value: &[u8],
) -> Result<(), Trouble> {
    commit_tree(keeper, &one_edit(alloc, key, Some(value))?)
}

/// An image whose pages were used again: a tree of that height, after many commits. The pair of an even number stands there with 1,024 bytes.
pub fn used_image(alloc: Global, height: u16) -> Result<Sectors, Trouble> {
    let mut keeper = open_tree(alloc, new_tree(alloc, PAGES)?)?;
    let mut dice = Dice::new(u64::from(height));
    for number in 0..PAIRS {
        let key = key(alloc, height, 2 * number)?;
        put(alloc, &mut keeper, &key, &[number; LONGEST_VALUE])?;
    }
    for _ in 0..COMMITS {
        let number = 2 * dice.roll(PAIRS as usize) as u8;
        let key = key(alloc, height, number)?;
        if dice.roll(2) == 0 {
            commit_tree(&mut keeper, &one_edit(alloc, &key, None)?)?;
        }
        put(
            alloc,
            &mut keeper,
            &key,
            &[dice.roll(256) as u8; LONGEST_VALUE],
        )?;
    }
    let image = image_of(alloc, &device_under(keeper)?)?;
    match height_of(alloc, &image)? == height {
        true => Ok(image),
        false => Err(Trouble::Wrong("another height")),
    }
}

/// Puts of four new keys side by side, for which one page has no room.
fn four_puts(alloc: Global, height: u16) -> Result<Vec<Edit>, Trouble> {
    let mut batch = Vec::new(alloc);
    for number in [19, 21, 23, 25] {
        let key = Bytes::from_slice(alloc, &key(alloc, height, number)?)?;
        let value = Bytes::from_slice(alloc, &[number; LONGEST_VALUE])?;
        batch.push(Edit {
            key,
            value: Some(value),
        })?;
    }
    Ok(batch)
}

/// The batch of a word: `new` puts a new key, `over` puts ten bytes over 1,024, `delete` takes a key, and `split` puts four new keys.
pub fn batch_of(alloc: Global, height: u16, word: &str) -> Result<Vec<Edit>, Trouble> {
    match word {
        "new" => one_edit(alloc, &key(alloc, height, 21)?, Some(&[9; LONGEST_VALUE])),
        "over" => one_edit(alloc, &key(alloc, height, 20)?, Some(&[9; 10])),
        "delete" => one_edit(alloc, &key(alloc, height, 20)?, None),
        "split" => four_puts(alloc, height),
        _ => Err(Trouble::Line),
    }
}

/// Counts the writes since a disk's last sync.
fn unsynced(disk: &MemDisk) -> usize {
    let mut count = 0usize;
    for call in disk.writes_and_syncs() {
        match call {
            Call::Write(_, _) => count = count.saturating_add(1),
            Call::Sync => count = 0,
        }
    }
    count
}

/// The places below a count whose bits a number has.
fn bits(alloc: Global, count: usize, number: usize) -> Result<Vec<usize>, Trouble> {
    let mut picks = Vec::new(alloc);
    let mut left = number;
    for place in 0..count {
        if left % 2 == 1 {
            picks.push(place)?;
        }
        left /= 2;
    }
    Ok(picks)
}

/// Some of the places below a count: none, all, or random ones.
fn some(alloc: Global, count: usize, turn: usize, dice: &mut Dice) -> Result<Vec<usize>, Trouble> {
    let mut picks = Vec::new(alloc);
    for place in 0..count {
        let is_picked = match turn {
            0 => false,
            1 => true,
            _ => dice.roll(2) == 0,
        };
        if is_picked {
            picks.push(place)?;
        }
    }
    Ok(picks)
}

/// Whether an image has the new pairs, or the old ones. It takes one more commit.
fn is_new(alloc: Global, sides: &Sides, image: Sectors) -> Result<bool, Trouble> {
    let mut keeper = open_tree(alloc, MemDisk::of(alloc, image)?)?;
    let pairs = pairs_of(alloc, &mut keeper)?;
    let is_new = pairs == sides.new;
    if !is_new && pairs != sides.old {
        return Err(Trouble::Wrong("neither the old pairs nor the new ones"));
    }
    put(alloc, &mut keeper, b"z", &[7; 7])?;
    match value_of(alloc, &mut keeper, b"z")? {
        Some(value) if value.as_slice() == [7; 7].as_slice() => Ok(is_new),
        _ => Err(Trouble::Wrong("the next commit does not show")),
    }
}

/// Tries what a stop leaves of a disk with those picks.
fn try_left(
    alloc: Global,
    disk: &MemDisk,
    sides: &Sides,
    picks: &[usize],
    is_done: bool,
    seen: &mut Seen,
) -> Result<(), Trouble> {
    let is_new = is_new(alloc, sides, disk.after_stop(alloc, picks)?)?;
    if is_done && !is_new {
        return Err(Trouble::Wrong("what was answered is lost"));
    }
    seen.images = seen.images.saturating_add(1);
    seen.new = seen.new.saturating_add(is_new as usize);
    Ok(())
}

/// Tries what a stop leaves of a disk: with all subsets of few writes, and with some of many.
fn try_all_left(
    alloc: Global,
    disk: &MemDisk,
    sides: &Sides,
    is_done: bool,
    seen: &mut Seen,
) -> Result<(), Trouble> {
    let count = unsynced(disk);
    if count <= ALL_OF {
        for number in 0..1usize << count {
            let picks = bits(alloc, count, number)?;
            try_left(alloc, disk, sides, &picks, is_done, seen)?;
        }
        return Ok(());
    }
    let mut dice = Dice::new(seen.crashes as u64);
    for turn in 0..SUBSETS + 2 {
        let picks = some(alloc, count, turn, &mut dice)?;
        try_left(alloc, disk, sides, &picks, is_done, seen)?;
    }
    Ok(())
}

/// A commit whose disk fails after so many calls: whether it was answered, and the disk. None where the opening was not done.
fn stopped(
    alloc: Global,
    image: &[[u8; SECTOR_SIZE]],
    batch: &[Edit],
    calls: u64,
) -> Result<Option<(bool, MemDisk)>, Trouble> {
    let fuse = FuseDisk::new(disk_of(alloc, image)?, calls);
    let Ok(mut keeper) = open_tree(alloc, fuse) else {
        return Ok(None);
    };
    let is_done = match commit_tree(&mut keeper, batch) {
        Ok(()) => true,
        Err(Trouble::Keeper(KeeperFault::Device | KeeperFault::Failed)) => false,
        Err(trouble) => return Err(trouble),
    };
    Ok(Some((is_done, device_under(keeper)?.into_inner())))
}

/// The pairs of an image before and after a batch.
fn sides_of(alloc: Global, image: &[[u8; SECTOR_SIZE]], batch: &[Edit]) -> Result<Sides, Trouble> {
    let mut keeper = open_tree(alloc, disk_of(alloc, image)?)?;
    let old = pairs_of(alloc, &mut keeper)?;
    commit_tree(&mut keeper, batch)?;
    let new = pairs_of(alloc, &mut keeper)?;
    match old == new {
        true => Err(Trouble::Wrong("the batch changes nothing")),
        false => Ok(Sides { old, new }),
    }
}

/// Ends the commit of a batch at each call: every image that is left has the old pairs or the new ones, the new ones once it is answered, and takes one more commit.
pub fn survives(
    alloc: Global,
    image: &[[u8; SECTOR_SIZE]],
    batch: &[Edit],
) -> Result<Seen, Trouble> {
    let sides = sides_of(alloc, image, batch)?;
    let mut seen = Seen {
        crashes: 0,
        images: 0,
        new: 0,
    };
    for calls in 0..CALLS {
        let Some((is_done, disk)) = stopped(alloc, image, batch, calls)? else {
            continue;
        };
        seen.crashes = seen.crashes.saturating_add(1);
        try_all_left(alloc, &disk, &sides, is_done, &mut seen)?;
        if is_done {
            return Ok(seen);
        }
    }
    Err(Trouble::Wrong("the commit has no end"))
}
