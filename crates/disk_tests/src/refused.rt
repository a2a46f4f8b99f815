// Calls that are made again where they find no memory. Each says what it did wrong, and else the same whether memory was refused or not.
use crate::made::{EVENING, change, found, make_site};
use cow_tree::TreeKeeper;
use host_on_disk::{OpenFault, open_site};
use host_types::{
    Bytes, Card, CardBody, Change, Item, Selector, SiteFault, SiteKeeper, Stamp, Title,
};
use page_store::{Keeper, KeeperFault, LONGEST_KEY, LONGEST_VALUE, PinKeeper};
use sector_device::{Device, MemDisk, SECTOR_SIZE};
use site_store::DiskSite;
use std::alloc::Global;
use word_search::SearchKeeper;

type Site = DiskSite<TreeKeeper<MemDisk>>;

fn disk_of(alloc: Global, sectors: usize) -> Result<MemDisk, &'static str> {
    match MemDisk::new(alloc, sectors) {
        Ok(disk) => Ok(disk),
        Err(_) => MemDisk::new(alloc, sectors).or(Err("no disk")),
    }
}

/// Whether the one sector has this byte throughout, and so many calls have failed.
fn shows(disk: &mut MemDisk, byte: u8, failed: u64) -> bool {
    let mut buffer = [255; SECTOR_SIZE];
    disk.sectors() == 1
        && disk.read(0, &mut buffer).is_ok()
        && buffer == [byte; SECTOR_SIZE]
        && disk.failed_writes() == failed
}

/// Whether the one sector is written, or made sure of.
fn does(disk: &mut MemDisk, byte: u8, is_write: bool) -> bool {
    if disk.sectors() != 1 {
        return false;
    }
    match is_write {
        true => disk.write(0, &[byte; SECTOR_SIZE]).is_ok(),
        false => disk.sync().is_ok(),
    }
}

/// Writes and syncs over and over. One that finds no memory fails, is counted, and shows nothing. What is shown in the end, after how many calls.
pub fn written_often(alloc: Global) -> Result<(u8, usize), &'static str> {
    let mut disk = disk_of(alloc, 1)?;
    let (mut shown, mut failed) = (0, 0u64);
    for byte in 1..41 {
        for is_write in [true, false] {
            if !does(&mut disk, byte, is_write) {
                failed = failed.saturating_add(1);
                if !shows(&mut disk, shown, failed) || !does(&mut disk, byte, is_write) {
                    return Err("a failed call shows");
                }
            }
            shown = byte;
            if !shows(&mut disk, shown, failed) {
                return Err("a write does not show");
            }
        }
    }
    Ok((shown, disk.writes_and_syncs().len()))
}

/// A disk of 16 pages with an empty top menu. A format that finds no memory writes nothing, or fails as the disk does.
fn formatted(alloc: Global) -> Result<MemDisk, &'static str> {
    let mut disk = disk_of(alloc, 128)?;
    match make_site(alloc, &mut disk, 16) {
        Ok(()) => return Ok(disk),
        Err(KeeperFault::Memory) if disk.writes_and_syncs().is_empty() => {}
        Err(KeeperFault::Failed) if disk.failed_writes() > 0 => {}
        Err(_) => return Err("another fault of a format"),
    }
    match make_site(alloc, &mut disk, 16) {
        Ok(()) => Ok(disk),
        Err(_) => Err("no format"),
    }
}

/// The keeper on a disk. An opening that finds no memory hands the disk back.
fn keeper_on(alloc: Global, disk: MemDisk) -> Result<TreeKeeper<MemDisk>, &'static str> {
    let disk = match TreeKeeper::open(alloc, disk) {
        Ok(keeper) => return Ok(keeper),
        Err((KeeperFault::Memory, disk)) => disk,
        Err((KeeperFault::Device, disk)) if disk.failed_writes() > 0 => disk,
        Err(_) => return Err("another fault of an opening"),
    };
    match TreeKeeper::open(alloc, disk) {
        Ok(keeper) => Ok(keeper),
        Err(_) => Err("no opening"),
    }
}

/// The disk of a keeper, of which no pin is to be out.
pub fn disk_under(keeper: TreeKeeper<MemDisk>) -> Result<MemDisk, &'static str> {
    if !keeper.is_unpinned() {
        return Err("a pin is out");
    }
    Ok(keeper.into_device())
}

/// Puts a byte at the key `k`, or takes it away. A commit that finds no memory changes nothing, or fails as the disk does, and then for good.
fn put(
    alloc: Global,
    keeper: TreeKeeper<MemDisk>,
    value: Option<&[u8]>,
) -> Result<TreeKeeper<MemDisk>, &'static str> {
    let mut keeper = keeper;
    let before = found(&mut keeper);
    match change(alloc, &mut keeper, b"k", value) {
        Ok(()) => return Ok(keeper),
        Err(KeeperFault::Memory) if found(&mut keeper) == before => {}
        Err(KeeperFault::Failed) if found(&mut keeper) == Err(KeeperFault::Failed) => {
            keeper = keeper_on(alloc, disk_under(keeper)?)?;
        }
        Err(_) => return Err("another fault of a commit"),
    }
    match change(alloc, &mut keeper, b"k", value) {
        Ok(()) => Ok(keeper),
        Err(_) => Err("no commit"),
    }
}

/// Formats a disk, opens it, and puts a byte at the key `k`: that byte, and the keeper with the key gone again.
pub fn kept(alloc: Global) -> Result<(u8, TreeKeeper<MemDisk>), &'static str> {
    let mut keeper = keeper_on(alloc, formatted(alloc)?)?;
    keeper = put(alloc, keeper, Some(&[7; LONGEST_VALUE]))?;
    let Ok(Some(byte)) = found(&mut keeper) else {
        return Err("nothing is put");
    };
    keeper = put(alloc, keeper, None)?;
    let (mut key, mut value) = ([0; LONGEST_KEY], [0; LONGEST_VALUE]);
    match keeper.next(b"J", &mut key, &mut value) {
        Ok(Some(_)) if key[0] == b'W' => Ok((byte, keeper)),
        _ => Err("the words come behind the item"),
    }
}

/// The site on a disk. An opening that finds no memory hands the disk back.
fn site_on(alloc: Global, disk: MemDisk) -> Result<Site, &'static str> {
    let disk = match open_site(alloc, disk) {
        Ok(site) => return Ok(site),
        Err((OpenFault::Memory, disk)) => disk,
        Err((OpenFault::Keeper(KeeperFault::Device), disk)) if disk.failed_writes() > 0 => disk,
        Err(_) => return Err("another fault of a site's opening"),
    };
    match open_site(alloc, disk) {
        Ok(site) => Ok(site),
        Err(_) => Err("no site"),
    }
}

/// The change that puts a text of 1,500 bytes at `note`.
fn note(alloc: Global) -> Option<Change> {
    let text = Bytes::from_slice(alloc, &[b'x'; 1500]).ok()?;
    let stamp = Stamp::new(EVENING).ok()?;
    let item = Item::text(alloc, Title::new(b"A note").ok()?, stamp, text).ok()?;
    Some(Change::Put(Selector::new(b"note").ok()?, item))
}

fn put_note(alloc: Global, site: &mut Site) -> Result<(), SiteFault> {
    let Some(change) = note(alloc) else {
        return Err(SiteFault::Memory);
    };
    site.change(change, Stamp::start())
}

/// How long the note is. A card that finds no memory is asked for again.
fn note_length(site: &mut Site) -> Option<u32> {
    let selector = Selector::new(b"note").ok()?;
    let card = match site.card(&selector) {
        Err(SiteFault::Memory) => site.card(&selector),
        card => card,
    };
    let Card { body, .. } = card.ok()??;
    match body {
        CardBody::Views(_, views) => views.as_slice().first().map(|view| view.length),
        _ => None,
    }
}

/// Puts a note on the site of a disk: its length, and how many items a search finds. A change that finds no memory changes nothing, or fails as the disk does, and then for good.
pub fn noted(alloc: Global, disk: MemDisk) -> Result<(u32, usize), &'static str> {
    let mut site = site_on(alloc, disk)?;
    match put_note(alloc, &mut site) {
        Ok(()) => {}
        Err(fault) => {
            if fault == SiteFault::Failed && !site.is_usable() && site.is_unpinned() {
                site = site_on(alloc, site.into_keeper().into_device())?;
            } else if fault != SiteFault::Memory || note_length(&mut site).is_some() {
                return Err("another fault of a change");
            }
            if put_note(alloc, &mut site).is_err() {
                return Err("no change");
            }
        }
    }
    let Some(length) = note_length(&mut site) else {
        return Err("no note");
    };
    let top = Selector::root();
    let found = match site.search(&top, b"note", Stamp::start()) {
        Err(SiteFault::Memory) => site.search(&top, b"note", Stamp::start()),
        found => found,
    };
    match found {
        Ok(found) => Ok((length, found.as_slice().len())),
        Err(_) => Err("no search"),
    }
}
