// Images of version 1, and what becomes of them.
use crate::crashes::{device_under, disk_of, kept, kept_after, kept_and_used, sets_of};
use crate::disks::unsynced;
use crate::keepers::pairs_of;
use crate::made::change;
use crate::tested::{TestedDisk, disk_under, fused, plain};
use crate::trouble::Trouble;
use cow_tree::{TreeKeeper, format};
use group_world::Event;
use host_on_disk::{OpenFault, upgrade_on};
use host_types::Bytes;
use page_store::{Banner, Keeper, KeeperFault};
use sector_device::{MemDisk, SECTOR_SIZE};
use site_records::read_record;
use std::alloc::Global;

/// An image of version 1 without pairs on a new disk of so many pages.
fn empty(alloc: Global, pages: u32, banner: &Banner) -> Result<MemDisk, Trouble> {
    let mut first = banner.clone()?;
    first.version = 1;
    if first.port == 0 {
        return Err(Trouble::Line);
    }
    let mut disk = MemDisk::new(alloc, 8 * pages as usize)?;
    format(alloc, &mut disk, pages, first, &[])?;
    Ok(disk)
}

/// A value in version 1: that of a record doesn't say when its item expires.
fn lowered(alloc: Global, key: &[u8], value: &[u8]) -> Result<Bytes, Trouble> {
    match key {
        [b'I', ..] => Ok(read_record(alloc, value)?.to_bytes_v1(alloc)?),
        _ => Ok(Bytes::from_slice(alloc, value)?),
    }
}

/// Puts the pairs of a keeper, keys and values by turns, into another one in version 1.
fn put_lowered(
    alloc: Global,
    keeper: &mut TreeKeeper<MemDisk>,
    pairs: &[Bytes],
) -> Result<(), Trouble> {
    for place in 0..pairs.len() / 2 {
        let key = pairs[2 * place].as_slice();
        let value = lowered(alloc, key, pairs[2 * place + 1].as_slice())?;
        change(alloc, keeper, key, Some(value.as_slice()))?;
    }
    Ok(())
}

/// The site of an image in version 1, on so many pages.
pub fn in_version_1(
    alloc: Global,
    image: &[[u8; SECTOR_SIZE]],
    pages: u32,
) -> Result<Vec<[u8; SECTOR_SIZE]>, Trouble> {
    let mut keeper = kept(alloc, disk_of(alloc, image)?)?;
    let pairs = pairs_of(alloc, &mut keeper)?;
    let mut first = kept(alloc, empty(alloc, pages, keeper.banner())?)?;
    put_lowered(alloc, &mut first, &pairs)?;
    Ok(device_under(first)?.after_stop(alloc, &[])?)
}

/// Whether the image on a disk was upgraded, and the disk.
fn upgraded(alloc: Global, device: TestedDisk) -> (bool, MemDisk) {
    match upgrade_on(alloc, device) {
        Ok((_count, device)) => (true, disk_under(device)),
        Err((_fault, device)) => (false, disk_under(device)),
    }
}

/// The image of a site in version 1 is upgraded on a disk that crashes after so many calls: whether that was done. Each image that the crash leaves, by the sets of the writes since the last sync, is upgraded to the
/// same site, and can be used.
pub fn upgrades(
    alloc: Global,
    image: &[[u8; SECTOR_SIZE]],
    calls: u64,
    used: &[Event],
) -> Result<bool, Trouble> {
    let before = kept_after(alloc, image, &[], 0)?;
    let pages = u32::try_from(image.len() / 8).or(Err(Trouble::Line))?;
    let first = in_version_1(alloc, image, pages)?;
    let device = fused(disk_of(alloc, &first)?, calls);
    let (is_done, disk) = upgraded(alloc, device);
    for picks in &sets_of(alloc, unsynced(&disk), calls)? {
        let left = MemDisk::of(alloc, disk.after_stop(alloc, picks)?)?;
        let (is_new, left) = upgraded(alloc, plain(left));
        if !is_new || kept_and_used(alloc, left, used)?.as_slice() != before.as_slice() {
            return Err(Trouble::Wrong("another site"));
        }
    }
    Ok(is_done)
}

/// How the upgrade of an image of version 1 on so many pages goes: `full`, which leaves the image as it is, or `done`, after which it is of version 2, and nothing is written again.
pub fn outcome(
    alloc: Global,
    image: &[[u8; SECTOR_SIZE]],
    pages: u32,
) -> Result<&'static str, Trouble> {
    let first = in_version_1(alloc, image, pages)?;
    let (fault, disk) = match upgrade_on(alloc, disk_of(alloc, &first)?) {
        Ok((_count, disk)) => return again(alloc, disk),
        Err(failed) => failed,
    };
    match fault {
        OpenFault::Keeper(KeeperFault::Full { .. }) => {}
        fault => return Err(Trouble::from(fault)),
    }
    if disk.after_stop(alloc, &[])?.as_slice() != first.as_slice() {
        return Err(Trouble::Wrong("the image changed"));
    }
    Ok("full")
}

/// `done`, where an image of version 2 is not upgraded again.
fn again(alloc: Global, disk: MemDisk) -> Result<&'static str, Trouble> {
    let left = disk.after_stop(alloc, &[])?;
    let (is_zero, disk) = match upgrade_on(alloc, disk) {
        Ok((count, disk)) => (count == 0, disk),
        Err((_fault, disk)) => (false, disk),
    };
    if !is_zero || disk.after_stop(alloc, &[])?.as_slice() != left.as_slice() {
        return Err(Trouble::Wrong("it was written again"));
    }
    Ok("done")
}
