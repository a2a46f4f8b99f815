// What an opening asks a disk for.
use crate::crashes::used_image;
use crate::made::{device_under, disk_of, open_tree};
use crate::trouble::Trouble;
use cow_tree::TreeKeeper;
use page_store::Keeper;
use sector_device::{MemDisk, OnceDisk};
use std::alloc::Global;

/// How many calls an opening makes, and how many pages the tree has.
#[derive(Clone, Copy)]
pub(crate) struct Seen {
    pub calls: u64,
    pub held: u64,
}

/// Whether the first call of an opening is a write or a sync: it is the one that fails then.
fn begins_with_a_write_or_sync(alloc: Global, disk: MemDisk) -> Result<bool, Trouble> {
    match TreeKeeper::open(alloc, OnceDisk::new(disk, 0)) {
        Ok(_) => Err(Trouble::Wrong("it opens without its first call")),
        Err((_, once)) => Ok(once.refused_writes() == 1 && once.refused_reads() == 0),
    }
}

/// The opening of an image whose tree has this height. It begins with its one sync, writes nothing, and reads as often as the root slots and the tree's pages have sectors.
pub fn opening(alloc: Global, height: u16) -> Result<Seen, Trouble> {
    let image = used_image(alloc, height)?;
    if !begins_with_a_write_or_sync(alloc, disk_of(alloc, &image)?)? {
        return Err(Trouble::Wrong("it reads before it syncs"));
    }
    let keeper = open_tree(alloc, disk_of(alloc, &image)?)?;
    let pages = (image.len() / 8) as u64;
    let held = pages
        .saturating_sub(2)
        .saturating_sub(keeper.figures().free);
    let disk = device_under(keeper)?;
    if disk.writes_and_syncs().len() != 1 {
        return Err(Trouble::Wrong("not one sync alone"));
    }
    let calls = disk.calls();
    match calls == held.saturating_mul(8).saturating_add(17) {
        true => Ok(Seen { calls, held }),
        false => Err(Trouble::Wrong("it reads more or less often")),
    }
}
