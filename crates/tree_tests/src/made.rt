// Images in memory.
use crate::trouble::Trouble;
use common_types::{Admin, Host};
use cow_tree::TreeKeeper;
use page_store::{
    Banner, FlatKeeper, PinKeeper, Root, Slot, format_flat, slot_page, sync_all, write_page,
};
use sector_device::{Device, MemDisk, SECTOR_SIZE};
use std::alloc::Global;

/// A disk's sectors.
pub(crate) type Sectors = Vec<[u8; SECTOR_SIZE]>;

/// A banner of a version and a port.
fn banner(version: u16, port: u16) -> Result<Banner, Trouble> {
    let (Ok(host), Ok(admin)) = (Host::new(b"localhost"), Admin::new(b"Ada <ada@localhost>")) else {
        return Err(Trouble::Line);
    };
    Ok(Banner {
        version,
        host,
        port,
        admin,
    })
}

/// A new disk with an image.
pub fn disk_of(alloc: Global, image: &[[u8; SECTOR_SIZE]]) -> Result<MemDisk, Trouble> {
    Ok(MemDisk::of(alloc, image.to_vec(alloc)?)?)
}

/// The root slot of a generation over a tree without pairs, whose port tells it from others.
pub fn empty_slot(number: u32, seal: u64, pages: u32, port: u16) -> Result<Slot, Trouble> {
    Ok(Slot {
        number,
        seal,
        root: Root {
            pages,
            tree: 0,
            height: 0,
            keys: 0,
            banner: banner(1, port)?,
        },
    })
}

/// Writes a root slot to its page.
pub fn write_slot(alloc: Global, disk: &mut MemDisk, slot: &Slot) -> Result<(), Trouble> {
    if slot.number >= 2 || disk.sectors() < 16 {
        return Err(Trouble::Line);
    }
    let page = slot_page(alloc, slot)?;
    write_page(disk, slot.number, &page)?;
    Ok(sync_all(disk)?)
}

/// A disk with a fresh image of a tree: generation 1 in the first root slot, without pairs.
pub fn new_tree(alloc: Global, pages: u16) -> Result<MemDisk, Trouble> {
    let mut disk = MemDisk::new(alloc, 8 * pages as usize)?;
    let slot = empty_slot(0, 1, pages.into(), 7070)?;
    write_slot(alloc, &mut disk, &slot)?;
    Ok(disk)
}

/// A disk with a fresh image of flat pages.
pub fn new_flat(alloc: Global, pages: u16) -> Result<MemDisk, Trouble> {
    let mut disk = MemDisk::new(alloc, 8 * pages as usize)?;
    let banner = banner(0, 7070)?;
    if banner.version != 0 || banner.port == 0 {
        return Err(Trouble::Line);
    }
    format_flat(alloc, &mut disk, pages.into(), banner, &[])?;
    Ok(disk)
}

/// The keeper of the tree on a device.
pub fn open_tree<D: Device + Drop>(alloc: Global, device: D) -> Result<TreeKeeper<D>, Trouble> {
    match TreeKeeper::open(alloc, device) {
        Ok(keeper) => Ok(keeper),
        Err((fault, _)) => Err(Trouble::from(fault)),
    }
}

/// The device of a keeper, of which no pin is to be out.
pub fn device_under<D: Device + Drop>(keeper: TreeKeeper<D>) -> Result<D, Trouble> {
    if !keeper.is_unpinned() {
        return Err(Trouble::Wrong("a pin is out"));
    }
    Ok(keeper.into_device())
}

/// The keeper of the flat pages on a device.
pub fn open_flat<D: Device + Drop>(alloc: Global, device: D) -> Result<FlatKeeper<D>, Trouble> {
    match FlatKeeper::open(alloc, device) {
        Ok(keeper) => Ok(keeper),
        Err((fault, _)) => Err(Trouble::from(fault)),
    }
}

/// What reads of a disk give once it has made sure of all writes.
pub fn image_of(alloc: Global, disk: &MemDisk) -> Result<Sectors, Trouble> {
    Ok(disk.after_stop(alloc, &[])?)
}

/// The height of the tree of an image.
pub fn height_of(alloc: Global, image: &[[u8; SECTOR_SIZE]]) -> Result<u16, Trouble> {
    match current_slot(alloc, image)? {
        Some(slot) => Ok(slot.root.height),
        None => Err(Trouble::Wrong("no root slot")),
    }
}

/// The current root slot of an image.
pub fn current_slot(alloc: Global, image: &[[u8; SECTOR_SIZE]]) -> Result<Option<Slot>, Trouble> {
    let mut disk = disk_of(alloc, image)?;
    if disk.sectors() < 16 {
        return Err(Trouble::Line);
    }
    Ok(page_store::open_roots(&mut disk)?.current)
}
