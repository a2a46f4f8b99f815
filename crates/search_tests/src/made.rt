// New sites: on a disk in memory, and in memory.
use crate::batches::commit;
use crate::counting::{CountingDisk, Reads};
use crate::trouble::Trouble;
use cow_tree::{TreeKeeper, format};
use host_types::{Admin, Bytes, Host, Stamp, Title};
use mem_site::MemSite;
use page_store::{Banner, Edit, PinKeeper};
use sector_device::{MemDisk, SECTOR_SIZE};
use site_store::{DiskSite, first_pairs};
use std::alloc::Global;

/// A site over a tree on a disk in memory.
pub(crate) type TreeSite = DiskSite<Tree>;

/// A tree on a disk in memory whose reads are counted.
pub(crate) type Tree = TreeKeeper<CountingDisk>;

/// How many pages an image has.
const PAGES: u16 = 256;

const PORT: u16 = 7070;

/// What a site is named by.
#[derive(Drop)]
struct Names {
    host: Host,
    admin: Admin,
    title: Title,
}

impl Names {
    fn new() -> Result<Names, Trouble> {
        Ok(Names {
            host: Host::new(b"localhost")?,
            admin: Admin::new(b"Ada <ada@localhost>")?,
            title: Title::new(b"top")?,
        })
    }
}

/// The edits that put the pairs of a site of which only the top menu is there.
fn first_edits(alloc: Global, title: &Title) -> Result<Vec<Edit>, Trouble> {
    let mut edits = Vec::new(alloc);
    for pair in &first_pairs(alloc, title, Stamp::start())? {
        let key = Bytes::from_slice(alloc, pair.key())?;
        let value = Some(Bytes::from_slice(alloc, pair.value())?);
        edits.push(Edit { key, value })?;
    }
    Ok(edits)
}

/// A disk with an image of a tree without pairs.
fn formatted(alloc: Global, host: Host, admin: Admin) -> Result<MemDisk, Trouble> {
    let mut disk = MemDisk::new(alloc, 8 * PAGES as usize)?;
    let banner = Banner {
        version: 2,
        host,
        port: PORT,
        admin,
    };
    format(alloc, &mut disk, PAGES.into(), banner, &[])?;
    Ok(disk)
}

fn keeper_on(alloc: Global, disk: MemDisk, reads: Reads) -> Result<Tree, Trouble> {
    match TreeKeeper::open(alloc, CountingDisk::new(disk, reads)) {
        Ok(keeper) => Ok(keeper),
        Err((fault, _)) => Err(Trouble::Keeper(fault)),
    }
}

/// The disk of a keeper, of which no pin is to be out.
pub fn device_under(keeper: Tree) -> Result<CountingDisk, Trouble> {
    if !keeper.is_unpinned() {
        return Err(Trouble::Wrong("a pin is out"));
    }
    Ok(keeper.into_device())
}

/// The site on a disk.
pub fn site_on(alloc: Global, disk: CountingDisk) -> Result<TreeSite, Trouble> {
    let keeper = match TreeKeeper::open(alloc, disk) {
        Ok(keeper) => keeper,
        Err((fault, _)) => return Err(Trouble::Keeper(fault)),
    };
    match DiskSite::open(alloc, keeper) {
        Ok(site) => Ok(site),
        Err((fault, _)) => Err(Trouble::Open(fault)),
    }
}

/// A new site on a disk in memory: its top menu, `top`, without entries.
pub fn on_disk(alloc: Global, reads: Reads) -> Result<TreeSite, Trouble> {
    let Names { host, admin, title } = Names::new()?;
    let mut keeper = keeper_on(alloc, formatted(alloc, host, admin)?, reads)?;
    commit(&mut keeper, &first_edits(alloc, &title)?)?;
    site_on(alloc, device_under(keeper)?)
}

/// The sectors of an image.
fn sectors_of(alloc: Global, image: &[u8]) -> Result<Vec<[u8; SECTOR_SIZE]>, Trouble> {
    let mut sectors = Vec::with_capacity(alloc, image.len() / SECTOR_SIZE)?;
    for bytes in image.chunks_exact(SECTOR_SIZE) {
        let mut sector = [0; SECTOR_SIZE];
        sector.copy_from_slice(bytes);
        sectors.push(sector)?;
    }
    Ok(sectors)
}

/// The site of an image.
pub fn of_image(alloc: Global, image: &[u8], reads: Reads) -> Result<TreeSite, Trouble> {
    let disk = MemDisk::of(alloc, sectors_of(alloc, image)?)?;
    site_on(alloc, CountingDisk::new(disk, reads))
}

/// The new site in memory.
pub fn in_memory(alloc: Global) -> Result<MemSite, Trouble> {
    let Names { host, admin, title } = Names::new()?;
    Ok(MemSite::new(alloc, host, PORT, admin, title, Stamp::start())?)
}
