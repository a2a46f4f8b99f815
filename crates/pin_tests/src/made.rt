// New sites, on a disk in memory and in memory, and hubs over them.
ghost use Rattle.std.specs.Prelude.{◌≡◌, [], IfOk};

use crate::batches::commit;
use crate::trouble::Trouble;
use cow_tree::{TreeKeeper, format};
use group_hub::Hub;
use host_types::{Admin, Bytes, Host, SiteKeeper, Stamp, Title};
use mem_site::MemSite;
use page_store::{Banner, Edit, PinKeeper};
use sector_device::MemDisk;
use site_store::{DiskSite, first_pairs};
use std::alloc::Global;
use word_search::SearchKeeper;

/// A site over a tree on a disk in memory.
pub(crate) type TreeSite = DiskSite<TreeKeeper<MemDisk>>;

const PORT: u16 = 7070;

/// What a site is named by.
#[derive(Drop)]
struct Names {
    host: Host,
    admin: Admin,
    title: Title,
}

impl Names {
    fn new() -> Result<Names, Trouble> {
        Ok(Names {
            host: Host::new(b"localhost")?,
            admin: Admin::new(b"Ada <ada@localhost>")?,
            title: Title::new(b"Top")?,
        })
    }
}

/// The edits that put the pairs of a site of which only the top menu is there.
fn first_edits(alloc: Global, title: &Title) -> Result<Vec<Edit>, Trouble> {
    let mut edits = Vec::new(alloc);
    for pair in &first_pairs(alloc, title, Stamp::start())? {
        let key = Bytes::from_slice(alloc, pair.key())?;
        let value = Some(Bytes::from_slice(alloc, pair.value())?);
        edits.push(Edit { key, value })?;
    }
    Ok(edits)
}

/// A disk with an image of a tree without pairs.
fn formatted(alloc: Global, pages: u32, host: Host, admin: Admin) -> Result<MemDisk, Trouble> {
    let mut disk = MemDisk::new(alloc, 8 * pages as usize)?;
    let banner = Banner {
        version: 2,
        host,
        port: PORT,
        admin,
    };
    format(alloc, &mut disk, pages, banner, &[])?;
    Ok(disk)
}

/// The disk of a keeper, of which no pin is to be out.
fn device_under(keeper: TreeKeeper<MemDisk>) -> Result<MemDisk, Trouble> {
    if !keeper.is_unpinned() {
        return Err(Trouble::Wrong("a pin is out"));
    }
    Ok(keeper.into_device())
}

/// The disk of a site, of which no pin is to be out.
pub fn disk_under(site: TreeSite) -> Result<MemDisk, Trouble> {
    if !site.is_unpinned() {
        return Err(Trouble::Wrong("a pin is out"));
    }
    Ok(site.into_keeper().into_device())
}

/// A disk with a site of so many pages: its top menu, `Top`, without entries.
pub fn new_disk(alloc: Global, pages: u32) -> Result<MemDisk, Trouble> {
    let Names { host, admin, title } = Names::new()?;
    let disk = formatted(alloc, pages, host, admin)?;
    let mut keeper = match TreeKeeper::open(alloc, disk) {
        Ok(keeper) => keeper,
        Err((fault, _)) => return Err(Trouble::Keeper(fault)),
    };
    commit(&mut keeper, &first_edits(alloc, &title)?)?;
    device_under(keeper)
}

/// The same site in memory.
pub fn in_memory(alloc: Global) -> Result<MemSite, Trouble> {
    let Names { host, admin, title } = Names::new()?;
    Ok(MemSite::new(alloc, host, PORT, admin, title, Stamp::start())?)
}

/// The site on a disk, of which no pin is out.
pub fn site_on(alloc: Global, disk: MemDisk) -> Result<TreeSite, Trouble>
    ensures { IfOk result (λ site. (⟦<DiskSite<TreeKeeper<MemDisk>> as SiteKeeper>⟧.site_state site).pins ≡ []) }
{
    let keeper = match TreeKeeper::open(alloc, disk) {
        Ok(keeper) => keeper,
        Err((fault, _)) => return Err(Trouble::Keeper(fault)),
    };
    match DiskSite::open(alloc, keeper) {
        Ok(site) => Ok(site),
        Err((fault, _)) => Err(Trouble::Open(fault)),
    }
}

/// A hub over a site of which no pin is out. Its first session has the number 1.
pub fn hub_over<S: SearchKeeper + Drop>(alloc: Global, site: S) -> Result<Hub<S>, Trouble>
    requires { (S.site_state site).pins ≡ [] }
{
    if !site.is_usable() {
        return Err(Trouble::Wrong("a site that isn't usable"));
    }
    match Hub::new(alloc, site, 1) {
        Ok(hub) => Ok(hub),
        Err((fault, _)) => Err(Trouble::Hub(fault)),
    }
}
