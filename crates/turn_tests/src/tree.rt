// The same site over a tree on a disk in memory.
ghost use Rattle.std.specs.Prelude.{◌≡◌, [], IfOk, IsTrue};
ghost use Rattle.host_types.specs.Site.{IsSite};

use crate::site::{NotReady, filled_hub};
use cow_tree::TreeKeeper;
use group_hub::Hub;
use host_on_disk::open_site;
use host_types::{SiteKeeper, Stamp};
use image_commands::{SiteNames, format_image};
use sector_device::MemDisk;
use site_store::DiskSite;
use std::alloc::Global;

/// How many pages the disk has.
const PAGES: u16 = 64;

pub(crate) type TreeSite = DiskSite<TreeKeeper<MemDisk>>;

/// An empty site on a disk. No pin of it is out.
fn empty_tree(alloc: Global) -> Result<TreeSite, NotReady>
    ensures unpinned { IfOk result (λ site. (⟦<DiskSite<TreeKeeper<MemDisk>> as SiteKeeper>⟧.site_state site).pins ≡ []) }
    ensures valid { IfOk result (λ site. IsTrue (⟦<DiskSite<TreeKeeper<MemDisk>> as SiteKeeper>⟧.site_state site).honest → ∥ IsSite (⟦<DiskSite<TreeKeeper<MemDisk>> as SiteKeeper>⟧.site_state site).site ∥₁) }
{
    let names = SiteNames::new(b"localhost", b"Ada <ada@localhost>", b"Top")?;
    let mut disk = MemDisk::new(alloc, 8 * usize::from(PAGES))?;
    let made = format_image(
        alloc,
        &mut disk,
        u32::from(PAGES),
        names,
        7070,
        Stamp::start(),
    );
    if made.is_err() {
        return Err(NotReady);
    }
    match open_site(alloc, disk) {
        Ok(site) => Ok(site),
        Err(_) => Err(NotReady),
    }
}

/// A hub over the site of the tests on a disk, in which posts wait or don't.
pub fn tree_hub(alloc: Global, is_grouped: bool) -> Result<Hub<TreeSite>, NotReady> {
    filled_hub(alloc, empty_tree(alloc)?, is_grouped)
}
