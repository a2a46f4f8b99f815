// One site in memory and one on a disk, which are asked the same.
ghost use Rattle.std.specs.Prelude.{◌≡◌, [], IfOk};

use crate::answer::answer;
use crate::fault::RowFault;
use crate::fields::number;
use cow_tree::TreeKeeper;
use group_hub::Hub;
use host_on_disk::open_site;
use host_script::small_site;
use host_types::{SiteKeeper, Stamp};
use image_commands::{SiteNames, format_image};
use mem_site::MemSite;
use sector_device::MemDisk;
use site_store::DiskSite;
use std::alloc::Global;
use word_search::SearchKeeper;

/// The small site on a disk of so many pages. No pin of it is out.
fn small_disk_site(alloc: Global, pages: u16) -> Result<DiskSite<TreeKeeper<MemDisk>>, RowFault>
    ensures { IfOk result (λ site. (⟦<DiskSite<TreeKeeper<MemDisk>> as SiteKeeper>⟧.site_state site).pins ≡ []) }
{
    let names = SiteNames::new(b"localhost", b"Ada <ada@localhost>", b"Top")?;
    let mut disk = MemDisk::new(alloc, 8 * usize::from(pages))?;
    if format_image(
        alloc,
        &mut disk,
        u32::from(pages),
        names,
        7070,
        Stamp::start(),
    )
    .is_err()
    {
        return Err(RowFault::Line);
    }
    match open_site(alloc, disk) {
        Ok(site) => Ok(site),
        Err(_) => Err(RowFault::Line),
    }
}

/// A hub over a site of which no pin is out. Its first session has this number.
fn hub_over<S: SearchKeeper + Drop>(alloc: Global, site: S, first: u64) -> Result<Hub<S>, RowFault>
    requires { (S.site_state site).pins ≡ [] }
{
    if !site.is_usable() {
        return Err(RowFault::Line);
    }
    match Hub::new(alloc, site, first) {
        Ok(hub) => Ok(hub),
        Err(_) => Err(RowFault::Memory),
    }
}

/// The hubs of the two sites, and the moment.
pub(crate) struct Sites {
    memory: Hub<MemSite>,
    disk: Hub<DiskSite<TreeKeeper<MemDisk>>>,
    now: Stamp,
}

impl Drop for Sites {
    fn drop(self) {
        let Sites {
            memory,
            disk,
            now: _,
        } = self;
        let _ = memory.close();
        let _ = disk.close();
    }
}

impl Sites {
    /// Two small sites, of which the one stands on a disk of so many pages, with sessions from this number on.
    pub fn new(alloc: Global, pages: u16, first: u64) -> Result<Sites, RowFault> {
        let site = small_disk_site(alloc, pages)?;
        let memory = hub_over(alloc, small_site(alloc)?, first)?;
        match hub_over(alloc, site, first) {
            Ok(disk) => Ok(Sites {
                memory,
                disk,
                now: Stamp::start(),
            }),
            Err(fault) => {
                let _ = memory.close();
                Err(fault)
            }
        }
    }

    /// What the sites answer to a line, where they answer the same.
    fn both(&mut self, alloc: Global, fields: &[&str], line: &str) -> Result<String, RowFault> {
        let memory = answer(alloc, &mut self.memory, fields, line, self.now)?;
        let disk = answer(alloc, &mut self.disk, fields, line, self.now)?;
        if memory == disk {
            return Ok(memory);
        }
        Ok(format!(in alloc; "memory: {memory}\ndisk: {disk}")?)
    }

    /// What is printed for a line.
    pub fn answer(&mut self, alloc: Global, line: &str) -> Result<String, RowFault> {
        let fields: Vec<&str> = line.split(' ').collect(alloc)?;
        match fields.as_slice() {
            ["sites", pages, first] => {
                *self = Sites::new(alloc, number(pages)?, number(first)?)?;
            }
            ["now", seconds] => self.now = Stamp::new(number(seconds)?)?,
            other => return self.both(alloc, other, line),
        }
        Ok(String::from_str(alloc, "ok")?)
    }
}
