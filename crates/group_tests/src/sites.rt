// New sites, on a disk in memory and in memory, and hubs over them.
ghost use Rattle.std.specs.Prelude.{◌≡◌, [], IfOk, IsTrue};
ghost use Rattle.host_types.specs.Site.{IsSite};
ghost use Rattle.cow_tree.specs.TreeSeen.{held};

use crate::fused::FusedDisk;
use crate::script::EVENING;
use crate::trouble::Trouble;
use cow_tree::TreeKeeper;
use group_hub::{Hub, OutcomeList};
use group_world::{Event, Outcome};
use host_on_disk::open_site;
use host_types::{Bytes, SiteKeeper, Stamp};
use image_commands::{SiteNames, format_image};
use mem_site::MemSite;
use page_store::{Keeper, LONGEST_KEY, LONGEST_VALUE};
use sector_device::{Device, MemDisk, SECTOR_SIZE};
use site_store::DiskSite;
use std::alloc::Global;
use word_search::SearchKeeper;

/// A site over a tree on a disk in memory, which fails after so many calls.
pub(crate) type TreeSite = DiskSite<TreeKeeper<FusedDisk>>;

const PORT: u16 = 7070;

fn names() -> Result<SiteNames, Trouble> {
    Ok(SiteNames::new(b"localhost", b"Ada <ada@localhost>", b"Top")?)
}

/// A site in memory whose top menu has no entries.
pub fn in_memory(alloc: Global) -> Result<MemSite, Trouble>
    ensures { IfOk result IsSite }
{
    let SiteNames { host, admin, title } = names()?;
    let now = Stamp::new(EVENING)?;
    Ok(MemSite::new(alloc, host, PORT, admin, title, now)?)
}

/// A disk of so many pages with the same site.
pub fn new_disk(alloc: Global, pages: u32) -> Result<MemDisk, Trouble> {
    let mut disk = MemDisk::new(alloc, 8 * pages as usize)?;
    let now = Stamp::new(EVENING)?;
    format_image(alloc, &mut disk, pages, names()?, PORT, now)?;
    Ok(disk)
}

/// The site on a device. No pin of it is out.
pub fn site_over<D: Device + Drop>(
    alloc: Global,
    device: D,
) -> Result<DiskSite<TreeKeeper<D>>, Trouble>
    ensures unpinned { IfOk result (λ site. (⟦<DiskSite<TreeKeeper<D>> as SiteKeeper>⟧.site_state site).pins ≡ []) }
    ensures valid { IfOk result (λ site. IsTrue (⟦<DiskSite<TreeKeeper<D>> as SiteKeeper>⟧.site_state site).honest → ∥ IsSite (⟦<DiskSite<TreeKeeper<D>> as SiteKeeper>⟧.site_state site).site ∥₁) }
{
    match open_site(alloc, device) {
        Ok(site) => Ok(site),
        Err((fault, _)) => Err(Trouble::Open(fault)),
    }
}

/// The site on a disk that passes so many calls on.
pub fn site_on(alloc: Global, disk: MemDisk, calls: u64) -> Result<TreeSite, Trouble>
    ensures unpinned { IfOk result (λ site. (⟦<TreeSite as SiteKeeper>⟧.site_state site).pins ≡ []) }
    ensures valid { IfOk result (λ site. IsTrue (⟦<TreeSite as SiteKeeper>⟧.site_state site).honest → ∥ IsSite (⟦<TreeSite as SiteKeeper>⟧.site_state site).site ∥₁) }
{
    site_over(alloc, FusedDisk::new(disk, calls))
}

/// The keeper of a site, of which no pin is to be out.
pub fn keeper_under<D: Device + Drop>(
    site: DiskSite<TreeKeeper<D>>,
) -> Result<TreeKeeper<D>, Trouble>
    ensures { IfOk result (λ keeper. (held D.state keeper).pins ≡ []) }
{
    if !site.is_unpinned() {
        return Err(Trouble::Wrong("a pin is out"));
    }
    Ok(site.into_keeper())
}

/// The device of a site, of which no pin is to be out.
pub fn device_under<D: Device + Drop>(site: DiskSite<TreeKeeper<D>>) -> Result<D, Trouble> {
    let keeper = keeper_under(site)?;
    Ok(keeper.into_device())
}

/// A hub over a site of which no pin is out, in which posts wait or don't. Its first session has the number 1.
pub fn hub_over<S: SearchKeeper + Drop>(
    alloc: Global,
    site: S,
    is_grouped: bool,
) -> Result<Hub<S>, Trouble>
    requires unpinned { (S.site_state site).pins ≡ [] }
    requires valid { IsTrue (S.site_state site).honest → ∥ IsSite (S.site_state site).site ∥₁ }
{
    if !site.is_usable() {
        return Err(Trouble::Wrong("a site that isn't usable"));
    }
    let made = match is_grouped {
        true => Hub::grouped(alloc, site, 1),
        false => Hub::new(alloc, site, 1),
    };
    match made {
        Ok(hub) => Ok(hub),
        Err((fault, _)) => Err(Trouble::Hub(fault)),
    }
}

/// What such a hub answers to some events, and the site after them.
pub fn run_events<S: SearchKeeper + Drop>(
    alloc: Global,
    site: S,
    is_grouped: bool,
    events: &[Event],
) -> Result<(OutcomeList, S), Trouble>
    requires unpinned { (S.site_state site).pins ≡ [] }
    requires valid { IsTrue (S.site_state site).honest → ∥ IsSite (S.site_state site).site ∥₁ }
{
    let mut hub = hub_over(alloc, site, is_grouped)?;
    let outcomes = hub.run(events);
    let site = hub.close();
    Ok((outcomes?, site))
}

/// What a hub over a disk answered, the generation of the image then, and the disk.
#[derive(Drop)]
pub(crate) struct Ran {
    pub outcomes: OutcomeList,
    pub generation: u64,
    pub disk: MemDisk,
}

/// Events of a hub over a disk that passes so many calls on.
pub fn ran_on(
    alloc: Global,
    disk: MemDisk,
    calls: u64,
    is_grouped: bool,
    events: &[Event],
) -> Result<Ran, Trouble> {
    let site = site_on(alloc, disk, calls)?;
    let (outcomes, site) = run_events(alloc, site, is_grouped, events)?;
    let keeper = keeper_under(site)?;
    let generation = keeper.figures().generation;
    Ok(Ran {
        outcomes,
        generation,
        disk: keeper.into_device().into_inner(),
    })
}

/// The image of a site, and its generation.
#[derive(Drop)]
pub(crate) struct Image {
    sectors: Vec<[u8; SECTOR_SIZE]>,
    pub generation: u64,
}

impl Image {
    /// An image of so many pages, whose site some events have filled.
    pub fn new(alloc: Global, pages: u32, filling: &[Event]) -> Result<Image, Trouble> {
        let ran = ran_on(alloc, new_disk(alloc, pages)?, u64::MAX, false, filling)?;
        for outcome in ran.outcomes.as_slice() {
            if let Outcome::Fault(fault) = outcome {
                return Err(Trouble::Hub(*fault));
            }
        }
        Ok(Image {
            sectors: ran.disk.after_stop(alloc, &[])?,
            generation: ran.generation,
        })
    }

    /// A new disk with the image.
    pub fn disk(&self, alloc: Global) -> Result<MemDisk, Trouble> {
        Ok(MemDisk::of(alloc, self.sectors.to_vec(alloc)?)?)
    }
}

/// All pairs of the site on a disk, keys and values by turns.
pub fn pairs_on(alloc: Global, disk: MemDisk) -> Result<Vec<Bytes>, Trouble> {
    let mut keeper = site_on(alloc, disk, u64::MAX)?.into_keeper();
    let mut all = Vec::new(alloc);
    let (mut key, mut value) = ([0; LONGEST_KEY], [0; LONGEST_VALUE]);
    let mut after = Vec::new(alloc);
    for _ in 0..100_000 {
        let Some((size, length)) = keeper.next(&after, &mut key, &mut value)? else {
            return Ok(all);
        };
        after = key[..size].to_vec(alloc)?;
        all.push(Bytes::from_slice(alloc, &key[..size])?)?;
        all.push(Bytes::from_slice(alloc, &value[..length])?)?;
    }
    Err(Trouble::Wrong("no end of pairs"))
}
