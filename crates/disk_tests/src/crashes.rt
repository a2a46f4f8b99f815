// Events over a site in memory and over one on a disk, which is stopped at any of its calls.
ghost use Rattle.std.specs.Prelude.{◌≡◌, [], IfOk};

use crate::disks::unsynced;
use crate::keepers::pairs_of;
use crate::made::EVENING;
use crate::tested::{disk_under, fused};
use crate::trouble::Trouble;
use cow_tree::TreeKeeper;
use group_hub::OutcomeList;
use group_world::{Event, HubFault, Outcome};
use host_on_disk::{open_site, run_on, run_over};
use host_types::{Admin, Bytes, Host, SiteKeeper, Stamp, Title};
use image_commands::compact_image;
use mem_site::MemSite;
use page_store::{Keeper, PinKeeper};
use sector_device::{Device, MemDisk, SECTOR_SIZE};
use site_store::DiskSite;
use std::alloc::Global;
use test_help::Dice;
use word_search::SearchKeeper;

/// A site in memory whose top menu has no entries.
pub fn in_memory(alloc: Global) -> Result<MemSite, Trouble> {
    let host = Host::new(b"localhost")?;
    let admin = Admin::new(b"Ada <ada@localhost>")?;
    let title = Title::new(b"The top of it")?;
    let now = Stamp::new(EVENING)?;
    Ok(MemSite::new(alloc, host, 7070, admin, title, now)?)
}

/// The keeper of the image on a device.
pub fn kept<D: Device + Drop>(alloc: Global, device: D) -> Result<TreeKeeper<D>, Trouble> {
    match TreeKeeper::open(alloc, device) {
        Ok(keeper) => Ok(keeper),
        Err((fault, _)) => Err(Trouble::from(fault)),
    }
}

/// The keeper of a site, of which no pin is to be out.
pub fn keeper_under<D: Device + Drop>(
    site: DiskSite<TreeKeeper<D>>,
) -> Result<TreeKeeper<D>, Trouble> {
    if !site.is_unpinned() {
        return Err(Trouble::Wrong("a pin is out"));
    }
    Ok(site.into_keeper())
}

/// The device of a keeper, of which no pin is to be out.
pub fn device_under<D: Device + Drop>(keeper: TreeKeeper<D>) -> Result<D, Trouble> {
    if !keeper.is_unpinned() {
        return Err(Trouble::Wrong("a pin is out"));
    }
    Ok(keeper.into_device())
}

/// The site on a disk. No pin of it is out.
fn opened(alloc: Global, disk: MemDisk) -> Result<DiskSite<TreeKeeper<MemDisk>>, Trouble>
    ensures { IfOk result (λ site. (⟦<DiskSite<TreeKeeper<MemDisk>> as SiteKeeper>⟧.site_state site).pins ≡ []) }
{
    match open_site(alloc, disk) {
        Ok(site) => Ok(site),
        Err((fault, _)) => Err(Trouble::from(fault)),
    }
}

/// The outcomes of some events over a site of which no pin is out, and the site after them.
fn ran<S: SearchKeeper + Drop>(
    alloc: Global,
    site: S,
    events: &[Event],
) -> Result<(OutcomeList, S), Trouble>
    requires { (S.site_state site).pins ≡ [] }
{
    if !site.is_usable() {
        return Err(Trouble::Wrong("not usable"));
    }
    match run_over(alloc, false, site, 1, events) {
        Ok(ended) => Ok(ended),
        Err((fault, _)) => Err(Trouble::from(fault)),
    }
}

/// A new disk with an image.
pub fn disk_of(alloc: Global, image: &[[u8; SECTOR_SIZE]]) -> Result<MemDisk, Trouble> {
    Ok(MemDisk::of(alloc, image.to_vec(alloc)?)?)
}

/// What a script is answered by the site in memory, once that was filled.
fn outcomes_in_memory(
    alloc: Global,
    fill: &[Event],
    events: &[Event],
) -> Result<OutcomeList, Trouble> {
    let (_, site) = ran(alloc, in_memory(alloc)?, fill)?;
    let (outcomes, _) = ran(alloc, site, events)?;
    Ok(outcomes)
}

/// The pairs of a keeper, and the disk that a crash leaves of it.
fn pairs_left(
    alloc: Global,
    keeper: TreeKeeper<MemDisk>,
) -> Result<(Vec<Bytes>, MemDisk), Trouble> {
    let mut keeper = keeper;
    let pairs = pairs_of(alloc, &mut keeper)?;
    let left = device_under(keeper)?.after_stop(alloc, &[])?;
    Ok((pairs, MemDisk::of(alloc, left)?))
}

/// What a script is answered by the site of an image. What is left opens as what the site kept.
fn outcomes_on_disk(
    alloc: Global,
    image: &[[u8; SECTOR_SIZE]],
    events: &[Event],
) -> Result<OutcomeList, Trouble> {
    let (outcomes, site) = ran(alloc, opened(alloc, disk_of(alloc, image)?)?, events)?;
    let (pairs, left) = pairs_left(alloc, keeper_under(site)?)?;
    let (again, _) = pairs_left(alloc, opened(alloc, left)?.into_keeper())?;
    match again.as_slice() == pairs.as_slice() {
        true => Ok(outcomes),
        false => Err(Trouble::Wrong("another site is left")),
    }
}

/// Whether the site in memory, once it was filled, and the one of an image answer a script alike.
pub fn is_alike(
    alloc: Global,
    fill: &[Event],
    image: &[[u8; SECTOR_SIZE]],
    events: &[Event],
) -> Result<bool, Trouble> {
    let in_memory = outcomes_in_memory(alloc, fill, events)?;
    Ok(in_memory.as_slice() == outcomes_on_disk(alloc, image, events)?.as_slice())
}

/// What is kept of the site on a disk, its pairs and its host, once it answered these events without a fault.
pub fn kept_and_used(alloc: Global, disk: MemDisk, used: &[Event]) -> Result<Vec<Bytes>, Trouble> {
    let mut keeper = kept(alloc, disk)?;
    let mut pairs = pairs_of(alloc, &mut keeper)?;
    pairs.push(Bytes::from_slice(alloc, keeper.banner().host.as_bytes())?)?;
    let (outcomes, _) = ran(alloc, opened(alloc, device_under(keeper)?)?, used)?;
    for outcome in outcomes.as_slice() {
        if matches!(outcome, Outcome::Fault(_)) {
            return Err(Trouble::Wrong("the site is not used"));
        }
    }
    Ok(pairs)
}

/// Events on a disk that crashes after so many calls: how many were answered until the first call that met a failure, and the disk. None where not even the opening ended.
fn stopped(
    alloc: Global,
    image: &[[u8; SECTOR_SIZE]],
    events: &[Event],
    calls: u64,
) -> Result<Option<(usize, MemDisk)>, Trouble> {
    let device = fused(disk_of(alloc, image)?, calls);
    let Ok((outcomes, device)) = run_on(alloc, false, device, 1, events) else {
        return Ok(None);
    };
    let failed = outcomes.as_slice().iter().position(|outcome| {
        matches!(outcome, Outcome::Fault(HubFault::Failed | HubFault::Broken))
    });
    Ok(Some((failed.unwrap_or(events.len()), disk_under(device))))
}

/// What is kept after the first so many events without any crash.
pub fn kept_after(
    alloc: Global,
    image: &[[u8; SECTOR_SIZE]],
    events: &[Event],
    count: usize,
) -> Result<Vec<Bytes>, Trouble> {
    let events = events.get(..count).unwrap_or(events);
    match stopped(alloc, image, events, u64::MAX)? {
        Some((_, disk)) => kept_and_used(alloc, disk, &[]),
        None => Err(Trouble::Wrong("the image opens")),
    }
}

/// Which of so many writes are on the disk after a crash, by the bits of a number.
fn picked(alloc: Global, writes: usize, bits: u64) -> Result<Vec<usize>, Trouble> {
    let mut picks = Vec::new(alloc);
    for place in 0..writes {
        if bits >> (place % 64) & 1 == 1 {
            picks.push(place)?;
        }
    }
    Ok(picks)
}

/// Which writes since the last sync are on the disk after a crash: each set of them where they are at most six; and else none, all, each half, and eight sets by a seed.
pub fn sets_of(alloc: Global, writes: usize, seed: u64) -> Result<Vec<Vec<usize>>, Trouble> {
    let mut sets = Vec::new(alloc);
    if writes <= 6 {
        for bits in 0..1u64 << writes {
            sets.push(picked(alloc, writes, bits)?)?;
        }
        return Ok(sets);
    }
    for (from, to) in [(0, 0), (0, writes), (0, writes / 2), (writes / 2, writes)] {
        sets.push((from..to).collect(alloc)?)?;
    }
    let mut dice = Dice::new(seed);
    for _ in 0..8 {
        let bits = (dice.roll(1 << 31) as u64) << 31 | dice.roll(1 << 31) as u64;
        sets.push(picked(alloc, writes, bits)?)?;
    }
    Ok(sets)
}

fn is_one_of(kept: &[Bytes], sites: &[&Vec<Bytes>]) -> bool {
    for site in sites {
        if kept == site.as_slice() {
            return true;
        }
    }
    false
}

/// Each image that a crash leaves now, by the sets of the writes since the last sync, is one of these sites, and can be used.
pub fn leaves(
    alloc: Global,
    disk: &MemDisk,
    seed: u64,
    used: &[Event],
    sites: &[&Vec<Bytes>],
) -> Result<(), Trouble> {
    for picks in &sets_of(alloc, unsynced(disk), seed)? {
        let left = MemDisk::of(alloc, disk.after_stop(alloc, picks)?)?;
        let kept = kept_and_used(alloc, left, used)?;
        if !is_one_of(kept.as_slice(), sites) {
            return Err(Trouble::Wrong("another site"));
        }
    }
    Ok(())
}

/// Events on a disk that crashes after so many calls: whether all were answered, or none where not even the opening ended. Each image that the crash
/// leaves, by the sets of the writes since the last sync, is the site after all events that were answered, or the one with
/// the change that was under way too, and can be used.
pub fn survives(
    alloc: Global,
    image: &[[u8; SECTOR_SIZE]],
    events: &[Event],
    calls: u64,
    used: &[Event],
) -> Result<Option<bool>, Trouble> {
    let Some((answered, disk)) = stopped(alloc, image, events, calls)? else {
        return Ok(None);
    };
    let acknowledged = kept_after(alloc, image, events, answered)?;
    let unacknowledged = kept_after(alloc, image, events, answered.saturating_add(1))?;
    leaves(alloc, &disk, calls, used, &[&acknowledged, &unacknowledged])?;
    Ok(Some(answered == events.len()))
}

/// Whether the image on a device was written anew, and the device.
pub fn compacted<D: Device + Drop>(alloc: Global, device: D) -> (bool, D) {
    match compact_image(alloc, device) {
        Ok((_line, device)) => (true, device),
        Err((_fault, device)) => (false, device),
    }
}

/// The image of a site is written anew on a disk that crashes after so many calls: whether that was done. Each image that the crash leaves, by the sets of the writes since the last sync, is the same site, and
/// can be used.
pub fn compacts(
    alloc: Global,
    image: &[[u8; SECTOR_SIZE]],
    calls: u64,
    used: &[Event],
) -> Result<bool, Trouble> {
    let device = fused(disk_of(alloc, image)?, calls);
    let (is_done, device) = compacted(alloc, device);
    let before = kept_after(alloc, image, &[], 0)?;
    leaves(alloc, &disk_under(device), calls, used, &[&before])?;
    Ok(is_done)
}
