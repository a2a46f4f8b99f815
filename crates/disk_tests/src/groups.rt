// Several changes in one step, on a disk that is stopped at any of its calls.
use crate::crashes::{disk_of, kept_after, kept_and_used, sets_of};
use crate::disks::unsynced;
use crate::tested::{TestedDisk, disk_under, fused, plain};
use crate::trouble::Trouble;
use group_world::Event;
use host_on_disk::open_site;
use host_types::{Change, ChangesFault, SiteKeeper, Stamp};
use page_store::Keeper;
use sector_device::{MemDisk, SECTOR_SIZE};
use std::alloc::Global;

/// The administrator's changes among some events, each with its moment.
fn group_of(alloc: Global, events: &[Event]) -> Result<Vec<(Change, Stamp)>, Trouble> {
    let mut group = Vec::new(alloc);
    for event in events {
        if let Event::Admin { change, now } = event {
            group.push((change.clone()?, *now))?;
        }
    }
    Ok(group)
}

/// How the changes of a group went, by how many generations the image rose, and the disk; none where the image was not opened.
fn made(
    alloc: Global,
    device: TestedDisk,
    group: Vec<(Change, Stamp)>,
) -> (Option<(Result<(), ChangesFault>, u64)>, MemDisk) {
    let mut site = match open_site(alloc, device) {
        Ok(site) => site,
        Err((_, device)) => return (None, disk_under(device)),
    };
    let ended = site.change_all(group);
    let keeper = site.into_keeper();
    let generation = keeper.figures().generation;
    (Some((ended, generation)), disk_under(keeper.into_device()))
}

/// The changes of a group in one step on a disk that crashes after so many calls: whether they are made. Each image that the crash leaves, by the sets of the writes since the last sync, is the site with none or
/// with all of them, and can be used.
pub fn groups(
    alloc: Global,
    image: &[[u8; SECTOR_SIZE]],
    events: &[Event],
    calls: u64,
    used: &[Event],
) -> Result<bool, Trouble> {
    let device = fused(disk_of(alloc, image)?, calls);
    let (ended, disk) = made(alloc, device, group_of(alloc, events)?);
    let is_done = matches!(ended, Some((Ok(()), _)));
    let before = kept_after(alloc, image, &[], 0)?;
    let after = kept_after(alloc, image, events, events.len())?;
    for picks in &sets_of(alloc, unsynced(&disk), calls)? {
        let left = MemDisk::of(alloc, disk.after_stop(alloc, picks)?)?;
        let kept = kept_and_used(alloc, left, used)?;
        if kept.as_slice() != after.as_slice()
            && (is_done || kept.as_slice() != before.as_slice())
        {
            return Err(Trouble::Wrong("some of the changes"));
        }
    }
    Ok(is_done)
}

/// How the changes of a group go, and the generation of the image then.
pub fn together(
    alloc: Global,
    image: &[[u8; SECTOR_SIZE]],
    events: &[Event],
) -> Result<(Result<(), ChangesFault>, u64), Trouble> {
    let device = plain(disk_of(alloc, image)?);
    match made(alloc, device, group_of(alloc, events)?) {
        (Some(ended), _) => Ok(ended),
        (None, _) => Err(Trouble::Wrong("the image opens")),
    }
}
