// Events on a disk of whose calls one fails, once.
use crate::crashes::{compacted, disk_of, kept_after, leaves};
use crate::tested::{disk_under, failing_once};
use crate::trouble::Trouble;
use group_hub::OutcomeList;
use group_world::{Event, HubFault, Outcome};
use host_on_disk::run_on;
use sector_device::{MemDisk, SECTOR_SIZE};
use std::alloc::Global;

/// The events, and the last of them again.
fn twice(alloc: Global, events: &[Event]) -> Result<Vec<Event>, Trouble> {
    let mut all = Vec::new(alloc);
    for event in events {
        all.push(event.clone()?)?;
    }
    if let Some(last) = events.last() {
        all.push(last.clone()?)?;
    }
    Ok(all)
}

/// What events were answered, whether it took a second opening, and the disk.
#[derive(Drop)]
struct Told {
    outcomes: OutcomeList,
    is_second: bool,
    disk: MemDisk,
}

/// Events on a disk of whose calls one fails. Where that is one of the opening, the device that is handed back opens.
fn ran(
    alloc: Global,
    image: &[[u8; SECTOR_SIZE]],
    events: &[Event],
    call: u64,
) -> Result<Told, Trouble> {
    let device = failing_once(disk_of(alloc, image)?, call);
    let (first, is_second) = match run_on(alloc, false, device, 1, events) {
        Ok(first) => (Ok(first), false),
        Err((_, device)) => (run_on(alloc, false, device, 1, events), true),
    };
    match first {
        Ok((outcomes, device)) => Ok(Told {
            outcomes,
            is_second,
            disk: disk_under(device),
        }),
        Err((fault, _)) => Err(Trouble::from(fault)),
    }
}

/// What became of the last event, which is made twice.
#[derive(Clone, Copy)]
enum Kind {
    /// As without a failure.
    Answered,
    /// `Broken`, and then as without a failure.
    Broken,
    /// `Failed`, and again.
    Failed,
    Other,
}

fn kind_of(answered: &[Outcome], wanted: &[Outcome]) -> Kind {
    let ([before @ .., first, again], [same @ .., told, _]) = (answered, wanted) else {
        return Kind::Other;
    };
    match (first, again) {
        _ if before != same => Kind::Other,
        _ if first == told => Kind::Answered,
        (Outcome::Fault(HubFault::Broken), again) if again == told => Kind::Broken,
        (Outcome::Fault(HubFault::Failed), Outcome::Fault(HubFault::Failed)) => Kind::Failed,
        _ => Kind::Other,
    }
}

/// Events on a disk of whose calls one fails, the last of them made twice: whether that was a call of the opening, and then all is answered by the second one; or a read of the last event, which
/// is `Broken`, and answered when it is made again; or a write or a sync, by which it is `Failed` for good; or none of these. The site is then the one that was told; each image that a crash
/// leaves after a failure is it, or the one without the last change, and can be used.
pub fn once(
    alloc: Global,
    image: &[[u8; SECTOR_SIZE]],
    events: &[Event],
    call: u64,
    used: &[Event],
) -> Result<&'static str, Trouble> {
    let all = twice(alloc, events)?;
    let wanted = ran(alloc, image, &all, u64::MAX)?.outcomes;
    let Told {
        outcomes,
        is_second,
        disk,
    } = ran(alloc, image, &all, call)?;
    let (ended, is_told) = match kind_of(outcomes.as_slice(), wanted.as_slice()) {
        Kind::Answered if is_second => ("unopened", true),
        Kind::Answered => ("answered", true),
        Kind::Broken => ("broken", true),
        Kind::Failed => ("failed", false),
        Kind::Other => return Err(Trouble::Wrong("another answer")),
    };
    let told = events.len().saturating_sub(usize::from(!is_told));
    let acknowledged = kept_after(alloc, image, events, told)?;
    let done = kept_after(alloc, image, events, events.len())?;
    leaves(alloc, &disk, call, used, &[&acknowledged, &done])?;
    Ok(ended)
}

/// The image of a site is written anew on a disk of whose calls one fails: whether that was done. Each image that a crash leaves then is the same site, and can be used. Where it was not done, the
/// disk is written anew then.
pub fn compacts_once(
    alloc: Global,
    image: &[[u8; SECTOR_SIZE]],
    call: u64,
    used: &[Event],
) -> Result<bool, Trouble> {
    let before = kept_after(alloc, image, &[], 0)?;
    let device = failing_once(disk_of(alloc, image)?, call);
    let (is_done, device) = compacted(alloc, device);
    let disk = disk_under(device);
    leaves(alloc, &disk, call, used, &[&before])?;
    if !is_done {
        let (is_now, disk) = compacted(alloc, disk);
        leaves(alloc, &disk, call, used, &[&before])?;
        if !is_now {
            return Err(Trouble::Wrong("it is not written anew"));
        }
    }
    Ok(is_done)
}
