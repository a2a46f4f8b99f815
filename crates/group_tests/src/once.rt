// A flush in which one call of the disk fails, once.
use crate::script::Script;
use crate::sites::{Image, device_under, pairs_on, run_events, site_over};
use crate::trouble::Trouble;
use group_hub::OutcomeList;
use group_world::{Event, HubFault, Outcome};
use page_store::Keeper;
use sector_device::{MemDisk, OnceDisk};
use std::alloc::Global;

/// More calls than any row makes.
const MOST_CALLS: u64 = 10_000;

/// What a hub answered, whether its call failed, and the disk.
#[derive(Drop)]
struct Told {
    outcomes: OutcomeList,
    has_failed: bool,
    disk: MemDisk,
}

/// Events of a hub in which posts wait, over a disk of whose calls this one fails.
fn run_once(alloc: Global, image: &Image, call: u64, events: &[Event]) -> Result<Told, Trouble> {
    let site = site_over(alloc, OnceDisk::new(image.disk(alloc)?, call))?;
    let (outcomes, site) = run_events(alloc, site, true, events)?;
    let once = device_under(site)?;
    Ok(Told {
        outcomes,
        has_failed: once.refused_reads() > 0 || once.refused_writes() > 0,
        disk: once.into_inner(),
    })
}

/// How often a read failed in the flush, which was made again then, and how often a write or a sync did.
#[derive(Clone, Copy)]
pub(crate) struct Seen {
    pub broken: usize,
    pub failed: usize,
}

/// What became of a flush in which a call failed.
enum Kind {
    /// `Broken`, and a second flush and all behind it were answered as the first one is else.
    Broken,
    /// `Failed`, and all behind it too.
    Failed,
    Other,
}

fn is_failed(outcome: &Outcome) -> bool {
    matches!(outcome, Outcome::Fault(HubFault::Failed))
}

/// What became of the first flush, by all that is answered from it on, and would be without a failure.
fn kind_of(answered: &[Outcome], wanted: &[Outcome]) -> Kind {
    match (answered, wanted) {
        ([Outcome::Fault(HubFault::Broken), again, rest @ ..], [flushed, _, replies @ ..])
            if again == flushed && rest == replies => Kind::Broken,
        ([first, rest @ ..], _) if is_failed(first) && rest.iter().all(is_failed) => Kind::Failed,
        _ => Kind::Other,
    }
}

/// The place of the first flush.
fn flush_in(events: &[Event]) -> Option<usize> {
    events
        .iter()
        .position(|event| matches!(event, Event::Flush))
}

/// The outcomes before a place, and those from it on.
fn parts(told: &Told, place: usize) -> (&[Outcome], &[Outcome]) {
    let all = told.outcomes.as_slice();
    (
        all.get(..place).unwrap_or(all),
        all.get(place..).unwrap_or(&[]),
    )
}

impl Seen {
    /// Adds a flush in which a call failed. Where it was made again the site is that of a run without a failure.
    fn add(
        &mut self,
        alloc: Global,
        kind: Kind,
        disk: MemDisk,
        whole: MemDisk,
    ) -> Result<(), Trouble> {
        match kind {
            Kind::Broken => self.broken = self.broken.saturating_add(1),
            Kind::Failed => {
                self.failed = self.failed.saturating_add(1);
                return Ok(());
            }
            Kind::Other => return Err(Trouble::Wrong("another answer to a flush")),
        }
        let (one, other) = (pairs_on(alloc, disk)?, pairs_on(alloc, whole)?);
        match one.as_slice() == other.as_slice() {
            true => Ok(()),
            false => Err(Trouble::Wrong("another site")),
        }
    }
}

/// Events with two flushes, with one failing call in the first: each of its calls in turn.
pub fn once(alloc: Global, image: &Image, script: &Script) -> Result<Seen, Trouble> {
    let place = flush_in(script.events()).ok_or(Trouble::Line)?;
    let mut seen = Seen {
        broken: 0,
        failed: 0,
    };
    for call in 0..MOST_CALLS {
        let one = match run_once(alloc, image, call, script.events()) {
            Ok(one) => one,
            Err(Trouble::Open(_)) => continue,
            Err(trouble) => return Err(trouble),
        };
        if !one.has_failed {
            return Ok(seen);
        }
        let whole = run_once(alloc, image, MOST_CALLS, script.events())?;
        let (before, answered) = parts(&one, place);
        let (same, wanted) = parts(&whole, place);
        if before == same {
            let kind = kind_of(answered, wanted);
            seen.add(alloc, kind, one.disk, whole.disk)?;
        }
    }
    Err(Trouble::Wrong("a flush without an end"))
}
