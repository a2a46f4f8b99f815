// A flush on a disk that is stopped at each of its calls.
use crate::script::Script;
use crate::sites::{Image, Ran, pairs_on, ran_on};
use crate::trouble::Trouble;
use group_world::Outcome;
use host_types::Bytes;
use sector_device::{Call, MemDisk};
use std::alloc::{AllocError, Global};

/// More calls than any row makes.
const MOST_CALLS: u64 = 10_000;

/// What the site keeps behind none of the posts, behind the first, behind the first two, and so on.
type Contents = Vec<Vec<Bytes>>;

/// How often the flush was stopped, how many images that left, and how often each number of posts was there.
#[derive(Drop)]
pub(crate) struct Seen {
    alloc: Global,
    pub stops: usize,
    pub images: usize,
    pub posts: Vec<usize>,
}

/// How many writes came since the last sync.
fn unsynced(disk: &MemDisk) -> usize {
    let mut count = 0usize;
    for call in disk.writes_and_syncs() {
        match call {
            Call::Write(_, _) => count = count.saturating_add(1),
            Call::Sync => count = 0,
        }
    }
    count
}

/// Into how many parts writes are cut.
const PARTS: usize = 8;

/// Which of so many writes are on the disk after a crash: the first ones up to each of nine places, and those from each on.
fn sets_of(alloc: Global, writes: usize) -> Result<Vec<Vec<usize>>, AllocError> {
    let mut sets = Vec::new(alloc);
    for part in 0..=PARTS {
        let place = writes.saturating_mul(part) / PARTS;
        sets.push((0..place).collect(alloc)?)?;
        sets.push((place..writes).collect(alloc)?)?;
    }
    Ok(sets)
}

/// What the site keeps behind some events, where each post is made at once.
fn content_behind(
    alloc: Global,
    image: &Image,
    script: &Script,
    count: usize,
) -> Result<Vec<Bytes>, Trouble> {
    let events = script.events().get(..count).unwrap_or(&[]);
    let ran = ran_on(alloc, image.disk(alloc)?, u64::MAX, false, events)?;
    pairs_on(alloc, ran.disk)
}

/// The same behind each number of posts: one is made by each event that comes to wait in a hub whose posts do.
fn contents(
    alloc: Global,
    image: &Image,
    script: &Script,
    outcomes: &[Outcome],
) -> Result<Contents, Trouble> {
    let mut all = Vec::new(alloc);
    all.push(content_behind(alloc, image, script, 0)?)?;
    for (place, outcome) in outcomes.iter().enumerate() {
        if matches!(outcome, Outcome::Waiting) {
            all.push(content_behind(alloc, image, script, place.saturating_add(1))?)?;
        }
    }
    Ok(all)
}

/// The outcomes before the last.
fn before_last(outcomes: &[Outcome]) -> &[Outcome] {
    match outcomes {
        [before @ .., _] => before,
        [] => &[],
    }
}

/// How many posts a flush told as made.
fn told(outcomes: &[Outcome]) -> usize {
    match outcomes.last() {
        Some(Outcome::Flushed { answered, left: _ }) => *answered,
        _ => 0,
    }
}

impl Seen {
    fn none(alloc: Global, contents: &Contents) -> Result<Seen, Trouble> {
        Ok(Seen {
            alloc,
            stops: 0,
            images: 0,
            posts: vec![in alloc; 0usize; contents.len()]?,
        })
    }

    /// An image that a crash left, which has one of these contents, behind at least so many posts.
    fn look(&mut self, left: MemDisk, contents: &Contents, least: usize) -> Result<(), Trouble> {
        let content = pairs_on(self.alloc, left)?;
        let Some(posts) = contents
            .iter()
            .position(|one| one.as_slice() == content.as_slice())
        else {
            return Err(Trouble::Wrong("some of a group"));
        };
        if posts < least {
            return Err(Trouble::Wrong("a post that was told is gone"));
        }
        self.images = self.images.saturating_add(1);
        if let Some(count) = self.posts.get_mut(posts) {
            *count = count.saturating_add(1);
        }
        Ok(())
    }

    /// All images that a crash may leave behind what was answered.
    fn look_at_all(&mut self, ran: &Ran, contents: &Contents) -> Result<(), Trouble> {
        let alloc = self.alloc;
        let least = told(ran.outcomes.as_slice());
        for picks in &sets_of(alloc, unsynced(&ran.disk))? {
            let left = MemDisk::of(alloc, ran.disk.after_stop(alloc, picks)?)?;
            self.look(left, contents, least)?;
        }
        Ok(())
    }
}

/// The last of some events, a flush, stopped at each of its calls.
pub fn stops(alloc: Global, image: &Image, script: &Script) -> Result<Seen, Trouble> {
    let whole = ran_on(alloc, image.disk(alloc)?, u64::MAX, true, script.events())?;
    let contents = contents(alloc, image, script, whole.outcomes.as_slice())?;
    let mut seen = Seen::none(alloc, &contents)?;
    let before = before_last(whole.outcomes.as_slice());
    for calls in 0..MOST_CALLS {
        let ran = match ran_on(alloc, image.disk(alloc)?, calls, true, script.events()) {
            Ok(ran) => ran,
            Err(Trouble::Open(_)) => continue,
            Err(trouble) => return Err(trouble),
        };
        if before_last(ran.outcomes.as_slice()) != before {
            continue;
        }
        seen.look_at_all(&ran, &contents)?;
        if ran.outcomes.as_slice() == whole.outcomes.as_slice() {
            return Ok(seen);
        }
        seen.stops = seen.stops.saturating_add(1);
    }
    Err(Trouble::Wrong("a flush without an end"))
}
