// Groups of posts in images of many sizes: those that fit go in one commit, and of the others each post by itself.
ghost use Rattle.std.specs.Prelude.{◌≡◌};

use crate::script::Script;
use crate::sites::{Image, Ran, device_under, pairs_on, ran_on, site_on};
use crate::trouble::Trouble;
use group_world::{Event, Outcome};
use host_types::{Change, ChangesFault, SiteKeeper, Stamp};
use page_store::Keeper;
use sector_device::MemDisk;
use std::alloc::Global;

/// How many images took the whole group in one commit, how many took each post by itself, and how many left some.
#[derive(Clone, Copy)]
pub(crate) struct Seen {
    pub whole: usize,
    pub singly: usize,
    pub short: usize,
}

/// Copies of some changes with their moments.
fn copies(alloc: Global, posts: &[(Change, Stamp)]) -> Result<Vec<(Change, Stamp)>, Trouble> {
    let mut copies = Vec::new(alloc);
    for (change, now) in posts {
        copies.push((change.clone()?, *now))?;
    }
    Ok(copies)
}

/// The disk behind all posts in one step, where they fit.
fn together(alloc: Global, image: &Image, script: &Script) -> Result<Option<MemDisk>, Trouble> {
    let posts = copies(alloc, &script.posts)?;
    let mut site = site_on(alloc, image.disk(alloc)?, u64::MAX)?;
    match site.change_all(posts) {
        Ok(()) => Ok(Some(device_under(site)?.into_inner())),
        Err(ChangesFault::Full { .. } | ChangesFault::Deep) => Ok(None),
        Err(_) => Err(Trouble::Wrong("another fault of a group")),
    }
}

/// All events but the last, a flush, in a hub that makes each post at once.
fn at_once(alloc: Global, image: &Image, script: &Script) -> Result<Ran, Trouble> {
    let events: &[Event] = match script.events() {
        [before @ .., Event::Flush] => before,
        _ => return Err(Trouble::Line),
    };
    ran_on(alloc, image.disk(alloc)?, u64::MAX, false, events)
}

/// How many posts were made at once.
fn made(outcomes: &[Outcome]) -> usize {
    let mut count = 0usize;
    for outcome in outcomes {
        if matches!(outcome, Outcome::Ready) {
            count = count.saturating_add(1);
        }
    }
    count
}

/// Whether a flush answered so many and left so many, in so many commits, and the site is that of another disk.
fn is_flushed(
    alloc: Global,
    image: &Image,
    flushed: Ran,
    (answered, left, commits): (usize, usize, u64),
    wanted: MemDisk,
) -> Result<bool, Trouble> {
    let told = Outcome::Flushed { answered, left };
    if flushed.outcomes.as_slice().last() != Some(&told)
        || flushed.generation.saturating_sub(image.generation) != commits
    {
        return Ok(false);
    }
    let (one, other) = (pairs_on(alloc, flushed.disk)?, pairs_on(alloc, wanted)?);
    Ok(one.as_slice() == other.as_slice())
}

/// The group in one image.
fn flush_in(
    alloc: Global,
    image: &Image,
    script: &Script,
    seen: &mut Seen,
) -> Result<bool, Trouble> {
    let posts = script.posts.len();
    let flushed = ran_on(alloc, image.disk(alloc)?, u64::MAX, true, script.events())?;
    if let Some(disk) = together(alloc, image, script)? {
        seen.whole = seen.whole.saturating_add(1);
        return is_flushed(alloc, image, flushed, (posts, 0, 1), disk);
    }
    let each = at_once(alloc, image, script)?;
    let answered = made(each.outcomes.as_slice());
    let left = posts.saturating_sub(answered);
    seen.singly = seen.singly.saturating_add(1);
    if left > 0 {
        seen.short = seen.short.saturating_add(1);
    }
    let told = (answered, left, answered as u64);
    is_flushed(alloc, image, flushed, told, each.disk)
}

/// The group in each image of so many pages, from the first to the last.
pub fn tight(alloc: Global, first: u32, last: u32, script: &Script) -> Result<Seen, Trouble> {
    let mut seen = Seen {
        whole: 0,
        singly: 0,
        short: 0,
    };
    for pages in first..=last {
        let image = Image::new(alloc, pages, script.filling())?;
        if !flush_in(alloc, &image, script, &mut seen)? {
            return Err(Trouble::Wrong("another flush"));
        }
    }
    Ok(seen)
}
