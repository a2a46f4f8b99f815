// Events, and the scripts and crashes of an image.
use crate::bench;
use crate::bench::Bench;
use crate::crashes::{compacts, disk_of, is_alike, kept_after, kept_and_used, survives};
use crate::groups::{groups, together};
use crate::items::{change, event};
use crate::line::{Line, number, small_number, text_of};
use crate::once::{compacts_once, once};
use crate::scripts::script;
use crate::trouble::Trouble;
use crate::upgrades::{outcome, upgrades};
use group_world::Event;
use host_types::{Bytes, Change};
use std::mem;
use test_help::Dice;

/// `survives CALLS`: whether the events are all answered on a disk with the image that crashes after so many calls. What the crash leaves is
/// always one of the sites that are named, and can be used.
fn show_survival(bench: &Bench, line: &mut Line, calls: &[u8]) -> Result<(), Trouble> {
    let calls = number(calls)?;
    let ended = survives(bench.alloc, &bench.image, &bench.events, calls, &bench.used)?;
    line.word(match ended {
        None => "unopened",
        Some(false) => "stopped",
        Some(true) => "answered",
    })
}

/// `survives_once CALL`: what becomes of the events, the last of them made twice, on a disk with the image of whose calls this one fails.
fn show_once(bench: &Bench, line: &mut Line, call: &[u8]) -> Result<(), Trouble> {
    let call = number(call)?;
    line.word(once(bench.alloc, &bench.image, &bench.events, call, &bench.used)?)
}

/// `compacts_once CALL`: whether the image is written anew on a disk of whose calls this one fails. Where it isn't, it is when that is tried again.
fn show_compaction_once(bench: &Bench, line: &mut Line, call: &[u8]) -> Result<(), Trouble> {
    let is_done = compacts_once(bench.alloc, &bench.image, number(call)?, &bench.used)?;
    line.word(if is_done { "done" } else { "refused" })
}

/// `compacts CALLS`: whether the image is written anew on a disk that crashes after so many calls. What the crash leaves is always the same site, and can be used.
fn show_compaction(bench: &Bench, line: &mut Line, calls: &[u8]) -> Result<(), Trouble> {
    let is_done = compacts(bench.alloc, &bench.image, number(calls)?, &bench.used)?;
    line.word(if is_done { "done" } else { "stopped" })
}

/// `upgrades CALLS`: whether the image's site in version 1 is upgraded on a disk that crashes after so many calls. What the crash leaves is always the same site, in version 1 or 2, and can be used once it is upgraded.
fn show_upgrade(bench: &Bench, line: &mut Line, calls: &[u8]) -> Result<(), Trouble> {
    let is_done = upgrades(bench.alloc, &bench.image, number(calls)?, &bench.used)?;
    line.word(if is_done { "done" } else { "stopped" })
}

/// `upgraded PAGES`: how the upgrade of the image's site in version 1 on so many pages goes.
fn show_outcome(bench: &Bench, line: &mut Line, pages: &[u8]) -> Result<(), Trouble> {
    line.word(outcome(bench.alloc, &bench.image, u32::from(small_number(pages)?))?)
}

/// `groups CALLS`: whether the administrator's changes among the events are made in one step on a disk with the image that crashes after so many calls. What the crash leaves is the site with none or with all of them, and can be used.
fn show_group(bench: &Bench, line: &mut Line, calls: &[u8]) -> Result<(), Trouble> {
    let calls = number(calls)?;
    let is_done = groups(bench.alloc, &bench.image, &bench.events, calls, &bench.used)?;
    line.word(if is_done { "done" } else { "stopped" })
}

/// `together`: how these changes go in one step, or which is refused, and the generation of the image then.
fn show_together(bench: &Bench, line: &mut Line) -> Result<(), Trouble> {
    let (ended, generation) = together(bench.alloc, &bench.image, &bench.events)?;
    if let Err(fault) = ended {
        line.word(&format!(in bench.alloc; "{fault}")?)?;
    }
    line.number(generation)
}

/// A script of the requests and changes that were given.
fn script_of(bench: &Bench, dice: &mut Dice) -> Result<Vec<Event>, Trouble> {
    script(bench.alloc, &bench.requests, &bench.changes, dice)
}

/// `choice TIMES CHANGE`: a change that scripts make, so many times as likely as one.
fn choose(bench: &mut Bench, times: &[u8], word: &[u8], fields: &[Vec<u8>]) -> Result<(), Trouble> {
    let change = change(bench.alloc, text_of(word), fields)?;
    for _ in 0..number(times)? {
        bench.changes.push(change.clone()?)?;
    }
    Ok(())
}

/// `event EVENT`: one more event.
fn add(bench: &mut Bench, word: &[u8], fields: &[Vec<u8>]) -> Result<(), Trouble> {
    let event = event(bench.alloc, bench.now, text_of(word), fields)?;
    Ok(bench.events.push(event)?)
}

/// `request BYTES`: a request that scripts make.
fn request(bench: &mut Bench, bytes: &[u8]) -> Result<(), Trouble> {
    let request = Bytes::from_slice(bench.alloc, bytes)?;
    Ok(bench.requests.push(request)?)
}

/// `alike SEED`: both sites answer the script of a seed alike.
fn alike(bench: &Bench, seed: &[u8]) -> Result<(), Trouble> {
    let events = script_of(bench, &mut Dice::new(number(seed)?))?;
    match is_alike(bench.alloc, &bench.used, &bench.image, &events)? {
        true => Ok(()),
        false => Err(Trouble::Wrong("they differ")),
    }
}

/// `stopped CALLS SEED`: the script of a seed on a disk that crashes some calls after so many, which its opening makes.
fn stopped(bench: &Bench, calls: &[u8], seed: &[u8]) -> Result<(), Trouble> {
    let mut dice = Dice::new(number(seed)?);
    let events = script_of(bench, &mut dice)?;
    let calls = number(calls)?.saturating_add(dice.roll(2000) as u64);
    match survives(bench.alloc, &bench.image, &events, calls, &[])? {
        Some(_) => Ok(()),
        None => Err(Trouble::Wrong("the image opens")),
    }
}

/// `changes`: the events change what is kept on a disk with the image.
fn changes(bench: &Bench) -> Result<(), Trouble> {
    let before = kept_after(bench.alloc, &bench.image, &bench.events, 0)?;
    let after = kept_after(bench.alloc, &bench.image, &bench.events, usize::MAX)?;
    match before.as_slice() != after.as_slice() {
        true => Ok(()),
        false => Err(Trouble::Wrong("nothing changes")),
    }
}

/// `remembered`: the image is that of the site that was remembered, and can be used.
fn remembered(bench: &Bench) -> Result<(), Trouble> {
    let disk = disk_of(bench.alloc, &bench.image)?;
    let kept = kept_and_used(bench.alloc, disk, &bench.used)?;
    match kept.as_slice() == bench.remembered.as_slice() {
        true => Ok(()),
        false => Err(Trouble::Wrong("another site")),
    }
}

/// `remember`: the site of the image.
fn remember(bench: &mut Bench) -> Result<(), Trouble> {
    bench.remembered = kept_after(bench.alloc, &bench.image, &[], 0)?;
    Ok(())
}

/// `events` begins new events, which `used` makes those that a site is used by afterwards.
fn begin(bench: &mut Bench, is_used: bool) -> Result<(), Trouble> {
    let events = mem::replace(&mut bench.events, Vec::new(bench.alloc));
    if is_used {
        bench.used = events;
    }
    Ok(())
}

/// The words without a field.
fn alone(
    bench: &mut Bench,
    line: &mut Line,
    word: &str,
    fields: &[Vec<u8>],
) -> Result<(), Trouble> {
    match word {
        "events" => begin(bench, false),
        "used" => begin(bench, true),
        "changes" => changes(bench),
        "together" => show_together(bench, line),
        "remember" => remember(bench),
        "remembered" => remembered(bench),
        _ => bench::of_none(bench, line, word, fields),
    }
}

/// The words of events, scripts and crashes, and those that need nothing held.
pub fn call(
    bench: &mut Bench,
    line: &mut Line,
    word: &str,
    fields: &[Vec<u8>],
) -> Result<(), Trouble> {
    match (word, fields) {
        ("event", [word, rest @ ..]) => add(bench, word, rest),
        ("choice", [times, word, rest @ ..]) => choose(bench, times, word, rest),
        ("request", [bytes]) => request(bench, bytes),
        ("survives", [calls]) => show_survival(bench, line, calls),
        ("survives_once", [call]) => show_once(bench, line, call),
        ("compacts_once", [call]) => show_compaction_once(bench, line, call),
        ("compacts", [calls]) => show_compaction(bench, line, calls),
        ("upgrades", [calls]) => show_upgrade(bench, line, calls),
        ("upgraded", [pages]) => show_outcome(bench, line, pages),
        ("groups", [calls]) => show_group(bench, line, calls),
        ("alike", [seed]) => alike(bench, seed),
        ("stopped", [calls, seed]) => stopped(bench, calls, seed),
        _ => alone(bench, line, word, fields),
    }
}
