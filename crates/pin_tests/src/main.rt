//! Tests of sites that are pinned while sessions draw. The program makes the calls of standard input. A call prints `ok` and what was seen, or why it gave
//! nothing. Empty lines and those that begin with `#` stand for themselves.
//!
//! - `least MORE` draws a document of 65,536 bytes that is removed meanwhile, in an image of so many pages more than the least one in which it can be, fills that with posts, and prints how many pages it has and
//!   how many posts it took.
//! - `by_bytes` draws such a document at once and in pieces of one byte, and prints how many bytes are sent.
//! - `compacted` pins a document of 65,536 bytes, removes it, compacts the site, puts another in its place and compacts again. It prints how many bytes are read at the pin, and how many pages are free before it is spent and
//!   after.
//! - `random SEED SITES HUBS` mixes events at random, over so many sites with so many hubs each, one after the other, and compacts the site behind each hub, where it has room for that. It prints how many events there
//!   were, how many had no room, how often the site was compacted, and how many events were answered otherwise by a site in memory.
#![tactic(auto)]

mod batches;
mod changes;
mod compacted;
mod drawing;
mod least;
mod made;
mod random;
mod trouble;

use compacted::compacted;
use least::{above_least, drawn_by_bytes};
use random::random;
use std::alloc::Global;
use std::io;
use trouble::Trouble;

/// The number that decimal digits write.
fn number(field: &str) -> Result<u32, Trouble> {
    field.parse::<u32>().or(Err(Trouble::Line))
}

/// `least MORE`
fn show_least(alloc: Global, more: &str) -> Result<String, Trouble> {
    let seen = above_least(alloc, number(more)?)?;
    Ok(format!(in alloc; "{} pages, {} posts", seen.pages, seen.posts)?)
}

/// `by_bytes`
fn show_by_bytes(alloc: Global) -> Result<String, Trouble> {
    let count = drawn_by_bytes(alloc)?;
    Ok(format!(in alloc; "{count} bytes")?)
}

/// `compacted`
fn show_compacted(alloc: Global) -> Result<String, Trouble> {
    let seen = compacted(alloc)?;
    Ok(format!(in alloc;
        "{} bytes, {} pages free while it is pinned, {} after",
        seen.bytes, seen.before, seen.after
    )?)
}

/// `random SEED SITES HUBS`
fn show_random(alloc: Global, seed: &str, sites: &str, hubs: &str) -> Result<String, Trouble> {
    let seen = random(alloc, number(seed)?.into(), number(sites)?, number(hubs)?)?;
    Ok(format!(in alloc;
        "{} events, {} without room, {} compactions, {} differ",
        seen.events, seen.full, seen.compacted, seen.differ
    )?)
}

fn call(alloc: Global, text: &str) -> Result<String, Trouble> {
    let fields: Vec<&str> = text.split(' ').collect(alloc)?;
    match fields.as_slice() {
        ["least", more] => show_least(alloc, more),
        ["by_bytes"] => show_by_bytes(alloc),
        ["compacted"] => show_compacted(alloc),
        ["random", seed, sites, hubs] => show_random(alloc, seed, sites, hubs),
        _ => Err(Trouble::Line),
    }
}

/// What is printed for a row: an empty one and a comment stand for themselves.
fn answer(alloc: Global, text: &str) -> Result<String, Trouble> {
    if text.is_empty() || text.starts_with('#') {
        return Ok(String::from_str(alloc, text)?);
    }
    match call(alloc, text) {
        Ok(shown) => Ok(format!(in alloc; "ok {shown}")?),
        Err(trouble) => Ok(format!(in alloc; "{trouble}")?),
    }
}

fn main(rt: HostRuntime) -> io::Result<()> {
    let alloc = rt.alloc();
    for text in rt.lines(alloc) {
        match answer(alloc, text?.as_str()) {
            Ok(shown) => println!(rt; "{}", shown.as_str())?,
            Err(trouble) => println!(rt; "{trouble}")?,
        }
    }
    Ok(())
}
