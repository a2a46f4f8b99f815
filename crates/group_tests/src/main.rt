//! Tests of hubs whose posts wait for one another. The program first makes the calls of a small group in memory and on a disk, each again that found no memory: with each
//! allocation refused in turn it prints the same.
//!
//! Then each line of standard input makes a row: where it is made, and behind each `;` some events. A row prints `ok` and what it was answered, or why it was not. Empty lines and those that begin
//! with `#` stand for themselves.
//!
//! - `both PAGES CAP LINES` makes the events over a site in memory and over one in an image of so many pages, whose board `/book` keeps so many posts, and whose document `/doc` has so many lines. It prints
//!   how many commits the image took, and the outcomes; where the site in memory gives others, those too.
//! - `disk PAGES CAP LINES` makes them in the image alone.
//! - `stops PAGES CAP LINES` stops the last event, a flush, at each of its calls of the disk. It prints how often, how many images that left, and how many of these have each number of the posts, from none to
//!   all. Each is the site behind the first so many posts, as it is where each is made at once, with at least those that the flush had told.
//! - `once PAGES CAP LINES` fails each call of the first flush, once, and flushes again. It prints how often that was a read: the flush is `Broken` then, the second one and all behind it are answered as the first one is else,
//!   and the site is the same; and how often it was a write or a sync: from then on all is `Failed`.
//! - `tight FIRST LAST CAP LINES` makes the events in each image from so many pages to so many. Where the posts fit in one step, the last event, a flush, makes the very same site in one commit. Else it makes
//!   the same posts as come through where each is made at once, each in a commit of its own, and leaves the others. It prints how many images took all at once, how many each post by itself, and how many left some.
//!
//! The events: `join COUNT`, `flush`, `begin` (those before it fill the site, and are not shown), `at SECONDS` (the moment of those behind it, 743878921 at first), `put SELECTOR LINES`,
//! `words SELECTOR COUNT` (a text of so many different words), `board CAP` (`/book` anew), `form SELECTOR` (another form for it), `remove SELECTOR`, and behind the number of a session, or behind the first and the last of some, `say PIECE`,
//! `end`, `draw`, `draw ROOM`, `leave` and `post NAME LINES`, an answer to the form `/sign`: a name, in which `#` is the number of the session, and so many lines.
#![tactic(auto)]

mod fused;
mod items;
mod once;
mod refused;
mod rows;
mod script;
mod shown;
mod sites;
mod stops;
mod tight;
mod trouble;

use once::once;
use refused::{Trial, refused_in_memory, refused_in_tight, refused_on_disk, text_in};
use rows::{on_both, on_disk};
use script::{Script, cap_of, number};
use sites::Image;
use std::alloc::Global;
use std::io;
use stops::stops;
use tight::tight;
use trouble::Trouble;

/// `both PAGES`
fn show_row(alloc: Global, pages: &str, script: &Script) -> Result<String, Trouble> {
    on_both(alloc, number(pages)?, script)
}

/// `disk PAGES`
fn show_disk(alloc: Global, pages: &str, script: &Script) -> Result<String, Trouble> {
    on_disk(alloc, number(pages)?, script)
}

/// `stops PAGES`
fn show_stops(alloc: Global, pages: &str, script: &Script) -> Result<String, Trouble> {
    let image = Image::new(alloc, number(pages)?, script.filling())?;
    let seen = stops(alloc, &image, script)?;
    let mut text = format!(in alloc; "{} stops, {} images:", seen.stops, seen.images)?;
    for (posts, count) in seen.posts.as_slice().iter().enumerate() {
        if *count > 0 {
            text.push_str(&format!(in alloc; " {count} with {posts}")?)?;
        }
    }
    Ok(text)
}

/// `once PAGES`
fn show_once(alloc: Global, pages: &str, script: &Script) -> Result<String, Trouble> {
    let image = Image::new(alloc, number(pages)?, script.filling())?;
    let seen = once(alloc, &image, script)?;
    Ok(format!(in alloc;
        "{} broken and made again, {} failed",
        seen.broken, seen.failed
    )?)
}

/// `tight FIRST LAST`
fn show_tight(alloc: Global, first: &str, last: &str, script: &Script) -> Result<String, Trouble> {
    let seen = tight(alloc, number(first)?, number(last)?, script)?;
    Ok(format!(in alloc;
        "{} at once, {} one by one, {} of these with posts left",
        seen.whole, seen.singly, seen.short
    )?)
}

fn show(alloc: Global, head: &[&str], script: &Script) -> Result<String, Trouble> {
    match head {
        ["both", pages] => show_row(alloc, pages, script),
        ["disk", pages] => show_disk(alloc, pages, script),
        ["stops", pages] => show_stops(alloc, pages, script),
        ["once", pages] => show_once(alloc, pages, script),
        ["tight", first, last] => show_tight(alloc, first, last, script),
        _ => Err(Trouble::Line),
    }
}

/// A row: its head, which ends with what fills the site, and events behind each `;`.
fn row(alloc: Global, text: &str) -> Result<String, Trouble> {
    let (head, events) = text.split_once(';').unwrap_or((text, ""));
    let head: Vec<&str> = head.trim().split(' ').collect(alloc)?;
    let [head @ .., cap, lines] = head.as_slice() else {
        return Err(Trouble::Line);
    };
    let mut script = Script::new(alloc)?;
    script.fill(cap_of(cap)?, number(lines)?)?;
    for words in events.split(';') {
        let fields: Vec<&str> = words.trim().split(' ').collect(alloc)?;
        script.read(&fields)?;
    }
    show(alloc, head, &script)
}

/// What is printed for a line: an empty one and a comment stand for themselves.
fn answer(alloc: Global, text: &str) -> Result<String, Trouble> {
    if text.is_empty() || text.starts_with('#') {
        return Ok(String::from_str(alloc, text)?);
    }
    match row(alloc, text) {
        Ok(shown) => Ok(format!(in alloc; "ok {shown}")?),
        Err(trouble) => Ok(format!(in alloc; "{trouble}")?),
    }
}

/// Prints what a trial gave.
fn print_trial(rt: &HostRuntime, tried: Result<Trial, Trouble>) -> io::Result<()> {
    let trial = match tried {
        Ok(trial) => trial,
        Err(trouble) => return println!(rt; "{trouble}"),
    };
    for text in &trial.texts {
        match std::str::from_utf8(text_in(text)) {
            Ok("") => {}
            Ok(text) => println!(rt; "{text:?}")?,
            Err(_) => println!(rt; "no text")?,
        }
    }
    println!(rt; "generation {}", trial.generation)
}

fn main(rt: HostRuntime) -> io::Result<()> {
    let alloc = rt.alloc();
    print_trial(&rt, refused_in_memory(alloc))?;
    print_trial(&rt, refused_on_disk(alloc))?;
    print_trial(&rt, refused_in_tight(alloc))?;
    for text in rt.lines(alloc) {
        match answer(alloc, text?.as_str()) {
            Ok(shown) => println!(rt; "{}", shown.as_str())?,
            Err(trouble) => println!(rt; "{trouble}")?,
        }
    }
    Ok(())
}
