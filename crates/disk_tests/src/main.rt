//! Tests of all that stands over a disk. The program makes each call again that found no memory, and sees that it changed
//! nothing: with each allocation refused in turn it prints the same.
//!
//! Then it makes the calls of standard input, `WORD FIELD FIELD ..`, and `;` between two of one line. A call prints `ok` and what it gave, or
//! `fault` and why it gave nothing. Empty lines and those that begin with `#` stand for themselves. In a field `\20` is the byte of these two
//! digits, and `a{9}` is nine letters. `each FIRST LAST CALLS` makes the calls of a line for each number in the place of `#`, and prints what they
//! answer at each number where it is not what they answered before.
//!
//! - Of what is held: `disk SECTORS` a new disk, `fuse CALLS` the disk behind a fuse, `once CALL` the disk of whose calls that one fails, `lie CALLS SECTOR BYTES` the disk that lies about a
//!   sector, `open` a keeper, `site` a site, `turn` the site of a keeper or
//!   the keeper of a site, `close` the disk under it, `crash WRITE ..` what a crash leaves of that, `memory` a site in memory.
//! - `save` saves the image, `same` compares with it, `again` is a disk with it. `now SECONDS` is the moment of what follows.
//! - `event` adds one to the events, which `events` empties and `used` moves to those that a site is used by after a crash; `run FIRST` runs them.
//!   `changes`, `survives CALLS`, `remember` and `remembered` are of the events on a disk with the saved image.
//! - `request` and `choice` are what random scripts are made of; `alike SEED` and `stopped SEED` run one.
//! - What disks, keepers, sites, records and texts are asked stands in the files of these names.
#![tactic(auto)]

mod bench;
mod crashes;
mod devices;
mod disks;
mod events;
mod groups;
mod items;
mod keepers;
mod line;
mod lying;
mod made;
mod once;
mod records;
mod refused;
mod scripts;
mod sites;
mod tested;
mod texts;
mod trouble;
mod upgrades;

use bench::{Bench, call};
use line::{Line, fields_of, number, text_of};
use refused::{disk_under, kept, noted, written_often};
use std::alloc::{AllocError, Global};
use std::io;
use std::io::Write;

/// What is read in the end: of a disk, of a keeper, and of a site.
fn shown_at_last(alloc: Global) -> Result<(u8, usize, u8, u32, usize), &'static str> {
    let (shown, calls) = written_often(alloc)?;
    let (byte, keeper) = kept(alloc)?;
    let (length, found) = noted(alloc, disk_under(keeper)?)?;
    Ok((shown, calls, byte, length, found))
}

/// The decimal digits of a number.
fn digits(alloc: Global, number: u64) -> Result<Vec<u8>, AllocError> {
    format!(in alloc; "{number}")?.as_bytes().to_vec(alloc)
}

/// Makes the call of a word and its fields, and adds what it answers.
fn answer(bench: &mut Bench, fields: &[Vec<u8>], shown: &mut Vec<u8>) -> Result<(), AllocError> {
    let [word, rest @ ..] = fields else {
        return Ok(());
    };
    let alloc = bench.alloc;
    let mut line = Line {
        alloc,
        text: Vec::new(alloc),
    };
    match call(bench, &mut line, text_of(word), rest) {
        Ok(()) => {
            shown.extend_from_slice(b"ok")?;
            shown.extend_from_slice(&line.text)?;
        }
        Err(trouble) => {
            let text = format!(in alloc; "fault {trouble}")?;
            shown.extend_from_slice(text.as_bytes())?;
        }
    }
    Ok(())
}

/// What calls answer that have `;` between them, with a number in the place of `#`.
fn answers(bench: &mut Bench, fields: &[Vec<u8>], number: u64) -> Result<Vec<u8>, AllocError> {
    let alloc = bench.alloc;
    let mut shown = Vec::new(alloc);
    let mut call = Vec::new(alloc);
    for field in fields {
        match field.as_slice() {
            b";" => {
                answer(bench, &call, &mut shown)?;
                shown.extend_from_slice(b"; ")?;
                call = Vec::new(alloc);
            }
            b"#" => call.push(digits(alloc, number)?)?,
            other => call.push(other.to_vec(alloc)?)?,
        }
    }
    answer(bench, &call, &mut shown)?;
    Ok(shown)
}

/// What calls answer for each number from the first to the last. The answers are shown at each number where they are others than before.
fn each(
    bench: &mut Bench,
    first: u64,
    last: u64,
    fields: &[Vec<u8>],
) -> Result<Vec<u8>, AllocError> {
    let alloc = bench.alloc;
    let mut shown = b"each".to_vec(alloc)?;
    let mut before = Vec::new(alloc);
    for number in first..=last {
        let given = answers(bench, fields, number)?;
        if given != before {
            shown.extend_from_slice(b"\n  ")?;
            shown.extend_from_slice(&digits(alloc, number)?)?;
            shown.extend_from_slice(b": ")?;
            shown.extend_from_slice(&given)?;
            before = given;
        }
    }
    Ok(shown)
}

/// What is printed for a line: an empty one and a comment stand for themselves.
fn printed(bench: &mut Bench, text: &[u8]) -> Result<Vec<u8>, AllocError> {
    if matches!(text, [] | [b'#', ..]) {
        return text.to_vec(bench.alloc);
    }
    let fields = fields_of(bench.alloc, text)?;
    if let [word, first, last, rest @ ..] = fields.as_slice() {
        if word.as_slice() == b"each".as_slice() {
            if let (Ok(first), Ok(last)) = (number(first), number(last)) {
                return each(bench, first, last, rest);
            }
        }
    }
    answers(bench, &fields, 0)
}

fn main(rt: HostRuntime) -> io::Result<()> {
    let alloc = rt.alloc();
    match shown_at_last(alloc) {
        Ok((shown, calls, byte, length, found)) => {
            println!(rt; "the disk shows {shown} after {calls} calls")?;
            println!(rt; "the keeper had {byte} at k")?;
            println!(rt; "the note has {length} bytes, and {found} item is found")?;
        }
        Err(wrong) => println!(rt; "wrong: {wrong}")?,
    }
    let mut bench = Bench::new(alloc);
    let mut writer = io::writer(&rt);
    for text in rt.lines(alloc) {
        let mut shown = printed(&mut bench, text?.as_bytes())?;
        shown.push(b'\n')?;
        writer.write_all(&shown)?;
    }
    Ok(())
}
