//! Rows of the protocol as data. Each line of standard input is asked of a site in memory and of one on a disk, and what they answer is
//! printed: once where they answer the same, else one behind `memory: ` and one behind `disk: `. An empty line and one that begins with `#`
//! stand for themselves. A line that is none ends the program with status 1 and `rows: line N`.
//!
//! Fields have one space between each two. `\x20` is a space, as in the script of sessions, and `*N*TEXT` is a text N times. Where more than
//! one field makes some bytes, they stand one behind the other.
//!
//! - `sites PAGES FIRST`: small sites anew, the disk of so many pages, with numbers of sessions from FIRST on and the moment 0. Before
//!   such a line they are those of `sites 16 1`.
//! - `put SELECTOR TITLE SUMMARY BODY`, where the body is one of `text TEXT..`, `views KIND (NAME LANGUAGE TEXT)..`,
//!   `menu (local SELECTOR | info TITLE | url TITLE URL | remote KIND TITLE SELECTOR HOST PORT)..`, `board CAP`, `search SCOPE` and
//!   `form BOARD (ask PROMPT | askl PROMPT | askp PROMPT WORD | choose PROMPT COUNT CHOICE..)..`; a KIND is the letter of a menu's line.
//! - `until SECONDS SELECTOR TITLE SUMMARY BODY`: the same, and the item is found before that moment alone.
//! - `remove SELECTOR`, `move FROM TO`, `host HOST PORT`, `admin TEXT`, `post BOARD TITLE TEXT..`: the administrator's other changes.
//! - `now`, `text`, `join`, `bytes`, `end`, `draw`, `leave`: lines of the script of sessions, with its answers.
//! - `ask REQUEST..`: a session sends a request whole, draws its reply and leaves, in one run. `runs SIZE REQUEST..`: by pieces
//!   and draws of so many bytes.
//! - `pieces SIZE REQUEST..`: the same call by call. `asked REQUEST..`: whole, and then the input ends.
//! - `turns COUNT REQUEST..`: so many sessions send these requests, and draw their replies, by turns of one byte; behind a request its input ends.
//!   A line for each reply.
#![tactic(auto)]

mod answer;
mod asking;
mod changes;
mod fault;
mod fields;
mod sites;
mod turns;

use fault::RowFault;
use sites::Sites;
use std::io;
use std::io::{BufRead, BufReader, BufWriter, Write};
use std::process::ExitCode;

/// What is printed for a line: an empty one and a comment stand for themselves.
fn print_line<W: Write>(
    rt: &HostRuntime,
    sites: &mut Sites,
    writer: &mut W,
    line: &str,
) -> Result<(), RowFault> {
    let printed = if line.is_empty() || line.starts_with('#') {
        writeln!(writer, "{line}")
    } else {
        let answer = sites.answer(rt.alloc(), line)?;
        writeln!(writer, "{answer}")
    };
    printed.or(Err(RowFault::Output))
}

fn main(rt: HostRuntime) -> io::Result<ExitCode> {
    let alloc = rt.alloc();
    let Ok(mut sites) = Sites::new(alloc, 16, 1) else {
        return Ok(ExitCode::FAILURE);
    };
    let mut writer = BufWriter::new(alloc, io::writer(&rt))?;
    for (place, line) in BufReader::new(alloc, rt.reader())?.lines(alloc).enumerate() {
        if print_line(&rt, &mut sites, &mut writer, &line?).is_err() {
            writer.flush()?;
            eprintln!(rt; "rows: line {}", place.saturating_add(1))?;
            return Ok(ExitCode::FAILURE);
        }
    }
    writer.flush()?;
    Ok(ExitCode::SUCCESS)
}
