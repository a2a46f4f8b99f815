// Lines of scripts, and scripts over sites, readers and writers that fail.
ghost use Rattle.std.specs.Prelude.{◌≡◌, true, IfOk};

use crate::bench::Bench;
use crate::failing_site::FailingSite;
use crate::fault_text;
use crate::line::{Line, number};
use crate::trouble::Trouble;
use group_hub::Hub;
use host_script::{Command, ScriptLineFault, parse, replay, small_site};
use std::alloc::{AllocError, Global};
use std::io;
use std::io::{Read, Write};

/// A reader that gives one byte a call, and fails once behind so many.
#[derive(Drop)]
struct Slow<'a> {
    bytes: &'a [u8],
    before: u64,
}

impl Read for Slow<'_> {
    fn read(&mut self, buffer: &mut [u8]) -> io::Result<usize> {
        if self.before == 0 {
            return Err(io::ErrorKind::Other.into());
        }
        self.before -= 1;
        if self.bytes.is_empty() || buffer.is_empty() {
            return Ok(0);
        }
        buffer[0] = self.bytes[0];
        self.bytes = &self.bytes[1..];
        Ok(1)
    }
}

/// A reader that never ends.
#[derive(Drop)]
struct Endless;

impl Read for Endless {
    fn read(&mut self, buffer: &mut [u8]) -> io::Result<usize> {
        if buffer.is_empty() {
            return Ok(0);
        }
        buffer[0] = b'a';
        Ok(1)
    }
}

/// The small site, of which one read fails, or a change.
fn site(alloc: Global, reads: u64, changes: u64) -> Result<FailingSite, AllocError>
    ensures { IfOk result (λ site. site.usable ≡ true) }
{
    Ok(FailingSite::new(small_site(alloc)?, reads, changes))
}

/// Replays a script over a site, and says how it ended.
fn replayed<R: Read, W: Write>(
    alloc: Global,
    line: &mut Line,
    reader: &mut R,
    writer: &mut W,
    site: FailingSite,
) -> Result<(), AllocError>
    requires { site.usable ≡ true }
{
    let Ok(mut hub) = Hub::new(alloc, site, 1) else {
        return Err(AllocError);
    };
    let ended = replay(alloc, reader, writer, &mut hub);
    let _ = hub.close();
    match ended {
        Ok(()) => line.word("done"),
        Err(fault) => line.bytes(fault.to_string(alloc)?.as_bytes()),
    }
}

/// How a script ends, and what it prints, byte by byte up to a read that fails.
fn replay_slowly(
    alloc: Global,
    line: &mut Line,
    script: &[u8],
    before: u64,
) -> Result<(), AllocError> {
    let mut slow = Slow {
        bytes: script,
        before,
    };
    let mut printed = Vec::new(alloc);
    let site = site(alloc, u64::MAX, u64::MAX)?;
    replayed(alloc, line, &mut slow, &mut printed, site)?;
    line.bytes(&printed)
}

/// The same at once, over a site that may fail.
fn replay_whole(
    alloc: Global,
    line: &mut Line,
    script: &[u8],
    reads: u64,
    changes: u64,
) -> Result<(), AllocError> {
    let mut whole = script;
    let mut printed = Vec::new(alloc);
    let site = site(alloc, reads, changes)?;
    replayed(alloc, line, &mut whole, &mut printed, site)?;
    line.bytes(&printed)
}

/// `replay SCRIPT`: how it ends and what it prints, at once and byte by byte.
fn replay_both(alloc: Global, line: &mut Line, script: &[u8]) -> Result<(), Trouble> {
    replay_whole(alloc, line, script, u64::MAX, u64::MAX)?;
    let mut slowly = Line::new(alloc)?;
    replay_slowly(alloc, &mut slowly, script, u64::MAX)?;
    if slowly.as_str() != line.as_str() {
        return Err(Trouble::Differs);
    }
    Ok(())
}

/// `replay_into ROOM SCRIPT`: how it ends where no more can be written.
fn replay_into(alloc: Global, line: &mut Line, script: &[u8], room: &[u8]) -> Result<(), Trouble> {
    let mut whole = script;
    let mut kept = vec![in alloc; 0u8; number(room)? as usize]?;
    let site = site(alloc, u64::MAX, u64::MAX)?;
    Ok(replayed(alloc, line, &mut whole, &mut kept.as_mut_slice(), site)?)
}

/// `replay_endless`: how a script without an end ends.
fn replay_endless(alloc: Global, line: &mut Line) -> Result<(), Trouble> {
    let mut printed = Vec::new(alloc);
    let site = site(alloc, u64::MAX, u64::MAX)?;
    replayed(alloc, line, &mut Endless, &mut printed, site)?;
    Ok(line.bytes(&printed)?)
}

/// A word and a number.
fn show_number(line: &mut Line, word: &str, number: u64) -> Result<(), AllocError> {
    line.word(word)?;
    line.number(number)
}

/// `bytes ID TEXT`
fn show_bytes(line: &mut Line, id: u64, text: &[u8]) -> Result<(), AllocError> {
    show_number(line, "bytes", id)?;
    line.bytes(text)
}

/// `text SELECTOR TITLE BODY`
fn show_text(
    line: &mut Line,
    selector: &[u8],
    title: &[u8],
    body: &[u8],
) -> Result<(), AllocError> {
    line.word("text")?;
    line.bytes(selector)?;
    line.bytes(title)?;
    line.bytes(body)
}

/// `draw ID ROOM`
fn show_draw(line: &mut Line, id: u64, room: usize) -> Result<(), AllocError> {
    show_number(line, "draw", id)?;
    line.number(room as u64)
}

/// `parse LINE`: the command of a line of a script.
fn show_command(line: &mut Line, command: &Command) -> Result<(), AllocError> {
    match command {
        Command::Now(stamp) => show_number(line, "now", stamp.seconds()),
        Command::Text {
            selector,
            title,
            body,
        } => show_text(line, selector.as_slice(), title.as_slice(), body.as_slice()),
        Command::Join => line.word("join"),
        Command::Bytes { id, text } => show_bytes(line, *id, text.as_slice()),
        Command::End(id) => show_number(line, "end", *id),
        Command::Draw { id, room } => show_draw(line, *id, *room),
        Command::Leave(id) => show_number(line, "leave", *id),
        Command::Flush => line.word("flush"),
    }
}

fn parse_line(alloc: Global, line: &mut Line, text: &[u8]) -> Result<(), Trouble> {
    match parse(alloc, text) {
        Ok(command) => Ok(show_command(line, &command)?),
        Err(ScriptLineFault::Form) => Ok(line.word("none")?),
        Err(ScriptLineFault::Memory) => Err(Trouble::from(AllocError)),
    }
}

/// `replay_reads READS SCRIPT` and `replay_changes CHANGES SCRIPT`: a read or a change of the site fails behind so many others.
fn replay_failing(
    alloc: Global,
    line: &mut Line,
    count: &[u8],
    script: &[u8],
    is_read: bool,
) -> Result<(), Trouble> {
    let count = number(count)?;
    let (reads, changes) = if is_read {
        (count, u64::MAX)
    } else {
        (u64::MAX, count)
    };
    Ok(replay_whole(alloc, line, script, reads, changes)?)
}

/// `replay_cut BEFORE SCRIPT`: byte by byte, up to a read that fails.
fn replay_cut(alloc: Global, line: &mut Line, before: &[u8], script: &[u8]) -> Result<(), Trouble> {
    let before = number(before)?;
    Ok(replay_slowly(alloc, line, script, before)?)
}

pub fn call(
    bench: &mut Bench,
    line: &mut Line,
    word: &str,
    fields: &[Vec<u8>],
) -> Result<(), Trouble> {
    let alloc = bench.alloc;
    match (word, fields) {
        ("parse", [text]) => parse_line(alloc, line, text),
        ("replay", [script]) => replay_both(alloc, line, script),
        ("replay_cut", [before, script]) => replay_cut(alloc, line, before, script),
        ("replay_into", [room, script]) => replay_into(alloc, line, script, room),
        ("replay_endless", []) => replay_endless(alloc, line),
        ("replay_reads", [reads, script]) => replay_failing(alloc, line, reads, script, true),
        ("replay_changes", [changes, script]) => replay_failing(
            alloc, line, changes, script, false,
        ),
        _ => fault_text::call(bench, line, word, fields),
    }
}
