// Requests, from whole streams and by pieces.
ghost use Rattle.std.specs.Prelude.{◌<◌};

use crate::bench::Bench;
use crate::line::Line;
use crate::sites;
use crate::trouble::Trouble;
use host_types::{LineList, Selector};
use request_reader::{
    Cause, Names, Plus, Reader, Request, RequestedView, StreamVerdict, answer_to,
};
use std::alloc::{AllocError, Global};

/// The pieces in which a stream comes: of so many bytes.
const PIECES: [usize; 3] = [1, 7, 65_536];

fn show_view(line: &mut Line, requested: RequestedView<'_>) -> Result<(), AllocError> {
    line.word("view")?;
    line.bytes(requested.name)?;
    match requested.language {
        Some(language) => line.bytes(language),
        None => Ok(()),
    }
}

fn show_names(
    alloc: Global,
    line: &mut Line,
    word: &str,
    names: Names<'_>,
) -> Result<(), AllocError> {
    line.word(word)?;
    line.list(&names.to_list(alloc)?)
}

fn show_plus(alloc: Global, line: &mut Line, plus: Plus<'_>) -> Result<(), AllocError> {
    match plus {
        Plus::Fetch(None) => line.word("fetch"),
        Plus::Fetch(Some(requested)) => show_view(line, requested),
        Plus::Attributes(names) => show_names(alloc, line, "attributes", names),
        Plus::EntryAttributes(names) => show_names(alloc, line, "entries", names),
    }
}

/// How many lines of data there are, and the first of them.
fn show_data(line: &mut Line, lines: &LineList) -> Result<(), AllocError> {
    line.word("data")?;
    line.number(lines.as_slice().len() as u64)?;
    for shown in lines.as_slice().iter().take(16) {
        line.bytes(shown.as_slice())?;
    }
    Ok(())
}

/// A whole request: its selector, which is a name without a test, and what else it has.
fn show_request(alloc: Global, line: &mut Line, request: Request<'_>) -> Result<(), AllocError> {
    line.word("whole")?;
    line.bytes(Selector::new(request.selector).unwrap().as_bytes())?;
    if let Some(words) = request.search {
        line.word("words")?;
        line.bytes(words)?;
    }
    if let Some(plus) = request.plus {
        show_plus(alloc, line, plus)?;
    }
    match request.data {
        Some(data) => show_data(line, &data.lines(alloc)?),
        None => Ok(()),
    }
}

fn show(alloc: Global, line: &mut Line, answer: StreamVerdict<'_>) -> Result<(), AllocError> {
    match answer {
        StreamVerdict::More => line.word("open"),
        StreamVerdict::Early => line.word("early"),
        StreamVerdict::Whole(request) => show_request(alloc, line, request),
        StreamVerdict::Bad(Cause::TooLong) => line.word("TooLong"),
        StreamVerdict::Bad(Cause::NotUnderstood) => line.word("NotUnderstood"),
    }
}

/// What a reader that was fed by pieces says in the end.
fn by_pieces(alloc: Global, stream: &[u8], size: usize, ended: bool) -> Result<Line, AllocError>
    requires { 0 < size }
{
    let mut reader = Reader::new(alloc);
    for piece in stream.chunks(size) {
        let _ = reader.feed(piece)?;
    }
    if ended {
        let _ = reader.finish();
    }
    let mut line = Line::new(alloc)?;
    show(alloc, &mut line, reader.answer())?;
    Ok(line)
}

/// `request STREAM` and `ended STREAM`: what the stream says, before or at its end, in whatever pieces it comes.
fn request(alloc: Global, line: &mut Line, stream: &[u8], ended: bool) -> Result<(), Trouble> {
    show(alloc, line, answer_to(stream, ended))?;
    for size in PIECES {
        if by_pieces(alloc, stream, size, ended)?.as_str() != line.as_str() {
            return Err(Trouble::Differs);
        }
    }
    Ok(())
}

/// `exact STREAM`: the same of a stream that says nothing yet without its last byte.
fn exact(alloc: Global, line: &mut Line, stream: &[u8]) -> Result<(), Trouble> {
    let [front @ .., _] = stream else {
        return Err(Trouble::Line);
    };
    match answer_to(front, false) {
        StreamVerdict::More => request(alloc, line, stream, false),
        _ => Err(Trouble::Differs),
    }
}

/// `each STREAM`: feeds the bytes one by one, and says whether each was taken as not whole yet.
fn feed_each(reader: &mut Reader, line: &mut Line, stream: &[u8]) -> Result<(), Trouble> {
    for byte in stream {
        let _ = reader.feed(&[*byte])?;
        if !reader.is_open() {
            return Ok(line.word("said")?);
        }
    }
    Ok(line.word("open")?)
}

/// `feed STREAM`
fn feed(bench: &mut Bench, line: &mut Line, stream: &[u8]) -> Result<(), Trouble> {
    Ok(show(bench.alloc, line, bench.reader.feed(stream)?)?)
}

/// `finish`
fn finish(bench: &mut Bench, line: &mut Line) -> Result<(), Trouble> {
    Ok(show(bench.alloc, line, bench.reader.finish())?)
}

/// `undo`
fn undo(bench: &mut Bench, line: &mut Line) -> Result<(), Trouble> {
    bench.reader.undo();
    Ok(show(bench.alloc, line, bench.reader.answer())?)
}

/// `reader`: another one.
fn begin(bench: &mut Bench) -> Result<(), Trouble> {
    bench.reader = Reader::new(bench.alloc);
    Ok(())
}

/// The words of the reader.
fn of_reader(
    bench: &mut Bench,
    line: &mut Line,
    word: &str,
    fields: &[Vec<u8>],
) -> Result<(), Trouble> {
    match (word, fields) {
        ("reader", []) => begin(bench),
        ("finish", []) => finish(bench, line),
        ("undo", []) => undo(bench, line),
        ("feed", [stream]) => feed(bench, line, stream),
        ("each", [stream]) => feed_each(&mut bench.reader, line, stream),
        _ => sites::call(bench, line, word, fields),
    }
}

pub fn call(
    bench: &mut Bench,
    line: &mut Line,
    word: &str,
    fields: &[Vec<u8>],
) -> Result<(), Trouble> {
    match (word, fields) {
        ("request", [stream]) => request(bench.alloc, line, stream, false),
        ("ended", [stream]) => request(bench.alloc, line, stream, true),
        ("exact", [stream]) => exact(bench.alloc, line, stream),
        _ => of_reader(bench, line, word, fields),
    }
}
