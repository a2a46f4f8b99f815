// Texts by chunks of the body and by parts of the text.
ghost use Rattle.std.specs.Prelude.{◌≤◌};

use crate::line::Line;
use crate::trouble::Trouble;
use std::alloc::{AllocError, Global};
use text_writer::{TextPipe, text};

const CHUNKS: [usize; 4] = [1, 2, 3, 1000];

/// The greatest room of a call.
const MOST_ROOM: usize = 512;

/// The room of a call; with 0 each second call has room for one byte, and the others have none.
const ROOMS: [usize; 5] = [0, 1, 2, 7, 512];

fn room_at(room: usize, step: u64) -> usize
    ensures { result ≤ MOST_ROOM }
{
    if room == 0 && step % 2 == 1 {
        1
    } else {
        room.min(MOST_ROOM)
    }
}

/// Adds what the pipe gives of a chunk.
fn push_chunk(
    piped: &mut Vec<u8>,
    pipe: &mut TextPipe,
    chunk: &[u8],
    room: usize,
) -> Result<(), AllocError> {
    let mut out = [0; MOST_ROOM];
    let mut rest = chunk;
    for step in 0..u64::MAX {
        let part = &mut out[..room_at(room, step)];
        let moved = pipe.next(rest, part);
        piped.extend_from_slice(&part[..moved.given])?;
        rest = &rest[moved.taken..];
        if moved.given < part.len() {
            return Ok(());
        }
    }
    Ok(())
}

/// Adds what the pipe gives once the body has ended.
fn push_end(piped: &mut Vec<u8>, pipe: &mut TextPipe, room: usize) -> Result<(), AllocError> {
    let mut out = [0; MOST_ROOM];
    for step in 0..u64::MAX {
        let part = &mut out[..room_at(room, step)];
        let given = pipe.finish(part);
        piped.extend_from_slice(&part[..given])?;
        if pipe.is_finished() {
            return Ok(());
        }
    }
    Ok(())
}

/// What a pipe gives of the body, by chunks and calls of these lengths.
fn piped(
    alloc: Global,
    body: &[u8],
    chunk_length: usize,
    room: usize,
) -> Result<Vec<u8>, AllocError>
    requires { 1 ≤ chunk_length }
{
    let mut piped = Vec::new(alloc);
    let mut pipe = TextPipe::new();
    for chunk in body.chunks(chunk_length) {
        push_chunk(&mut piped, &mut pipe, chunk, room)?;
    }
    push_end(&mut piped, &mut pipe, room)?;
    Ok(piped)
}

/// `piped BODY`: its text, which pipes give by each of the chunks and rooms.
pub fn show_piped(alloc: Global, line: &mut Line, body: &[u8]) -> Result<(), Trouble> {
    let whole = text(alloc, body)?;
    for chunk_length in CHUNKS {
        for room in ROOMS {
            if piped(alloc, body, chunk_length.max(1), room)?.as_slice() != whole.as_slice() {
                return Err(Trouble::Differs);
            }
        }
    }
    Ok(line.bytes(whole.as_slice())?)
}
