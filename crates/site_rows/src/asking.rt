// Sessions that ask, and what they are answered.
use crate::fault::RowFault;
use common_types::escaped;
use group_hub::Hub;
use group_world::{Drawn, Event, InputStatus, Outcome};
use host_script::line_of;
use host_types::{Bytes, Stamp};
use std::alloc::Global;
use word_search::SearchKeeper;

/// The room of each draw of a run that asks for a reply at once.
pub const ROOM: usize = 16_384;

/// How often such a run draws, which is enough for 128 KiB; longer replies are drawn by calls.
const DRAWS: usize = 8;

/// How often a run draws by smaller rooms.
const SMALL_DRAWS: usize = 2048;

/// How often a reply is drawn by calls at most.
const MOST_DRAWS: u32 = 100_000;

/// How a request comes, and how its reply is drawn.
#[derive(Clone, Copy)]
pub(crate) struct Cut {
    /// How many bytes a piece of the request has.
    pub piece: usize,
    /// The room of a draw.
    pub room: usize,
    /// Whether the end of input follows, where it comes by calls.
    pub ends: bool,
}

/// A whole reply, as its line tells it.
pub fn reply_text(alloc: Global, reply: &[u8]) -> Result<String, RowFault> {
    let mut line = String::from_str(alloc, "drawn ")?;
    line.push_str(&escaped(alloc, reply)?)?;
    Ok(line)
}

/// Whether each draw gave as much of the reply as it had room for, and those behind its end said so.
fn are_even(draws: &[Outcome], reply: &[u8], room: usize) -> bool {
    let mut pieces = reply.chunks(room.max(1));
    for outcome in draws {
        let is_next = match (outcome, pieces.next()) {
            (Outcome::Drawn(bytes), Some(piece)) => bytes.as_slice() == piece,
            (Outcome::Finished, None) => true,
            _ => false,
        };
        if !is_next {
            return false;
        }
    }
    true
}

/// What some draws of this room gave together.
fn text_of_draws(alloc: Global, draws: &[Outcome], room: usize) -> Result<String, RowFault> {
    let mut reply = Vec::new(alloc);
    for outcome in draws {
        match outcome {
            Outcome::Drawn(bytes) => reply.extend_from_slice(bytes.as_slice())?,
            Outcome::Finished => {}
            other => return Ok(line_of(alloc, other)?),
        }
    }
    if !are_even(draws, &reply, room) {
        return Ok(String::from_str(alloc, "uneven draws")?);
    }
    reply_text(alloc, &reply)
}

/// What the last piece of a run, its draws of this room and the leave come to.
fn text_of_run(alloc: Global, outcomes: &[Outcome], room: usize) -> Result<String, RowFault> {
    match outcomes {
        [Outcome::Ready, draws @ .., Outcome::Finished, Outcome::Gone] => text_of_draws(
            alloc, draws, room,
        ),
        [heard, ..] => Ok(line_of(alloc, heard)?),
        [] => Err(RowFault::Line),
    }
}

/// The pieces of a request with the draws of its reply and the leave, as one run of events.
pub fn by_run<S: SearchKeeper>(
    alloc: Global,
    hub: &mut Hub<S>,
    request: &[u8],
    cut: Cut,
    now: Stamp,
) -> Result<String, RowFault> {
    let id = hub.join()?;
    let room = cut.room;
    let mut events = Vec::new(alloc);
    for piece in request.chunks(cut.piece.max(1)) {
        let piece = Bytes::from_slice(alloc, piece)?;
        events.push(Event::Bytes { id, piece, now })?;
    }
    let last = events.len().saturating_sub(1);
    let draws = if room < ROOM { SMALL_DRAWS } else { DRAWS };
    for _ in 0..draws {
        events.push(Event::Draw { id, room })?;
    }
    events.push(Event::Leave { id })?;
    let outcomes = hub.run(&events)?;
    text_of_run(alloc, outcomes.as_slice().get(last..).unwrap_or(&[]), room)
}

/// All that is left of a session's reply.
fn draw_all<S: SearchKeeper>(
    alloc: Global,
    hub: &mut Hub<S>,
    id: u64,
    room: usize,
) -> Result<String, RowFault> {
    let mut out = vec![in alloc; 0u8; room]?;
    let mut reply = Vec::new(alloc);
    for _ in 0..MOST_DRAWS {
        match hub.draw(id, &mut out)? {
            Drawn::Bytes(count) => reply.extend_from_slice(out.get(..count).unwrap_or(&[]))?,
            Drawn::Finished => return reply_text(alloc, &reply),
        }
    }
    Err(RowFault::Line)
}

/// A request by calls, with the draws of its reply and the leave.
pub fn by_calls<S: SearchKeeper>(
    alloc: Global,
    hub: &mut Hub<S>,
    request: &[u8],
    cut: Cut,
    now: Stamp,
) -> Result<String, RowFault> {
    let id = hub.join()?;
    let mut heard = InputStatus::More;
    for piece in request.chunks(cut.piece.max(1)) {
        heard = hub.bytes(id, piece, now)?;
    }
    if cut.ends {
        heard = hub.end(id, now)?;
    }
    let line = match heard {
        InputStatus::More => String::from_str(alloc, "more")?,
        InputStatus::Ready => draw_all(alloc, hub, id, cut.room)?,
        InputStatus::Finished => String::from_str(alloc, "finished")?,
        InputStatus::Waiting => String::from_str(alloc, "waiting")?,
    };
    hub.leave(id)?;
    Ok(line)
}
