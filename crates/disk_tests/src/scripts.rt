// Scripts of events by a seeded generator.

use crate::trouble::Trouble;
use group_world::Event;
use host_types::{Bytes, Change, Stamp};
use std::alloc::Global;
use test_help::Dice;

/// The greatest room of a draw.
const ROOM: usize = 4096;

/// A request, whole or in two pieces; now and then its end is missing.
fn ask(
    alloc: Global,
    dice: &mut Dice,
    events: &mut Vec<Event>,
    request: &[u8],
    id: u64,
    now: Stamp,
) -> Result<(), Trouble> {
    let cut = dice.roll(56).min(request.len());
    let (front, rest) = request.split_at(cut);
    let piece = Bytes::from_slice(alloc, front)?;
    events.push(Event::Bytes { id, piece, now })?;
    if dice.roll(8) > 0 {
        let piece = Bytes::from_slice(alloc, rest)?;
        events.push(Event::Bytes { id, piece, now })?;
    }
    if dice.roll(4) == 0 {
        events.push(Event::End { id, now })?;
    }
    Ok(())
}

/// A script of some fifty events of up to six sessions, whose requests and changes are some of these.
pub fn script(
    alloc: Global,
    requests: &[Bytes],
    changes: &[Change],
    dice: &mut Dice,
) -> Result<Vec<Event>, Trouble> {
    if requests.is_empty() || changes.is_empty() {
        return Err(Trouble::Line);
    }
    let mut events = Vec::new(alloc);
    for turn in 0..28 {
        let now = Stamp::new(743_878_921 + turn)?;
        let id = dice.roll(6) as u64 + 1;
        match dice.roll(10) {
            0 | 1 => events.push(Event::Join)?,
            2 | 3 | 4 => {
                let request = &requests[dice.roll(requests.len())];
                ask(alloc, dice, &mut events, request.as_slice(), id, now)?;
            }
            5 => {
                events.push(Event::Draw {
                    id,
                    room: dice.roll(40),
                })?;
            }
            6 => events.push(Event::Draw { id, room: ROOM })?,
            7 => events.push(Event::Leave { id })?,
            _ => {
                let change = changes[dice.roll(changes.len())].clone()?;
                events.push(Event::Admin { change, now })?;
            }
        }
    }
    Ok(events)
}
