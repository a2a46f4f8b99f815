// What one hub answers to a line.
use crate::asking::{Cut, ROOM, by_calls, by_run};
use crate::changes::change;
use crate::fault::RowFault;
use crate::fields::{bytes, number};
use crate::turns::by_turns;
use group_hub::Hub;
use group_world::Event;
use host_script::{ParsedLine, ScriptLineFault, ask, fault_line, line_of, parse};
use host_types::Stamp;
use std::alloc::Global;
use word_search::SearchKeeper;

/// The size of the one piece of a whole request.
const WHOLE: usize = 1_000_000;

/// Pieces and draws of so many bytes.
fn even_cut(size: usize) -> Cut {
    Cut {
        piece: size,
        room: size,
        ends: false,
    }
}

/// The event of a line that the script has too.
fn scripted(alloc: Global, line: &str, now: Stamp) -> Result<Event, RowFault> {
    let command = match parse(alloc, line.as_bytes()) {
        Ok(command) => command,
        Err(ScriptLineFault::Form) => return Err(RowFault::Line),
        Err(ScriptLineFault::Memory) => return Err(RowFault::Memory),
    };
    match ask(alloc, command, now)? {
        ParsedLine::Event(event) => Ok(event),
        ParsedLine::Refused(refused) => Err(RowFault::from(refused)),
        ParsedLine::Moment(_) => Err(RowFault::Line),
    }
}

/// What a hub answers to one event: a change, or a line that the script has too.
fn of_event<S: SearchKeeper>(
    alloc: Global,
    hub: &mut Hub<S>,
    fields: &[&str],
    line: &str,
    now: Stamp,
) -> Result<String, RowFault> {
    let event = match change(alloc, fields)? {
        Some(change) => Event::Admin { change, now },
        None => scripted(alloc, line, now)?,
    };
    let outcomes = hub.run(&[event])?;
    match outcomes.as_slice() {
        [outcome] => Ok(line_of(alloc, outcome)?),
        _ => Err(RowFault::Line),
    }
}

fn of_line<S: SearchKeeper>(
    alloc: Global,
    hub: &mut Hub<S>,
    fields: &[&str],
    line: &str,
    now: Stamp,
) -> Result<String, RowFault> {
    match fields {
        ["ask", all @ ..] => {
            let cut = Cut {
                piece: WHOLE,
                room: ROOM,
                ends: false,
            };
            by_run(alloc, hub, bytes(alloc, all)?.as_slice(), cut, now)
        }
        ["runs", size, all @ ..] => {
            let cut = even_cut(number(size)?);
            by_run(alloc, hub, bytes(alloc, all)?.as_slice(), cut, now)
        }
        ["pieces", size, all @ ..] => {
            let cut = even_cut(number(size)?);
            by_calls(alloc, hub, bytes(alloc, all)?.as_slice(), cut, now)
        }
        ["asked", all @ ..] => {
            let cut = Cut {
                piece: WHOLE,
                room: 7,
                ends: true,
            };
            by_calls(alloc, hub, bytes(alloc, all)?.as_slice(), cut, now)
        }
        ["turns", count, all @ ..] => by_turns(alloc, hub, number(count)?, all, now),
        _ => of_event(alloc, hub, fields, line, now),
    }
}

/// What a hub answers to a line: its fault is an answer too.
pub fn answer<S: SearchKeeper>(
    alloc: Global,
    hub: &mut Hub<S>,
    fields: &[&str],
    line: &str,
    now: Stamp,
) -> Result<String, RowFault> {
    match of_line(alloc, hub, fields, line, now) {
        Err(RowFault::Hub(fault)) => Ok(fault_line(alloc, fault)?),
        other => other,
    }
}
