// What a line of a script asks for.
ghost use Rattle.std.specs.Prelude.{◌≡◌, IfOk};
ghost use Rattle.host_script.specs.ParsedLine.{parsed_of, text_parsed};

use crate::script::Command;
use group_world::Event;
use host_types::{Bytes, Change, Item, Refused, Selector, Stamp, Title};
use std::alloc::{AllocError, Global};

/// What a command asks for.
#[derive(Debug, Drop)]
pub enum ParsedLine {
    /// A new moment.
    Moment(Stamp),
    /// An event of the hub.
    Event(Event),
    /// An event with a name that is none.
    Refused(Refused),
}

/// The administrator's change of a line `text`; the selector is examined before the title.
fn text(
    alloc: Global,
    selector: &Bytes,
    title: &Bytes,
    body: Bytes,
    now: Stamp,
) -> Result<ParsedLine, AllocError>
    ensures { IfOk result (λ parsed. parsed ≡ text_parsed selector.now title.now body now) }
{
    let selector = match Selector::new(selector.as_slice()) {
        Ok(selector) => selector,
        Err(refused) => return Ok(ParsedLine::Refused(refused)),
    };
    let title = match Title::new(title.as_slice()) {
        Ok(title) => title,
        Err(refused) => return Ok(ParsedLine::Refused(refused)),
    };
    let change = Change::Put(selector, Item::text(alloc, title, now, body)?);
    Ok(ParsedLine::Event(Event::Admin { change, now }))
}

/// What a command asks for at a moment.
pub fn ask(alloc: Global, command: Command, now: Stamp) -> Result<ParsedLine, AllocError>
    ensures { IfOk result (λ parsed. parsed ≡ parsed_of command now) }
{
    Ok(match command {
        Command::Now(stamp) => ParsedLine::Moment(stamp),
        Command::Text {
            selector,
            title,
            body,
        } => text(alloc, &selector, &title, body, now)?,
        Command::Join => ParsedLine::Event(Event::Join),
        Command::Bytes { id, text } => ParsedLine::Event(Event::Bytes {
            id,
            piece: text,
            now,
        }),
        Command::End(id) => ParsedLine::Event(Event::End { id, now }),
        Command::Draw { id, room } => ParsedLine::Event(Event::Draw { id, room }),
        Command::Leave(id) => ParsedLine::Event(Event::Leave { id }),
        Command::Flush => ParsedLine::Event(Event::Flush),
    })
}
