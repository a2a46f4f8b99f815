// Whole runs of events.
ghost use Rattle.std.specs.Prelude.{◌≡◌, vec_len, map, IfOk};
ghost use Rattle.group_world.specs.Outcomes.{bytes_outcome};
ghost use Rattle.group_hub.specs.Rooms.{room_of};

use crate::{Hub, OutcomeList};
use group_world::{Drawn, Event, Flushed, HubFault, InputStatus, Outcome};
use host_types::{Bytes, Change, Stamp};
use std::alloc::{AllocError, Global};
use word_search::SearchKeeper;

/// Room for what each event may draw.
fn rooms(alloc: Global, events: &[Event]) -> Result<Vec<Vec<u8>>, AllocError>
    ensures { IfOk result (λ v. map (λ b. vec_len b) v.items ≡ map room_of events.now) }
{
    let mut made = Vec::with_capacity(alloc, events.len())?;
    for event in events {
        let room = match event {
            Event::Draw { room, .. } => vec![in alloc; 0u8; *room]?,
            _ => Vec::new(alloc),
        };
        made.push(room)?;
    }
    Ok(made)
}

/// What a hub answers to a piece of input as an outcome.
fn heard(answer: Result<InputStatus, HubFault>) -> Outcome
    ensures { result ≡ bytes_outcome answer }
{
    match answer {
        Ok(InputStatus::More) => Outcome::More,
        Ok(InputStatus::Ready) => Outcome::Ready,
        Ok(InputStatus::Finished) => Outcome::Finished,
        Ok(InputStatus::Waiting) => Outcome::Waiting,
        Err(fault) => Outcome::Fault(fault),
    }
}

impl<S: SearchKeeper> Hub<S> {
    ghost use Rattle.std.specs.Prelude.{OnErr, length};
    ghost use Rattle.group_hub.specs.Calls.{CallsHub, RunsHub};
    ghost use Rattle.group_hub.specs.Hub.{keeper_of};
    ghost use Rattle.group_world.specs.declared.event.Event.TheVariants as events;

    /// A draw into a buffer of its own.
    fn draw_into(&mut self, id: u64, room: Vec<u8>) -> Outcome
        ensures { CallsHub self.old (events.Draw id (vec_len room)) result self.new }
    {
        let mut room = room;
        match self.draw(id, &mut room) {
            Ok(Drawn::Bytes(count)) => {
                room.truncate(count);
                Outcome::Drawn(Bytes::from(room))
            }
            Ok(Drawn::Finished) => Outcome::Finished,
            Err(fault) => Outcome::Fault(fault),
        }
    }

    /// A copy of a change is made.
    fn admin_by(&mut self, change: &Change, now: Stamp) -> Outcome
        ensures { CallsHub self.old (events.Admin change.now now) result self.new }
    {
        if !self.is_usable() {
            return Outcome::Fault(HubFault::Failed);
        }
        let Ok(change) = change.clone() else {
            return Outcome::Fault(HubFault::Memory);
        };
        match self.admin(change, now) {
            Ok(()) => Outcome::Done,
            Err(fault) => Outcome::Fault(fault),
        }
    }

    /// One event, with room for what it may draw.
    fn step(&mut self, event: &Event, room: Vec<u8>) -> Outcome
        requires { vec_len room ≡ room_of event.now }
        ensures { CallsHub self.old event.now result self.new }
    {
        match event {
            Event::Join => match self.join() {
                Ok(id) => Outcome::Joined(id),
                Err(fault) => Outcome::Fault(fault),
            },
            Event::Bytes { id, piece, now } => heard(self.bytes(*id, piece.as_slice(), *now)),
            Event::End { id, now } => heard(self.end(*id, *now)),
            Event::Draw { id, .. } => self.draw_into(*id, room),
            Event::Leave { id } => match self.leave(*id) {
                Ok(()) => Outcome::Gone,
                Err(fault) => Outcome::Fault(fault),
            },
            Event::Admin { change, now } => self.admin_by(change, *now),
            Event::Flush => match self.flush() {
                Ok(Flushed { answered, left }) => Outcome::Flushed { answered, left },
                Err(fault) => Outcome::Fault(fault),
            },
        }
    }

    /// Events in order, with one outcome for each. `Memory` comes before the first event, or as an event's own fault.
    pub fn run(&mut self, events: &[Event]) -> Result<OutcomeList, AllocError>
        ensures run { IfOk result (λ outcomes. RunsHub self.old events.now outcomes self.new) }
        ensures each { IfOk result (λ outcomes. length outcomes ≡ length events.now) }
        ensures honest { (S.site_state (keeper_of self.new)).honest ≡ (S.site_state (keeper_of self.old)).honest }
        ensures err { OnErr result (self.new ≡ self.old) }
    {
        let alloc = self.alloc();
        let mut rooms = rooms(alloc, events)?;
        let mut outcomes = Vec::with_capacity(alloc, events.len())?;
        for (at, event) in events.iter().enumerate() {
            let room = std::mem::replace(&mut rooms[at], Vec::new(alloc));
            outcomes.push(self.step(event, room)).unwrap();
        }
        Ok(OutcomeList::from(outcomes))
    }
}
