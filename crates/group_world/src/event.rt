// What may come to a hub, and what it answers.
use crate::HubFault;
use host_types::{Bytes, Change, Stamp};

/// What may come to a hub: one call of it.
#[derive(Clone, Debug, Drop)]
pub enum Event {
    Join,
    /// A piece of a session's input.
    Bytes { id: u64, piece: Bytes, now: Stamp },
    /// The end of a session's input.
    End { id: u64, now: Stamp },
    /// A draw of at most so many bytes.
    Draw { id: u64, room: usize },
    Leave { id: u64 },
    /// A change that the administrator asks for.
    Admin { change: Change, now: Stamp },
    /// The posts that wait are made.
    Flush,
}

/// What a hub answers to an event.
#[derive(Debug, PartialEq, Eq, Drop)]
pub enum Outcome {
    /// The number of the new session.
    Joined(u64),
    More,
    Ready,
    Finished,
    /// The post waits for others.
    Waiting,
    /// The bytes that were drawn.
    Drawn(Bytes),
    /// The session has left.
    Gone,
    /// The change is made.
    Done,
    /// So many of those that waited are answered, and so many are left.
    Flushed { answered: usize, left: usize },
    Fault(HubFault),
}
