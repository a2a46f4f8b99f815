// A wire and the session on it.
ghost use Rattle.std.specs.Prelude.{◌≡◌, ◌≤◌, false, [], length, Option, Some, None};
ghost use Rattle.daily_turns.specs.DrawSizes.{draw_size};
ghost use Rattle.daily_turns.specs.ReadyConnections.{at, acts, has_left, ending_of, is_waiting, state_of};

use crate::unsent::Unsent;
use old_clients::ClientAdapter;

/// How a session ended.
#[derive(Clone, Copy, Debug, PartialEq, Eq)]
pub enum Ending {
    /// All of a reply was drawn for it.
    Served,
    /// Its post could not be made, and its client is asked to try again later.
    Full,
    /// The hub answered another fault.
    Failed,
    /// Its client went before that.
    Cut,
    /// Its time was over.
    Late,
    /// None joined: as many of its client's origin were in as may be.
    Crowd,
    /// Its post was not made: as many of its client's origin came as may come in a minute.
    Often,
}

/// How far the session on a wire is.
#[derive(Clone, Copy, Debug, PartialEq, Eq)]
pub enum ConnectionStage {
    /// The session of this number hears what is read.
    Listening(u64),
    /// The post of the session of this number waits for others.
    Waiting(u64),
    /// The reply to the session of this number is drawn and sent.
    Replying(u64),
    /// It has left the hub, and the rest is sent.
    Leaving(Ending),
    /// The wire is closed.
    Closed(Ending),
}

impl ConnectionStage {
    /// Whether the session has left the hub.
    pub fn has_left(self) -> bool
        ensures { result ≡ has_left self }
    {
        match self {
            ConnectionStage::Listening(_)
            | ConnectionStage::Waiting(_)
            | ConnectionStage::Replying(_) => false,
            ConnectionStage::Leaving(_) | ConnectionStage::Closed(_) => true,
        }
    }

    /// Whether there is something to do in a turn of the session.
    pub fn acts(self) -> bool
        ensures { result ≡ acts self }
    {
        match self {
            ConnectionStage::Listening(_)
            | ConnectionStage::Replying(_)
            | ConnectionStage::Leaving(_) => true,
            ConnectionStage::Waiting(_) | ConnectionStage::Closed(_) => false,
        }
    }

    /// Whether the post of the session waits for others.
    pub fn is_waiting(self) -> bool
        ensures { result ≡ is_waiting self }
    {
        matches!(self, ConnectionStage::Waiting(_))
    }

    /// How the session of a closed wire ended.
    pub fn ending(self) -> Option<Ending>
        ensures { result ≡ ending_of self }
    {
        match self {
            ConnectionStage::Closed(ending) => Some(ending),
            _ => None,
        }
    }
}

/// A wire, how far the session on it is, what is to be sent, and the adapter of its client.
#[derive(Drop)]
pub struct ReadyConnection<W> {
    pub(crate) wire: W,
    pub(crate) stage: ConnectionStage,
    pub(crate) unsent: Unsent,
    pub(crate) waits: bool,
    pub(crate) adapter: ClientAdapter,
}

impl<W> ReadyConnection<W> {
    /// How far the session is.
    pub fn stage(&self) -> ConnectionStage
        ensures { result ≡ self.now.stage }
    {
        self.stage
    }

    /// Whether it rests until its wire is ready again.
    pub fn waits(&self) -> bool
        ensures { result ≡ self.now.waits }
    {
        self.waits
    }

    /// Its wire.
    pub fn wire(&self) -> &W
        ensures { result.now ≡ self.now.wire }
    {
        &self.wire
    }

    /// Its wire may be ready again.
    pub fn wake(&mut self)
        ensures state { state_of self.new ≡ at self.old.stage self.old.unsent.items false }
        ensures wire { self.new.wire ≡ self.old.wire }
        ensures adapter { self.new.adapter ≡ self.old.adapter }
    {
        self.waits = false;
    }

    /// From here on the session is so far, with these bytes to be sent.
    pub(crate) fn become_stage(&mut self, stage: ConnectionStage, unsent: &[u8])
        requires { length unsent.now ≤ draw_size }
        ensures state { state_of self.new ≡ at stage unsent.now false }
        ensures wire { self.new.wire ≡ self.old.wire }
        ensures adapter { self.new.adapter ≡ self.old.adapter }
    {
        self.stage = stage;
        self.unsent.fill(unsent);
        self.waits = false;
    }

    /// From here on the session is so far, with the same bytes to be sent.
    pub(crate) fn go_on(&mut self, stage: ConnectionStage)
        ensures state { state_of self.new ≡ at stage self.old.unsent.items false }
        ensures wire { self.new.wire ≡ self.old.wire }
        ensures adapter { self.new.adapter ≡ self.old.adapter }
    {
        self.stage = stage;
        self.waits = false;
    }
}

impl<W: Drop> ReadyConnection<W> {
    /// Its buffer for what is to be sent, which the next client can have.
    pub fn into_unsent(self) -> Unsent
        ensures { result ≡ self.unsent }
    {
        self.unsent
    }
}
