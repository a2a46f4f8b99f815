// A wire and the session on it.
ghost use Rattle.std.specs.Prelude.{◌≡◌, true};
ghost use Rattle.turns.specs.Turns.{is_closed, is_served};
ghost use Rattle.turns.specs.declared.connection.Stage.TheVariants.{New};

/// How far the session of a connection is.
#[derive(Clone, Copy, Debug, PartialEq, Eq)]
pub enum Stage {
    /// No session has joined yet.
    New,
    /// The session of this number hears what is read.
    Listening(u64),
    /// The post of the session of this number waits for others.
    Waiting(u64),
    /// The reply to the session of this number is drawn and written.
    Replying(u64),
    /// All of its reply was written. It has left, and the wire is closed.
    Served,
    /// It has left without that, or couldn't join, and the wire is closed.
    Left,
}

impl Stage {
    /// Whether the wire is closed.
    pub fn is_closed(self) -> bool
        ensures { result ≡ is_closed self }
    {
        match self {
            Stage::New | Stage::Listening(_) | Stage::Waiting(_) | Stage::Replying(_) => false,
            Stage::Served | Stage::Left => true,
        }
    }

    /// Whether all of a reply was written.
    pub fn is_served(self) -> bool
        ensures { result ≡ is_served self }
    {
        match self {
            Stage::Served => true,
            _ => false,
        }
    }
}

/// A wire, and how far its session is.
#[derive(Drop)]
pub struct Connection<W> {
    pub(crate) wire: W,
    pub(crate) stage: Stage,
}

impl<W> Connection<W> {
    /// A wire on which no session has joined yet.
    pub fn new(wire: W) -> Connection<W>
        ensures wire { result.wire ≡ wire }
        ensures stage { result.stage ≡ New }
    {
        Connection {
            wire,
            stage: Stage::New,
        }
    }

    /// How far its session is.
    pub fn stage(&self) -> Stage
        ensures { result ≡ self.now.stage }
    {
        self.stage
    }

    /// Its wire.
    pub fn wire(&self) -> &W
        ensures { result.now ≡ self.now.wire }
    {
        &self.wire
    }
}
