// How far a request is.
use crate::{Making, Unsent};

/// How far a request is.
#[derive(Drop)]
pub(crate) enum Stage {
    /// What was heard of it, from the start.
    Hearing(Vec<u8>),
    /// The office is to hold still.
    Holding,
    /// Its changes are made.
    Making(Making),
    /// The reply is told.
    Telling(Unsent),
    /// Its connection is closed.
    Closed,
}

impl Stage {
    ghost use Rattle.std.specs.Prelude.{◌≡◌};
    ghost use Rattle.admin_office.specs.Offices.{is_over};
    ghost use Rattle.admin_office.specs.Tasks.{task_of};

    /// Whether its connection is closed.
    pub(crate) fn is_closed(&self) -> bool
        ensures { result ≡ is_over (task_of self.now) }
    {
        match self {
            Stage::Hearing(_) | Stage::Holding | Stage::Making(_) | Stage::Telling(_) => false,
            Stage::Closed => true,
        }
    }
}
