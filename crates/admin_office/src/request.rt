// An administrator's request.
ghost use Rattle.std.specs.Prelude.{◌≡◌, [], ◌&&◌, not};

use crate::Stage;
use daily_turns::ReadyWire;
use std::alloc::Global;

/// For how many seconds a request may neither send nor take anything.
const LONGEST_SILENCE: u64 = 30;

/// An administrator's connection, and how far the request on it is.
#[derive(Drop)]
pub(crate) struct Request<W> {
    pub(crate) wire: W,
    pub(crate) stage: Stage,
    /// It rests until its wire is ready.
    pub(crate) rests: bool,
    /// When something was last sent, taken or made, in seconds of a clock that only goes forward.
    pub(crate) moved: u64,
}

impl<W: ReadyWire> Request<W> {
    ghost use Rattle.admin_office.specs.Offices.{IsNewRequest, is_over};
    ghost use Rattle.admin_office.specs.Requests as spec;
    ghost use Rattle.admin_office.specs.Tasks.{task_of};

    /// A request of which nothing was heard yet.
    pub(crate) fn new(alloc: Global, wire: W, now: u64) -> Self
        requires { W.calls wire ≡ [] }
        ensures { IsNewRequest W.calls now result }
    {
        Request {
            wire,
            stage: Stage::Hearing(Vec::new(alloc)),
            rests: false,
            moved: now,
        }
    }

    /// Whether it has no turn.
    pub(crate) fn is_asleep(&self, called: bool) -> bool
        ensures { result ≡ (self.now.rests && not called) }
    {
        self.rests && !called
    }

    /// Whether it is to go, since its time is over.
    pub(crate) fn is_late(&self, now: u64) -> bool
        ensures { result ≡ (spec.is_late self.now.moved now && not (is_over (task_of self.now.stage))) }
    {
        now.saturating_sub(self.moved) >= LONGEST_SILENCE && !self.stage.is_closed()
    }
}
