// How often a device was called. Only clauses read it, and it takes no memory.
ghost use Rattle.std.specs.Prelude.{◌≡◌};
ghost use Rattle.std.specs.Borrow.{ftrue};
ghost use Rattle.sector_device.specs.CallsMade.{CallsMade, none_made, with_call};

use std::marker::Model;

/// What a call asks of a device.
#[derive(Clone, Copy, Debug)]
pub enum CallKind {
    /// A sector was to be read.
    Read,
    /// A sector was to be written.
    Write,
    /// All that was written was to be made sure of.
    Sync,
}

/// The number of calls of each kind, without a limit.
#[derive(Drop)]
pub struct CallCounts {
    pub ghost made: { CallsMade },
}

impl Model for CallCounts {
    ghost also_owns = { λ _. ftrue };
}

impl CallCounts {
    /// No calls.
    pub fn new() -> CallCounts
        ensures { result.made ≡ none_made }
    {
        CallCounts {}
    }

    /// One call more.
    fn with(_before: &CallCounts, _kind: &CallKind) -> CallCounts
        ensures { result.made ≡ with_call _kind.now _before.now.made }
    {
        CallCounts {}
    }

    /// Notes a call, whether it fails or not.
    pub fn note(&mut self, kind: CallKind)
        ensures { self.new.made ≡ with_call kind self.old.made }
    {
        *self = CallCounts::with(self, &kind);
    }
}
