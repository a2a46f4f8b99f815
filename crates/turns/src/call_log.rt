// The calls that were made of a wire. Only clauses read them, and they take no memory.
ghost use Rattle.std.specs.Prelude.{◌≡◌, List, [], ◌∷◌, ◌++◌};
ghost use Rattle.std.specs.Borrow.{ftrue};
ghost use Rattle.turns.specs.WireCalls.{WireCall, call_of};

use std::marker::Model;

/// Which call of a wire it was, without its bytes.
#[derive(Clone, Copy, Debug, PartialEq, Eq)]
pub enum WireCallKind {
    /// Bytes were read into so much room, or none at the end.
    Read(usize),
    /// A read into so much room failed.
    ReadFailed(usize),
    /// A read into so much room would have had to wait, and did nothing.
    ReadWaited(usize),
    /// So many of the bytes were taken.
    Wrote(usize),
    WriteFailed,
    /// A write would have had to wait, and did nothing.
    WriteWaited,
    Closed,
}

/// The calls of a wire, in order.
#[derive(Drop)]
pub struct CallLog {
    pub ghost calls: { List WireCall },
}

impl Model for CallLog {
    ghost also_owns = { λ _. ftrue };
}

impl CallLog {
    /// No calls.
    pub fn new() -> CallLog
        ensures { result.calls ≡ [] }
    {
        CallLog {}
    }

    /// One call more.
    fn with(_before: &CallLog, _kind: &WireCallKind, _bytes: &[u8]) -> CallLog
        ensures { result.calls ≡ _before.now.calls ++ call_of _kind.now _bytes.now ∷ [] }
    {
        CallLog {}
    }

    /// Notes a call that was made, with the bytes that were read or offered.
    pub fn note(&mut self, kind: WireCallKind, bytes: &[u8])
        ensures { self.new.calls ≡ self.old.calls ++ call_of kind bytes.now ∷ [] }
    {
        *self = CallLog::with(self, &kind, bytes);
    }
}
