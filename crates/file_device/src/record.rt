// The calls that were made of a file. Only clauses read it, and it takes no memory.
ghost use Rattle.std.specs.Prelude.{◌≡◌, List, [], ◌∷◌};
ghost use Rattle.std.specs.Borrow.{ftrue};
ghost use Rattle.file_device.specs.declared.file_call.FileCall.{FileCall as CallValue};

use crate::FileCall;
use std::marker::Model;

/// A list of calls, the newest first.
#[derive(Drop)]
pub(crate) struct Record {
    pub ghost calls: { List CallValue },
}

impl Model for Record {
    ghost also_owns = { λ _. ftrue };
}

impl Record {
    /// No calls.
    pub(crate) fn new() -> Record
        ensures { result.calls ≡ [] }
    {
        Record {}
    }

    /// One call more.
    fn with(_before: &Record, _call: &FileCall) -> Record
        ensures { result.calls ≡ _call.now ∷ _before.now.calls }
    {
        Record {}
    }

    /// Notes a call that was made.
    pub(crate) fn note(&mut self, call: FileCall)
        ensures { self.new.calls ≡ call ∷ self.old.calls }
    {
        *self = Record::with(self, &call);
    }
}
