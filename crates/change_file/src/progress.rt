// Who sees how far the changes of a file are.
ghost use Rattle.std.specs.Prelude.{◌≡◌, ℕ, List, [], ◌∷◌, ◌++◌};
ghost use Rattle.std.specs.Borrow.{ftrue};

use std::marker::Model;

/// Sees each change of a file that is made.
pub trait Progress {
    /// The changes that it saw, in order: the number of each, and of how many.
    ghost seen: { Self → List (ℕ × ℕ) };

    /// The change of this number, from 1, is made, of so many.
    fn made(&mut self, number: u64, count: u64)
        ensures { seen self.new ≡ seen self.old ++ (number, count) ∷ [] };
}

/// One change that was seen: its number, from 1, and of how many.
#[derive(Clone, Copy, Debug, PartialEq, Eq)]
pub struct SeenChange {
    pub number: u64,
    pub count: u64,
}

/// The changes that were seen. Only clauses read them, and they take no memory.
#[derive(Drop)]
pub struct SeenLog {
    pub ghost changes: { List (ℕ × ℕ) },
}

impl Model for SeenLog {
    ghost also_owns = { λ _. ftrue };
}

impl SeenLog {
    /// No changes.
    pub fn new() -> SeenLog
        ensures { result.changes ≡ [] }
    {
        SeenLog {}
    }

    /// One change more.
    fn with(_before: &SeenLog, _seen: &SeenChange) -> SeenLog
        ensures { result.changes ≡ _before.now.changes ++ (_seen.now.number, _seen.now.count) ∷ [] }
    {
        SeenLog {}
    }

    /// Notes a change that was seen.
    pub fn note(&mut self, number: u64, count: u64)
        ensures { self.new.changes ≡ self.old.changes ++ (number, count) ∷ [] }
    {
        let seen = SeenChange { number, count };
        *self = SeenLog::with(self, &seen);
    }
}
