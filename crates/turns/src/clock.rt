// What tells the moments of events.
ghost use Rattle.std.specs.Prelude.{◌≡◌, ℕ, List, [], ◌∷◌, ◌++◌};
ghost use Rattle.std.specs.Borrow.{ftrue};

use host_types::Stamp;
use std::marker::Model;

/// What tells the moments of events.
pub trait Clock {
    /// All moments that it gave, in order.
    ghost given: { Self → List ℕ };

    /// The moment now.
    fn now(&mut self) -> Stamp
        ensures { given self.new ≡ given self.old ++ result ∷ [] };
}

/// The moments that a clock gave, in order. Only clauses read it, and it takes no memory.
#[derive(Drop)]
pub struct MomentLog {
    pub ghost moments: { List ℕ },
}

impl Model for MomentLog {
    ghost also_owns = { λ _. ftrue };
}

impl MomentLog {
    /// No moments.
    pub fn new() -> MomentLog
        ensures { result.moments ≡ [] }
    {
        MomentLog {}
    }

    /// One moment more.
    fn with(_before: &MomentLog, _moment: &u64) -> MomentLog
        ensures { result.moments ≡ _before.now.moments ++ _moment.now ∷ [] }
    {
        MomentLog {}
    }

    /// Notes a moment that was given.
    pub fn note(&mut self, moment: Stamp)
        ensures { self.new.moments ≡ self.old.moments ++ moment ∷ [] }
    {
        let seconds = moment.seconds();
        *self = MomentLog::with(self, &seconds);
    }
}
