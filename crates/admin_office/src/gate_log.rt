// What a gate answered. Only clauses read it, and it takes no memory.
ghost use Rattle.std.specs.Prelude.{◌≡◌, List, [], ◌∷◌, ◌++◌};
ghost use Rattle.std.specs.Borrow.{ftrue};
ghost use Rattle.admin_office.specs.declared.gate_log.Arrival.{Arrival as OneArrival};

use std::marker::Model;

/// Whether somebody was at a gate that was asked.
#[derive(Clone, Copy, Debug, PartialEq, Eq)]
pub enum Arrival {
    Came,
    Nobody,
}

/// What a gate answered, in order.
#[derive(Drop)]
pub struct GateLog {
    pub ghost answers: { List OneArrival },
}

impl Model for GateLog {
    ghost also_owns = { λ _. ftrue };
}

impl GateLog {
    /// It was not asked yet.
    pub fn new() -> GateLog
        ensures { result.answers ≡ [] }
    {
        GateLog {}
    }

    /// One answer more.
    fn with(_before: &GateLog, _answer: &Arrival) -> GateLog
        ensures { result.answers ≡ _before.now.answers ++ _answer.now ∷ [] }
    {
        GateLog {}
    }

    /// Notes an answer.
    pub(crate) fn note(&mut self, answer: Arrival)
        ensures { self.new.answers ≡ self.old.answers ++ answer ∷ [] }
    {
        *self = GateLog::with(self, &answer);
    }
}
