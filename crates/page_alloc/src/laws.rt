// What holds of the definitions.
ghost use Rattle.std.specs.Prelude.{◌≡◌, ℕ, true, ◌↔◌};
ghost use Rattle.page_alloc.specs.LedgerState.{LedgerState, is_free, IsFree};
ghost use Rattle.page_alloc.specs.Examples.{LedgerExamples};

/// The test of free pages says what free pages are by sets: no root slot, not taken, and no page of any generation in use.
pub fn free_by_sets()
    ensures { (s : LedgerState) (page : ℕ) → (is_free s page ≡ true) ↔ IsFree s page }
{}

/// Worked examples of the definitions.
pub fn worked_examples()
    ensures { LedgerExamples }
{}
