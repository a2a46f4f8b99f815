// A key-value store that can be written anew.
ghost use Rattle.std.specs.Prelude.{◌≤◌, ◌*◌, ℕ, OnOk, IfErr, IsTrue, length};
ghost use Rattle.page_store.specs.CommitCalls.{CommitsNoMore};
ghost use Rattle.page_store.specs.CompactCalls.{WritesAnew, FailsToCompact, CountsCompaction, CompactionCrashes};

use crate::{Keeper, KeeperFault};

/// A key-value store whose pairs can be written anew, in as few pages as hold them in order.
pub trait CompactKeeper: Keeper {
    /// How many pages that takes.
    ghost compact_need: { Self → ℕ → Type 0 };

    /// It stands in so few pages.
    ghost is_filled: { Self → Type 0 };

    /// Writes the same pairs and the same banner anew, in one step.
    ///
    /// Faults in order: `Failed`, `Spent`, `Device` and `Damaged`, `Full`, and `Failed` again once a write or a sync has failed; never `Deep`. `Memory` may stand in place of any fault or success after `Spent`; nothing is written then.
    fn compact(&mut self) -> Result<(), KeeperFault>
        ensures done { OnOk result (WritesAnew (Self.store_state self.old) (Self.store_state self.new) (is_filled self.new) (compact_need self.old)) }
        ensures fault { IfErr result (FailsToCompact Self.store_state compact_need Self.may_need self.old self.new) }
        ensures ended { CommitsNoMore (Self.store_state self.old) (Self.store_state self.new) result }
        ensures counts { CountsCompaction (Self.store_state self.old) (Self.store_state self.new) result }
        ensures at_crash { CompactionCrashes Self.crash_states Self.has_content Self.store_state self.old self.new result };

    /// It takes at most two pages for each pair.
    ghost few_pages: { (k : Self) (n : ℕ) → IsTrue (Self.store_state k).honest → compact_need k n → n ≤ 2 * length (Self.store_state k).pairs };
}
