// A key-value store that keeps what stood before.
ghost use Rattle.std.specs.Prelude.{◌↔◌, ◌≡◌, [], ◌≤◌, ℕ, IfOk, IfErr, IfSome, IsTrue, length};
ghost use Rattle.common_types.specs.CrashStates.{AddsNone};
ghost use Rattle.page_store.specs.ReadCalls.{IsValueAt, IsPairAfter, FillsBuffer, FillsBuffers, StoreReadsOnly, FailsToLookUp};
ghost use Rattle.page_store.specs.StoreState.{NeedsTheSame, most_levels};
ghost use Rattle.page_store.specs.Work.{ReadsPages, pages_tried};
ghost use Rattle.page_store.specs.Pins.{is_out, pairs_at, IsStorePinned, IsStorePinFault, IsStoreUnpinned};

use crate::{Keeper, KeeperFault, LONGEST_KEY, LONGEST_VALUE, PinFault};

/// A key-value store whose pairs can be pinned: a reader goes on with what stood when its pin was made, while others commit.
pub trait PinKeeper: Keeper {
    /// A pin that is out. It should be no `Drop`, so that it is spent by `unpin` alone.
    type Pin;

    /// Its number. No other pin of the store that is out has it.
    ghost number: { Self.Pin → ℕ };

    /// Whether no pin is out. It takes no memory.
    fn is_unpinned(&self) -> bool
        ensures { IsTrue result ↔ ((Self.store_state self.now).pins ≡ []) };

    /// Pins the current pairs. Nothing is read or written, and it takes no memory.
    fn pin(&mut self) -> Result<Self::Pin, PinFault>
        ensures pinned { IfOk result (λ pin. IsStorePinned (Self.store_state self.old) (Self.store_state self.new) (number pin)) }
        ensures fault { IfErr result (IsStorePinFault (Self.store_state self.old) (Self.store_state self.new)) }
        ensures need { NeedsTheSame (Self.may_need self.old) (Self.may_need self.new) }
        ensures at_crash { IsTrue (Self.store_state self.old).honest → AddsNone (Self.crash_states self.old) (Self.crash_states self.new) };

    /// Spends a pin, also once a write or a sync has failed. Nothing is read or written, and it takes no memory.
    fn unpin(&mut self, pin: Self::Pin)
        requires out { IsTrue (is_out (Self.store_state self.old) (number pin)) }
        ensures unpinned { IsStoreUnpinned (Self.store_state self.old) (Self.store_state self.new) (number pin) }
        ensures need { NeedsTheSame (Self.may_need self.old) (Self.may_need self.new) }
        ensures at_crash { IsTrue (Self.store_state self.old).honest → AddsNone (Self.crash_states self.old) (Self.crash_states self.new) }
        ensures moment { (Self.crash_states self.new).moment ≡ (Self.crash_states self.old).moment };

    /// As `get`, of the pairs that the pin keeps.
    fn get_at(
        &mut self,
        pin: &Self::Pin,
        key: &[u8],
        buffer: &mut [u8; LONGEST_VALUE],
    ) -> Result<Option<usize>, KeeperFault>
        requires out { IsTrue (is_out (Self.store_state self.old) (number pin.now)) }
        ensures value { IsTrue (Self.store_state self.old).honest → IfOk result (λ found. IfSome (pairs_at (Self.store_state self.old) (number pin.now)) (IsValueAt key.now buffer.new found)) }
        ensures fills { FillsBuffer result buffer.old buffer.new }
        ensures only { StoreReadsOnly Self.store_state Self.may_need Self.crash_states self.old self.new }
        ensures fails { FailsToLookUp (Self.store_state self.old) (Self.store_state self.new) result }
        ensures work { ReadsPages most_levels (Self.store_state self.old).made (Self.store_state self.new).made };

    /// As `next`, of the pairs that the pin keeps.
    fn next_at(
        &mut self,
        pin: &Self::Pin,
        after: &[u8],
        key: &mut [u8; LONGEST_KEY],
        value: &mut [u8; LONGEST_VALUE],
    ) -> Result<Option<(usize, usize)>, KeeperFault>
        requires out { IsTrue (is_out (Self.store_state self.old) (number pin.now)) }
        ensures pair { IsTrue (Self.store_state self.old).honest → IfOk result (λ x. IfSome (pairs_at (Self.store_state self.old) (number pin.now)) (IsPairAfter after.now key.new value.new x)) }
        ensures fills { FillsBuffers result key.old key.new value.old value.new }
        ensures only { StoreReadsOnly Self.store_state Self.may_need Self.crash_states self.old self.new }
        ensures fails { FailsToLookUp (Self.store_state self.old) (Self.store_state self.new) result }
        ensures work { ReadsPages (pages_tried most_levels) (Self.store_state self.old).made (Self.store_state self.new).made };

    /// There are not too many pins.
    ghost few_pins: { (k : Self) → length (Self.store_state k).pins ≤ 32 };
}
