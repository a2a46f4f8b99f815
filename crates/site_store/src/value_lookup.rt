// Looking up what is kept of a site.
ghost use Rattle.std.specs.Prelude.{◌≡◌, ◌≤◌, ℕ, List, IfOk, IfSome, length, take, option_map};
ghost use Rattle.host_types.specs.CrashStates.{CrashStates};
ghost use Rattle.page_store.specs.Batch.{value_at};
ghost use Rattle.page_store.specs.StoreState.{StoreState, CommitNeed};
ghost use Rattle.page_store.specs.Work.{ReadsPages};
ghost use Rattle.page_store.specs.declared.edit.Edit.{Edit};
ghost use Rattle.site_store.specs.StoreReads.{IsCountedFault, IsKeeperFault};
ghost use Rattle.site_store.specs.Reads.{AlwaysReads};

use crate::SiteOpenFault;
use page_store::{Keeper, LONGEST_VALUE};
use site_records::Key;

/// Where the values at the keys of a site's layout are looked up: a key-value store, or its pairs once they are in memory.
pub trait ValueLookup {
    /// What is held.
    ghost store_state: { Self → StoreState };

    /// What a batch may need.
    ghost may_need: { Self → List Edit → CommitNeed → Type 0 };

    /// A crash state.
    ghost CrashState: { Type 0 };

    /// The crash states.
    ghost crash_states: { Self → CrashStates CrashState };

    /// Puts the value at a key into the front of the buffer, and answers its length.
    fn look_up(
        &mut self,
        key: &Key,
        buffer: &mut [u8; LONGEST_VALUE],
    ) -> Result<Option<usize>, SiteOpenFault>
        ensures within { IfOk result (λ found. IfSome found (λ n. n ≤ length buffer.new)) }
        ensures value { AlwaysReads store_state may_need crash_states self.old self.new result (λ a b. IsKeeperFault (IsCountedFault a b)) (λ h found. option_map (λ n. take n buffer.new) found ≡ value_at h.pairs key.now) }
        ensures work { ReadsPages (store_state self.old).height (store_state self.old).made (store_state self.new).made };
}

impl<K: Keeper> ValueLookup for K {
    ghost store_state = { K.store_state };

    ghost may_need = { K.may_need };

    ghost CrashState = { K.CrashState };

    ghost crash_states = { K.crash_states };

    fn look_up(
        &mut self,
        key: &Key,
        buffer: &mut [u8; LONGEST_VALUE],
    ) -> Result<Option<usize>, SiteOpenFault> {
        match self.get(key.as_bytes(), buffer) {
            Ok(found) => Ok(found),
            Err(fault) => Err(SiteOpenFault::Keeper(fault)),
        }
    }
}
