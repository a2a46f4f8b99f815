// A map of byte keys that is kept on a device.
ghost use Rattle.std.specs.Prelude.{◌≡◌, ◌≤◌, ℕ, Bool, List, true, OnOk, IfOk, IfErr, IsTrue, length};
ghost use Rattle.common_types.specs.CrashStates.{CrashStates, may_crash_to};
ghost use Rattle.page_store.specs.Pages.{Pair};
ghost use Rattle.page_store.specs.Batch.{is_batch, is_map};
ghost use Rattle.page_store.specs.ReadCalls.{IsValueAt, IsPairAfter, FillsBuffer, FillsBuffers, StoreReadsOnly, FailsToLookUp};
ghost use Rattle.page_store.specs.CommitCalls.{TakesBanner, CommitsBatch, FailsToCommit, CommitsNoMore, CountsCommit, CommitCrashes};
ghost use Rattle.page_store.specs.StoreState.{StoreState, CommitNeed, IsFigures, most_levels};
ghost use Rattle.page_store.specs.Work.{ReadsPages, pages_tried};
ghost use Rattle.page_store.specs.declared.banner.Banner.{Banner as BannerValue};
ghost use Rattle.page_store.specs.declared.edit.Edit.{Edit as EditValue};

use crate::{Banner, Edit, Figures, KeeperFault, LONGEST_KEY, LONGEST_VALUE};

/// A map of byte keys with a banner, which changes by whole batches: a crash within a commit leaves the map and the banner from before, or the new ones.
///
/// Keys have 1 to 300 bytes and values at most 1,024. Whatever speaks of the pairs holds where what they are kept on is honest, that is, keeps its written meaning.
pub trait Keeper {
    /// The pairs and the banner, the flags and the counts.
    ghost store_state: { Self → StoreState };

    /// What a commit of a batch may need: so many pages, or too many levels.
    ghost may_need: { Self → List EditValue → CommitNeed → Type 0 };

    /// Whether an image of that version is held.
    ghost holds_version: { ℕ → Bool };

    /// A crash state.
    ghost CrashState: { Type 0 };

    /// A crash state has these pairs and this banner.
    ghost has_content: { CrashState → List Pair → BannerValue → Type 0 };

    /// The crash states.
    ghost crash_states: { Self → CrashStates CrashState };

    /// Version, host, port and administrator. It takes no memory.
    fn banner(&self) -> &Banner
        ensures { result.now ≡ (store_state self.now).banner };

    /// Whether no write or sync has failed.
    fn is_usable(&self) -> bool
        ensures { result ≡ (store_state self.now).usable };

    /// How much is kept, how much room is left, and of which generation the image is. It takes no memory.
    fn figures(&self) -> Figures
        ensures { IsFigures (store_state self.now) result };

    /// Puts the value at a key into the front of the buffer, and answers its length, or none where nothing stands there. What stands behind the value stays. It takes no memory.
    fn get(
        &mut self,
        key: &[u8],
        buffer: &mut [u8; LONGEST_VALUE],
    ) -> Result<Option<usize>, KeeperFault>
        ensures value { IsTrue (store_state self.old).honest → IfOk result (λ found. IsValueAt key.now buffer.new found (store_state self.old).pairs) }
        ensures fills { FillsBuffer result buffer.old buffer.new }
        ensures only { StoreReadsOnly store_state may_need crash_states self.old self.new }
        ensures fails { FailsToLookUp (store_state self.old) (store_state self.new) result }
        ensures work { ReadsPages (store_state self.old).height (store_state self.old).made (store_state self.new).made };

    /// Puts the pair with the least key above this one into the fronts of the buffers, and answers its lengths, or none where no key is above. The empty key is below all. What stands behind key and value stays. It takes no memory.
    fn next(
        &mut self,
        after: &[u8],
        key: &mut [u8; LONGEST_KEY],
        value: &mut [u8; LONGEST_VALUE],
    ) -> Result<Option<(usize, usize)>, KeeperFault>
        ensures pair { IsTrue (store_state self.old).honest → IfOk result (λ found. IsPairAfter after.now key.new value.new found (store_state self.old).pairs) }
        ensures fills { FillsBuffers result key.old key.new value.old value.new }
        ensures only { StoreReadsOnly store_state may_need crash_states self.old self.new }
        ensures fails { FailsToLookUp (store_state self.old) (store_state self.new) result }
        ensures work { ReadsPages (pages_tried (store_state self.old).height) (store_state self.old).made (store_state self.new).made };

    /// Makes all edits of a batch, whose keys rise, and sets the banner, in one step.
    ///
    /// Faults in order: `Failed`, `Spent`, `Device` and `Damaged`, `Deep`, `Full`, and `Failed` again once a write or a sync has failed. `Memory` may stand in place of any fault or success after `Spent`; nothing is written then.
    fn commit(&mut self, batch: &[Edit], banner: Banner) -> Result<(), KeeperFault>
        requires batch { IsTrue (is_batch batch.now) }
        requires banner { TakesBanner holds_version banner }
        ensures done { OnOk result (CommitsBatch (store_state self.old) (store_state self.new) batch.now banner (may_need self.old batch.now)) }
        ensures fault { IfErr result (FailsToCommit (store_state self.old) (store_state self.new) (length batch.now) (may_need self.old batch.now) (may_need self.old) (may_need self.new)) }
        ensures ended { CommitsNoMore (store_state self.old) (store_state self.new) result }
        ensures counts { CountsCommit (store_state self.old) (store_state self.new) (length batch.now) result }
        ensures at_crash { CommitCrashes crash_states has_content store_state self.old self.new batch.now banner result };

    /// The banner is of a version that is held.
    ghost held: { (k : Self) → IsTrue (holds_version (store_state k).banner.version) };

    /// There are not too many levels.
    ghost levels: { (k : Self) → (store_state k).height ≤ most_levels };

    /// The keys rise in byte order, and keys and values have their sizes.
    ghost ordered: { (k : Self) → IsTrue (store_state k).honest → IsTrue (is_map (store_state k).pairs) };

    /// A batch needs one thing: where it needs so many pages, it needs no other number, and not too many levels.
    ghost one_need: { (k : Self) (batch : List EditValue) (a b : CommitNeed) → IsTrue (store_state k).honest → may_need k batch a → may_need k batch b → a ≡ b };

    /// It counts as many pairs as there are.
    ghost counts: { (k : Self) → IsTrue (store_state k).honest → (store_state k).keys ≡ length (store_state k).pairs };

    /// Between two calls each crash state has the pairs and the banner.
    ghost crash_states_represent: { (k : Self) (c : CrashState) → IsTrue (store_state k).honest → (store_state k).usable ≡ true → may_crash_to (crash_states k) c → has_content c (store_state k).pairs (store_state k).banner };
}
