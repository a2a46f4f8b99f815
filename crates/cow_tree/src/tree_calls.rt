// The calls of a keeper of a tree.
ghost use Rattle.std.specs.Prelude.{◌≡◌, ◌<◌, IsTrue, OnOk, IfOk, IfErr, length};
ghost use Rattle.page_store.specs.Work.{ReadsPages, pages_tried};
ghost use Rattle.page_store.specs.Sectors.{Image, page_of};
ghost use Rattle.page_store.specs.Batch.{is_batch};
ghost use Rattle.page_store.specs.ReadCalls.{IsValueAt, IsPairAfter, FillsBuffer, FillsBuffers, StoreReadsOnly, FailsToLookUp};
ghost use Rattle.page_store.specs.CommitCalls.{TakesBanner, CommitsBatch, FailsToCommit, CommitsNoMore, CountsCommit, CommitCrashes};
ghost use Rattle.page_store.specs.Steps.{crash_states_of};
ghost use Rattle.cow_tree.specs.Needs.{MayNeed};
ghost use Rattle.cow_tree.specs.Committed.{is_tree_version, TreeHas};
ghost use Rattle.cow_tree.specs.TreeSeen.{held, device_of, slot_of, kept_by, needs, crashes_of};
ghost use Rattle.cow_tree.specs.TreeReadCalls.{WalksByLeaf};
ghost use Rattle.cow_tree.specs.TreeCommitCalls.{WritesTree};
ghost use Rattle.cow_tree.specs.TreeState.{found_under};
ghost use Rattle.cow_tree.specs.KeysCounted.{keys_told};
ghost use Rattle.cow_tree.specs.KeeperLaws.{opens_trees, few_levels, needs_one, crash_states_have_the_tree};

use crate::TreeKeeper;
use crate::commits::write_plan;
use crate::lookups::{find_next, find_value};
use crate::plans::plan_commit;
use crate::tree_root::TreeRoot;
use page_store::{Banner, Edit, Figures, Keeper, KeeperFault, LONGEST_KEY, LONGEST_VALUE};
use sector_device::Device;

impl<D: Device> Keeper for TreeKeeper<D> {
    ghost store_state = { λ k. held D.state k };

    ghost may_need = { λ k batch need. MayNeed (slot_of k) (D.state (device_of k)) batch need };

    ghost holds_version = { is_tree_version };

    ghost CrashState = { Image };

    ghost has_content = { TreeHas };

    ghost crash_states = { λ k. crash_states_of D.moment D.possible_since (device_of k) };

    ghost held = { λ k. opens_trees k.slot.root.banner.version k.fitted.version };

    ghost levels = { λ k. few_levels k.slot.root k.fitted.rooted };

    ghost ordered = { λ k honest. (k.there honest).map };

    ghost one_need = { λ k batch a b honest first second. needs_one (slot_of k) (D.state (device_of k)) batch a b honest first second };

    ghost counts = { λ k honest. keys_told k.slot (page_of (D.state k.device).disk.view) (found_under k.slot (D.state k.device).disk.view) (k.there honest).found_is };

    ghost crash_states_represent = { λ k c honest usable left. crash_states_have_the_tree (D.state k.device).disk k.slot k.ledger k.top k.fitted.version (k.there honest) (k.durable honest usable) c (D.crash_states_are_images k.device c honest left) };

    fn banner(&self) -> &Banner {
        &self.slot.root.banner
    }

    fn is_usable(&self) -> bool {
        self.usable
    }

    fn figures(&self) -> Figures {
        Figures {
            keys: self.slot.root.keys,
            free: self.free(),
            generation: self.slot.seal,
        }
    }

    fn get(
        &mut self,
        key: &[u8],
        buffer: &mut [u8; LONGEST_VALUE],
    ) -> Result<Option<usize>, KeeperFault>
        ensures value { IsTrue (held D.state self.old).honest → IfOk result (λ found. IsValueAt key.now buffer.new found (held D.state self.old).pairs) }
        ensures fills { FillsBuffer result buffer.old buffer.new }
        ensures only { StoreReadsOnly (held D.state) (needs D.state) (crashes_of D.moment D.possible_since) self.old self.new }
        ensures fails { FailsToLookUp (held D.state self.old) (held D.state self.new) result }
        ensures work { ReadsPages (held D.state self.old).height (held D.state self.old).made (held D.state self.new).made }

        // The leaf that a walk has kept stays, so that the walk goes on from it.
        ensures leaf { kept_by self.new ≡ kept_by self.old }
    {
        if !self.usable {
            return Err(KeeperFault::Failed);
        }
        match find_value(
            &mut self.device,
            &mut self.places,
            TreeRoot::under(&self.slot),
            key,
            buffer,
        ) {
            Ok(found) => Ok(found),
            Err(fault) => Err(KeeperFault::from(fault)),
        }
    }

    fn next(
        &mut self,
        after: &[u8],
        key: &mut [u8; LONGEST_KEY],
        value: &mut [u8; LONGEST_VALUE],
    ) -> Result<Option<(usize, usize)>, KeeperFault>
        ensures pair { IsTrue (held D.state self.old).honest → IfOk result (λ found. IsPairAfter after.now key.new value.new found (held D.state self.old).pairs) }
        ensures fills { FillsBuffers result key.old key.new value.old value.new }
        ensures only { StoreReadsOnly (held D.state) (needs D.state) (crashes_of D.moment D.possible_since) self.old self.new }
        ensures fails { FailsToLookUp (held D.state self.old) (held D.state self.new) result }
        ensures work { ReadsPages (pages_tried (held D.state self.old).height) (held D.state self.old).made (held D.state self.new).made }
        ensures walks { WalksByLeaf self.old self.new after.now key.new value.new result }
    {
        if !self.usable {
            return Err(KeeperFault::Failed);
        }
        match find_next(
            &mut self.device,
            &self.slot,
            &mut self.kept,
            after,
            key,
            value,
        ) {
            Ok(found) => Ok(found),
            Err(fault) => Err(KeeperFault::from(fault)),
        }
    }

    fn commit(&mut self, batch: &[Edit], banner: Banner) -> Result<(), KeeperFault>
        requires batch { IsTrue (is_batch batch.now) }
        requires banner { TakesBanner is_tree_version banner }
        ensures done { OnOk result (CommitsBatch (held D.state self.old) (held D.state self.new) batch.now banner (needs D.state self.old batch.now)) }
        ensures fault { IfErr result (FailsToCommit (held D.state self.old) (held D.state self.new) (length batch.now) (needs D.state self.old batch.now) (needs D.state self.old) (needs D.state self.new)) }
        ensures ended { CommitsNoMore (held D.state self.old) (held D.state self.new) result }
        ensures counts { CountsCommit (held D.state self.old) (held D.state self.new) (length batch.now) result }
        ensures at_crash { CommitCrashes (crashes_of D.moment D.possible_since) TreeHas (held D.state) self.old self.new batch.now banner result }
        ensures writes { WritesTree D.state (crashes_of D.moment D.possible_since) self.old self.new batch.now banner result }
    {
        if !self.usable {
            return Err(KeeperFault::Failed);
        }
        if self.top == u64::MAX {
            return Err(KeeperFault::Spent);
        }
        let seal = self.top + 1;
        let plan = match plan_commit(
            self.alloc,
            &mut self.device,
            &mut self.ledger,
            &self.slot,
            seal,
            batch,
            banner,
        ) {
            Ok(plan) => plan,
            Err(fault) => return Err(fault),
        };
        self.kept.clear();
        self.places.clear();
        self.top = seal;
        self.usable = false;
        match write_plan(&mut self.device, &mut self.ledger, &self.slot, &plan) {
            Ok(()) => {
                self.slot = plan.slot;
                self.usable = true;
                Ok(())
            }
            Err(_) => Err(KeeperFault::Failed),
        }
    }
}
