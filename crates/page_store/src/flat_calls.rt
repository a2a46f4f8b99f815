// The calls of a keeper of flat pages.
ghost use Rattle.std.specs.Prelude.{refl, ◌+◌, length, IsTrue, OnOk, OnErr, IfErr};
ghost use Rattle.page_store.specs.Batch.{is_batch};
ghost use Rattle.page_store.specs.FlatCommits.{WritesOtherHalf, MayWriteHalf, HoldsHalf, HoldsOldHalf, CountsHalf, CrashesHalfWay};
ghost use Rattle.page_store.specs.FlatPlan.{IsFlatPlan};
ghost use Rattle.page_store.specs.CommitCalls.{TakesBanner, CommitsBatch, FailsToCommit, CommitsNoMore, CountsCommit, CommitCrashes};
ghost use Rattle.page_store.specs.FlatSeen.{held, device_of, slot_of, pairs_of, top_of, is_open, crashes_of};
ghost use Rattle.page_store.specs.Content.{is_opened, ImageHas};
ghost use Rattle.page_store.specs.Sectors.{Image};
ghost use Rattle.page_store.specs.Steps.{crash_states_of};
ghost use Rattle.page_store.specs.FlatState.{FlatNeeds};
ghost use Rattle.page_store.specs.CrashStatesRepresent.{crash_states_represent_content, opens_zero, no_levels, one_flat_need};

use crate::batch::{next_pair, value_of};
use crate::commit::commit_pages;
use crate::flat_plan::{Plan, planned};
use crate::{Banner, Edit, Figures, FlatKeeper, Keeper, KeeperFault, LONGEST_KEY, LONGEST_VALUE};
use sector_device::{Device, DeviceFault};

impl<D: Device> FlatKeeper<D> {
    /// Writes a commit to the other half that was planned. Where a write or a sync fails, nothing is held anew, and no further commit is taken.
    fn write_plan(&mut self, plan: Plan) -> Result<(), DeviceFault>
        requires plan { IsFlatPlan (slot_of self.old) (top_of self.old + 1) plan.pairs.items plan.slot.root.banner plan }
        requires may { MayWriteHalf (is_open self.old) (top_of self.old) plan }
        ensures at_crash { IsTrue (D.state (device_of self.old)).honest → CrashesHalfWay D.state (crashes_of D.moment D.possible_since) self.old self.new plan }
        ensures done { OnOk result (HoldsHalf plan self.new) }
        ensures failed { OnErr result (HoldsOldHalf self.old self.new) }
        ensures counts { CountsHalf D.state self.old self.new (length plan.pages.items) result }
    {
        let Plan {
            pairs,
            pages,
            slot,
            root,
        } = plan;
        self.top += 1;
        self.usable = false;
        commit_pages(&mut self.device, &pages, &slot, &root)?;
        self.usable = true;
        self.slot = slot;
        self.pairs = pairs;
        Ok(())
    }
}

impl<D: Device> Keeper for FlatKeeper<D> {
    ghost store_state = { λ k. held D.state k };

    ghost may_need = { λ k batch need. FlatNeeds (pairs_of k) batch need };

    ghost holds_version = { is_opened };

    ghost CrashState = { Image };

    ghost has_content = { ImageHas };

    ghost crash_states = { λ k. crash_states_of D.moment D.possible_since (device_of k) };

    ghost held = { λ k. opens_zero k.slot.root.banner.version k.fitted.version };

    ghost levels = { λ k. no_levels };

    ghost ordered = { λ k honest. k.fitted.map };

    ghost one_need = { λ k batch a b honest first second. one_flat_need (pairs_of k) batch a b first second };

    ghost counts = { λ k honest. refl };

    ghost crash_states_represent = { λ k c honest usable left. crash_states_represent_content (D.state k.device).disk k.slot k.pairs.items k.top (k.crash_states_represent honest usable) k.fitted.version c (D.crash_states_are_images k.device c honest left) };

    fn banner(&self) -> &Banner {
        &self.slot.root.banner
    }

    fn is_usable(&self) -> bool {
        self.usable
    }

    fn figures(&self) -> Figures {
        Figures {
            keys: self.pairs.len() as u64,
            free: u64::from(self.slot.root.half_size()),
            generation: self.slot.seal,
        }
    }

    fn get(
        &mut self,
        key: &[u8],
        buffer: &mut [u8; LONGEST_VALUE],
    ) -> Result<Option<usize>, KeeperFault> {
        if !self.usable {
            return Err(KeeperFault::Failed);
        }
        let Some(value) = value_of(&self.pairs, key) else {
            return Ok(None);
        };
        buffer[..value.len()].copy_from_slice(value);
        Ok(Some(value.len()))
    }

    fn next(
        &mut self,
        after: &[u8],
        key: &mut [u8; LONGEST_KEY],
        value: &mut [u8; LONGEST_VALUE],
    ) -> Result<Option<(usize, usize)>, KeeperFault> {
        if !self.usable {
            return Err(KeeperFault::Failed);
        }
        let Some(pair) = next_pair(&self.pairs, after) else {
            return Ok(None);
        };
        key[..pair.key().len()].copy_from_slice(pair.key());
        value[..pair.value().len()].copy_from_slice(pair.value());
        Ok(Some((pair.key().len(), pair.value().len())))
    }

    fn commit(&mut self, batch: &[Edit], banner: Banner) -> Result<(), KeeperFault>
        requires batch { IsTrue (is_batch batch.now) }
        requires banner { TakesBanner is_opened banner }
        ensures done { OnOk result (CommitsBatch (held D.state self.old) (held D.state self.new) batch.now banner (FlatNeeds (pairs_of self.old) batch.now)) }
        ensures fault { IfErr result (FailsToCommit (held D.state self.old) (held D.state self.new) (length batch.now) (FlatNeeds (pairs_of self.old) batch.now) (FlatNeeds (pairs_of self.old)) (FlatNeeds (pairs_of self.new))) }
        ensures ended { CommitsNoMore (held D.state self.old) (held D.state self.new) result }
        ensures counts { CountsCommit (held D.state self.old) (held D.state self.new) (length batch.now) result }
        ensures at_crash { CommitCrashes (crashes_of D.moment D.possible_since) ImageHas (held D.state) self.old self.new batch.now banner result }
        ensures writes { WritesOtherHalf D.state (crashes_of D.moment D.possible_since) self.old self.new batch.now banner result }
    {
        if !self.usable {
            return Err(KeeperFault::Failed);
        }
        if self.top == u64::MAX {
            return Err(KeeperFault::Spent);
        }
        let seal = self.top + 1;
        let plan = planned(self.alloc, &self.slot, &self.pairs, seal, batch, banner)?;
        match self.write_plan(plan) {
            Ok(()) => Ok(()),
            Err(_) => Err(KeeperFault::Failed),
        }
    }
}
