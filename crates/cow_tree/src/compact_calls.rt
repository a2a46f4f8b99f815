// A keeper of a tree is written anew.
ghost use Rattle.std.specs.Prelude.{true, OnOk, IfErr};
ghost use Rattle.page_store.specs.CommitCalls.{CommitsNoMore};
ghost use Rattle.page_store.specs.CompactCalls.{WritesAnew, FailsToCompact, CountsCompaction, CompactionCrashes};
ghost use Rattle.cow_tree.specs.Compacting.{MayNeedFilled, IsFilledTree};
ghost use Rattle.cow_tree.specs.Committed.{TreeHas};
ghost use Rattle.cow_tree.specs.TreeCommitCalls.{WritesTreeAnew};
ghost use Rattle.cow_tree.specs.TreeSeen.{held, device_of, slot_of, needs, takes, crashes_of};

use crate::TreeKeeper;
use crate::commits::write_plan;
use crate::compaction::plan_compaction;
use page_store::{CompactKeeper, KeeperFault};
use sector_device::Device;

impl<D: Device> CompactKeeper for TreeKeeper<D> {
    ghost compact_need = { λ k need. MayNeedFilled (slot_of k) (D.state (device_of k)) need };

    ghost is_filled = { λ k. IsFilledTree (slot_of k) (D.state (device_of k)).disk.view };

    ghost few_pages = { λ k n honest need. (need honest).most };

    fn compact(&mut self) -> Result<(), KeeperFault>
        ensures done { OnOk result (WritesAnew (held D.state self.old) (held D.state self.new) (IsFilledTree (slot_of self.new) (D.state (device_of self.new)).disk.view) (takes D.state self.old)) }
        ensures fault { IfErr result (FailsToCompact (held D.state) (takes D.state) (needs D.state) self.old self.new) }
        ensures ended { CommitsNoMore (held D.state self.old) (held D.state self.new) result }
        ensures counts { CountsCompaction (held D.state self.old) (held D.state self.new) result }
        ensures at_crash { CompactionCrashes (crashes_of D.moment D.possible_since) TreeHas (held D.state) self.old self.new result }
        ensures writes { WritesTreeAnew D.state (crashes_of D.moment D.possible_since) self.old self.new result }
    {
        if !self.usable {
            return Err(KeeperFault::Failed);
        }
        if self.top == u64::MAX {
            return Err(KeeperFault::Spent);
        }
        let seal = self.top + 1;
        let plan = match plan_compaction(
            self.alloc,
            &mut self.device,
            &mut self.ledger,
            &self.slot,
            seal,
        ) {
            Ok(plan) => plan,
            Err(fault) => return Err(fault),
        };
        self.kept.clear();
        self.places.clear();
        self.top = seal;
        self.usable = false;
        match write_plan(&mut self.device, &mut self.ledger, &self.slot, &plan) {
            Ok(()) => {
                self.slot = plan.slot;
                self.usable = true;
                Ok(())
            }
            Err(_) => Err(KeeperFault::Failed),
        }
    }
}
