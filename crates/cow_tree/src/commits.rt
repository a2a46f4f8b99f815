// Writing what a commit has planned.
ghost use Rattle.std.specs.Prelude.{◌<◌, ◌*◌, ◌+◌, IsTrue, length};
ghost use Rattle.sector_device.specs.Effects.{WriteOutcome, MadeIfOk};
ghost use Rattle.page_store.specs.Steps.{crash_states_of};
ghost use Rattle.cow_tree.specs.Committed.{MayWritePlan};
ghost use Rattle.cow_tree.specs.PlanCalls.{HasPlaceFor, WritesPlan, AdvancesLedger};

use crate::plans::Plan;
use page_alloc::Ledger;
use page_store::{Slot, commit_pages};
use sector_device::{Device, DeviceFault};

/// Writes a plan, after which the ledger is of the generation that it made. Where a write or a sync fails, the ledger is as before the commit.
pub(crate) fn write_plan<D: Device>(
    device: &mut D,
    ledger: &mut Ledger,
    slot: &Slot,
    plan: &Plan,
) -> Result<(), DeviceFault>
    requires fits { HasPlaceFor (D.state device.old).size plan.now }
    requires later { ledger.old.generation < plan.now.slot.seal }
    requires planned { IsTrue (D.state device.old).honest → MayWritePlan (D.state device.old).disk.view (crash_states_of D.moment D.possible_since device.old) slot.now ledger.old plan.now }
    ensures writes { WritesPlan D.state (crash_states_of D.moment D.possible_since) device.old device.new slot.now ledger.old ledger.new plan.now result }
    ensures ledger { AdvancesLedger ledger.old ledger.new plan.now.slot.seal result }
    ensures outcome { WriteOutcome result (D.state device.old) (D.state device.new) }
    ensures work { MadeIfOk result 0 (8 * length plan.now.pages.items + 8) 2 (D.state device.old) (D.state device.new) }
{
    match commit_pages(device, &plan.pages, &plan.slot, &plan.root) {
        Ok(()) => {
            ledger.advance(plan.slot.seal);
            Ok(())
        }
        Err(fault) => {
            ledger.abandon();
            Err(fault)
        }
    }
}
