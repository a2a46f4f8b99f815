// What writing all pairs of a tree anew is to write.
ghost use Rattle.std.specs.Prelude.{◌≡◌, ◌<◌, ◌+◌, ℕ, false, IsTrue, IfOk, IfErr, length};
ghost use Rattle.page_alloc.specs.LedgerState.{free_count, is_alive, is_taken, mark_of};
ghost use Rattle.page_store.specs.Sectors.{Image};
ghost use Rattle.page_store.specs.Steps.{crash_states_of};
ghost use Rattle.tree_nodes.specs.Growth.{owned_under};
ghost use Rattle.tree_loading.specs.Filled.{filled};
ghost use Rattle.cow_tree.specs.PlanCalls.{HasMarksOf, MayBeFilled, PlansPairs, PlansFilled, PlansWithin, MarksOrStays};
ghost use Rattle.cow_tree.specs.TreeState.{FitsTree, IsThere};
ghost use Rattle.cow_tree.specs.Drafts.{IsCountedRead, OnlyMarks, OnlyRetires, TellsDraft};
ghost use Rattle.cow_tree.specs.Plans.{IsHeld, IsPlanned, IsRoomFault};
ghost use Rattle.cow_tree.specs.Compacting.{NeedsFilled, IsFillFault};

use crate::all_pairs::all_pairs;
use crate::drafts::Draft;
use crate::plans::{Plan, plan_draft};
use page_alloc::Ledger;
use page_store::{KeeperFault, Pair, Slot};
use sector_device::Device;
use std::alloc::Global;
use tree_loading::filled_tree;

/// The running commit gives all pages of the current generation up.
fn retire_all(ledger: &mut Ledger, slot: &Slot)
    requires pages { length ledger.old.lives ≡ slot.now.root.pages }
    requires marked { length ledger.old.marks ≡ slot.now.root.pages }
    ensures only { OnlyRetires ledger.old ledger.new }
    ensures none { (n : ℕ) → is_alive ledger.new n ≡ false }
    ensures untaken { ((n : ℕ) → is_taken (mark_of ledger.old n) ≡ false) → (n : ℕ) → is_taken (mark_of ledger.new n) ≡ false }
{
    for page in 0..slot.root.pages {
        if ledger.lives(page) {
            ledger.retire(page);
        }
    }
}

/// Plans a commit of these pairs in filled pages, in place of all pages of the current generation.
fn plan_pairs(
    alloc: Global,
    ledger: &mut Ledger,
    slot: &Slot,
    pairs: Vec<Pair>,
    seal: u64,
) -> Result<Plan, KeeperFault>
    requires ledger { HasMarksOf slot.now ledger.old }
    requires pairs { MayBeFilled pairs.items }
    requires later { slot.now.seal < seal }
    ensures made { IfOk result (PlansPairs slot.now seal pairs.items (free_count ledger.old)) }
    ensures none { (n : ℕ) → IfOk result (λ plan. is_alive ledger.new n ≡ false) }
    ensures planned { (view : Image) (top : ℕ) → IsHeld view slot.now top ledger.old → ((n : ℕ) → is_taken (mark_of ledger.old n) ≡ false) → seal ≡ top + 1 →
        TellsDraft ⊥ result (IsPlanned view slot.now top pairs.items ledger.new) }
    ensures marks { OnlyMarks ledger.old ledger.new }
    ensures fault { IfErr result (IsRoomFault (free_count ledger.old) (λ need. need ≡ owned_under (filled pairs.items).root)) }
{
    let banner = slot.root.banner.clone()?;
    let keys = pairs.len() as u64;
    let tree = filled_tree(alloc, pairs)?;
    retire_all(ledger, slot);
    let draft = Draft { tree, keys };
    plan_draft(alloc, ledger, slot, &draft, seal, banner)
}

/// Plans a commit of all pairs of the tree under a slot in filled pages: they are read, and nothing is written. Where it is refused, the ledger is as before.
pub(crate) fn plan_compaction<D: Device>(
    alloc: Global,
    device: &mut D,
    ledger: &mut Ledger,
    slot: &Slot,
    seal: u64,
) -> Result<Plan, KeeperFault>
    requires fitted { FitsTree (D.state device.old).size slot.now ledger.old }
    requires later { slot.now.seal < seal }
    ensures made { IfOk result (PlansWithin slot.now seal slot.now.root.banner (free_count ledger.old)) }
    ensures keys { IfOk result (λ plan. plan.slot.root.keys ≡ slot.now.root.keys) }
    ensures planned { IsTrue (D.state device.old).honest → PlansFilled slot.now (D.state device.old).disk.view seal ledger.old ledger.new result }
    ensures ledger { MarksOrStays ledger.old ledger.new result }
    ensures fault { IfErr result (IsFillFault (free_count ledger.old) (λ need. IsTrue (D.state device.old).honest → IsThere (D.state device.old).disk.view slot.now ledger.old → NeedsFilled slot.now (D.state device.old).disk.view need)) }
    ensures reads { IsCountedRead D.state (crash_states_of D.moment D.possible_since) device.old device.new result }
{
    let pairs = all_pairs(alloc, device, slot)?;
    match plan_pairs(alloc, ledger, slot, pairs, seal) {
        Ok(plan) => Ok(plan),
        Err(fault) => {
            ledger.abandon();
            Err(fault)
        }
    }
}
