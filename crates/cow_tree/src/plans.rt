// What a commit is to write, worked out whole before anything is written.
ghost use Rattle.std.specs.Prelude.{◌≡◌, ◌≤◌, ◌<◌, ◌-◌, ◌*◌, ◌^◌, ℕ, IsTrue, IfOk, IfErr, All, length, min};
ghost use Rattle.sector_device.specs.Effects.{MadeAtMost};
ghost use Rattle.page_alloc.specs.LedgerState.{free_count, is_alive};
ghost use Rattle.page_store.specs.Batch.{is_batch};
ghost use Rattle.page_store.specs.Steps.{crash_states_of};
ghost use Rattle.page_store.specs.StoreState.{most_levels};
ghost use Rattle.page_store.specs.declared.fault.KeeperFault.TheVariants.{Memory};
ghost use Rattle.tree_nodes.specs.Tree.{OldPages};
ghost use Rattle.tree_nodes.specs.Steps.{IsValidRoot};
ghost use Rattle.tree_nodes.specs.OwnedTrees.{state_of};
ghost use Rattle.tree_nodes.specs.Growth.{owned_under};
ghost use Rattle.tree_pages.specs.Written.{IsTreePage};
ghost use Rattle.cow_tree.specs.Drafts.{IsCountedRead, OnlyMarks};
ghost use Rattle.cow_tree.specs.PlanCalls.{HasLedgerOf, IsNextRoot, MayPlan, PlansDraft, PlansPages, PlansWithin, PlansBatch, NeedsFromStart, MarksOrStays};
ghost use Rattle.cow_tree.specs.Plans.{IsTreePlanFault, IsRoomFault, IsTreeFault, IsRootWritten, IsRootInside};

use crate::drafts::{Draft, draft_batch};
use crate::taking::take_pages;
use page_alloc::Ledger;
use page_store::{Banner, Edit, KeeperFault, NewPage, Root, Slot, slot_page};
use sector_device::{Device, PAGE_SIZE};
use std::alloc::Global;
use tree_nodes::OwnedTree;
use tree_pages::{fits_pages, write_node};

/// What a commit is to write: pages, and then the page of a root slot over them.
#[derive(Drop)]
pub(crate) struct Plan {
    pub(crate) pages: Vec<NewPage>,
    pub(crate) slot: Slot,
    pub(crate) root: [u8; PAGE_SIZE],
}

/// The owned nodes of a tree as pages of a generation, and the number of its root's page: 0 where there is no tree. `Damaged` where the tree doesn't fit its pages or
/// its root is no page of the image, which can come of a lying device alone.
fn write_tree(
    alloc: Global,
    slot: &Slot,
    tree: &OwnedTree,
    seal: u64,
    numbers: &[u32],
) -> Result<(u32, Vec<NewPage>), KeeperFault>
    requires room { owned_under (state_of tree.now).root ≤ length numbers.now }
    ensures written { IfOk result (λ x. IsRootWritten slot.now.root.pages seal numbers.now (state_of tree.now).height (state_of tree.now).root x.1.items x.0) }
    ensures fault { IfErr result IsTreeFault }
    ensures sound { (old : OldPages) → IsValidRoot old (state_of tree.now).root (state_of tree.now).height → IsRootInside slot.now.root.pages (state_of tree.now).root → All (λ n. IsTreePage slot.now.root.pages n) numbers.now →
        IfErr result (λ e. e ≡ Memory) }
{
    let mut pages = Vec::with_capacity(alloc, numbers.len())?;
    let Some(root) = tree.root() else {
        return Ok((0, pages));
    };
    let level = tree.height().saturating_sub(1);
    if !fits_pages(root, level) {
        return Err(KeeperFault::Damaged { page: slot.number });
    }
    let page = write_node(alloc, root, level, seal, numbers, &mut pages)?;
    if page < 2 || page >= slot.root.pages {
        return Err(KeeperFault::Damaged { page: slot.number });
    }
    Ok((page, pages))
}

/// Plans a commit of a draft: its owned nodes go to free pages, and the other slot gets the seal.
pub(crate) fn plan_draft(
    alloc: Global,
    ledger: &mut Ledger,
    slot: &Slot,
    draft: &Draft,
    seal: u64,
    banner: Banner,
) -> Result<Plan, KeeperFault>
    requires fitted { HasLedgerOf slot.now ledger.old }
    requires low { (state_of draft.now.tree).height ≤ most_levels }
    requires next { IsNextRoot slot.now seal banner }
    ensures made { IfOk result (PlansDraft slot.now seal banner draft.now (free_count ledger.old)) }
    ensures alive { (n : ℕ) → length ledger.old.marks ≡ length ledger.old.lives → IfOk result (λ plan. is_alive ledger.new n ≡ is_alive ledger.old n) }
    ensures planned { PlansPages slot.now seal banner draft.now ledger.old ledger.new result }
    ensures marks { OnlyMarks ledger.old ledger.new }
    ensures fault { IfErr result (IsRoomFault (free_count ledger.old) (λ need. need ≡ min (owned_under (state_of draft.now.tree).root) (2 ^ 64 - 1))) }
{
    let need = draft.tree.owned_nodes();
    let free = ledger.free() as u64;
    if need > free {
        return Err(KeeperFault::Full { need, free });
    }
    let numbers = take_pages(alloc, ledger, need as usize)?;
    let (tree, pages) = write_tree(alloc, slot, &draft.tree, seal, &numbers)?;
    // no root, no level
    let height = if tree == 0 { 0 } else { draft.tree.height() };
    let slot = Slot {
        number: 1 - slot.number,
        seal,
        root: Root {
            pages: slot.root.pages,
            tree,
            height,
            keys: draft.keys,
            banner,
        },
    };
    let root = slot_page(alloc, &slot)?;
    Ok(Plan { pages, slot, root })
}

/// Plans a commit of a batch to the tree under a slot: pages that its edits need are read, and nothing is written. Where it is refused, the ledger is as before.
pub(crate) fn plan_commit<D: Device>(
    alloc: Global,
    device: &mut D,
    ledger: &mut Ledger,
    slot: &Slot,
    seal: u64,
    batch: &[Edit],
    banner: Banner,
) -> Result<Plan, KeeperFault>
    requires may { MayPlan (D.state device.old).size slot.now ledger.old seal banner }
    requires batch { IsTrue (is_batch batch.now) }
    ensures made { IfOk result (PlansWithin slot.now seal banner (free_count ledger.old)) }
    ensures planned { IsTrue (D.state device.old).honest → PlansBatch slot.now (D.state device.old).disk.view seal banner batch.now ledger.old ledger.new result }
    ensures ledger { MarksOrStays ledger.old ledger.new result }
    ensures fault { IfErr result (IsTreePlanFault (free_count ledger.old) (λ need. IsTrue (D.state device.old).honest → NeedsFromStart slot.now (D.state device.old).disk.view batch.now ledger.old need)) }
    ensures reads { IsCountedRead D.state (crash_states_of D.moment D.possible_since) device.old device.new result }
    // For each edit a page of each level is read at most.
    ensures work { MadeAtMost (8 * (most_levels * length batch.now)) 0 0 (D.state device.old) (D.state device.new) }
{
    let draft = match draft_batch(alloc, device, ledger, slot, batch) {
        Ok(draft) => draft,
        Err(fault) => {
            ledger.abandon();
            return Err(fault);
        }
    };
    match plan_draft(alloc, ledger, slot, &draft, seal, banner) {
        Ok(plan) => Ok(plan),
        Err(fault) => {
            ledger.abandon();
            Err(fault)
        }
    }
}
