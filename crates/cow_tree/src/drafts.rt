// A tree that a commit changes, before anything is written.
ghost use Rattle.std.specs.Prelude.{◌≡◌, ◌≢◌, ◌≤◌, ◌<◌, ◌-◌, ◌*◌, None, Some, true, IsTrue, OnOk, IfOk, IfErr, length};
ghost use Rattle.sector_device.specs.Effects.{MadeAtMost};
ghost use Rattle.page_alloc.specs.LedgerState.{is_alive};
ghost use Rattle.page_store.specs.Sectors.{Image, page_of};
ghost use Rattle.page_store.specs.Batch.{is_edit, is_batch};
ghost use Rattle.page_store.specs.Steps.{crash_states_of};
ghost use Rattle.page_store.specs.StoreState.{most_levels};
ghost use Rattle.page_store.specs.declared.fault.KeeperFault.TheVariants.{Deep, Device as NoRead};
ghost use Rattle.tree_nodes.specs.Steps.{needed_under, put_under, delete_under, supply_step, stepped};
ghost use Rattle.tree_nodes.specs.Keys.{has_under};
ghost use Rattle.tree_nodes.specs.OwnedTrees.{state_of};
ghost use Rattle.cow_tree.specs.Opening.{IsRooted};
ghost use Rattle.cow_tree.specs.Needs.{ReadsPath, MakesEdit, GivesEdited, MakesBatch, GivesDrafted};
ghost use Rattle.cow_tree.specs.Drafts.{old_under, ReadsOneMore, ReadsOneWay, ReadsToDraft, IsPutFault, IsDraftFault, OnlyRetires, HasImageOf, GoesDown, keys_with, keys_without, root_under};

use crate::opening_walk::load_page;
use crate::page_bounds::bounds_of;
use page_alloc::Ledger;
use page_store::{Edit, KeeperFault, Slot};
use sector_device::{Device, PAGE_SIZE};
use std::alloc::Global;
use tree_nodes::{NodeFault, OwnedTree};

/// How many levels a tree may have.
const MOST_LEVELS: u16 = 16;

/// A tree that a commit changes, and how many pairs it has.
#[derive(Drop)]
pub(crate) struct Draft {
    pub(crate) tree: OwnedTree,
    pub(crate) keys: u64,
}

/// Puts a page that a key needs, by its bytes, into the tree, and gives it up.
fn take_needed(
    alloc: Global,
    ledger: &mut Ledger,
    slot: &Slot,
    tree: &mut OwnedTree,
    key: &[u8],
    page: u32,
    bytes: &[u8; PAGE_SIZE],
) -> Result<(), KeeperFault>
    requires needed { needed_under key.now (state_of tree.old).root ≡ Some page }
    requires alive { is_alive ledger.old page ≡ true }
    // Of any image with these bytes at that page.
    ensures draft { (view : Image) → page_of view page ≡ bytes.now → ReadsOneMore slot.now view ledger.old (state_of tree.old) ledger.new (state_of tree.new) result }
    ensures read { (view : Image) → page_of view page ≡ bytes.now → OnOk result (state_of tree.new ≡ stepped (old_under slot.now view) (state_of tree.old) (supply_step key.now)) }
    ensures goes { OnOk result (GoesDown key.now (state_of tree.old) (state_of tree.new)) }
    ensures ledger { OnlyRetires ledger.old ledger.new }
    ensures fault { IfErr result (λ e. IsDraftFault e × (e ≢ NoRead)) }
{
    match tree.supply(alloc, bounds_of(slot), key, bytes) {
        Ok(()) => {
            ledger.retire(page);
            Ok(())
        }
        Err(NodeFault::Damaged { page }) => Err(KeeperFault::Damaged { page }),
        Err(NodeFault::Memory) => Err(KeeperFault::Memory),
    }
}

/// Reads a copy of a page that a key needs into the tree, and gives the page up.
fn load_needed<D: Device>(
    alloc: Global,
    device: &mut D,
    ledger: &mut Ledger,
    slot: &Slot,
    tree: &mut OwnedTree,
    key: &[u8],
    page: u32,
) -> Result<(), KeeperFault>
    requires alive { is_alive ledger.old page ≡ true }
    requires needed { needed_under key.now (state_of tree.old).root ≡ Some page }
    requires image { HasImageOf (D.state device.old).size slot.now ledger.old }
    ensures draft { IsTrue (D.state device.old).honest → ReadsOneMore slot.now (D.state device.old).disk.view ledger.old (state_of tree.old) ledger.new (state_of tree.new) result }
    ensures read { IsTrue (D.state device.old).honest → OnOk result (state_of tree.new ≡ stepped (old_under slot.now (D.state device.old).disk.view) (state_of tree.old) (supply_step key.now)) }
    ensures goes { OnOk result (GoesDown key.now (state_of tree.old) (state_of tree.new)) }
    ensures reads { ReadsToDraft D.state (crash_states_of D.moment D.possible_since) device.old device.new ledger.old ledger.new result }
    ensures work { MadeAtMost 8 0 0 (D.state device.old) (D.state device.new) }
{
    let mut bytes = [0; PAGE_SIZE];
    if load_page(device, page, &mut bytes).is_err() {
        return Err(KeeperFault::Device);
    }
    take_needed(alloc, ledger, slot, tree, key, page, &bytes)
}

/// Puts a page that a key needs into the tree, and gives it up.
fn read_needed<D: Device>(
    alloc: Global,
    device: &mut D,
    ledger: &mut Ledger,
    slot: &Slot,
    tree: &mut OwnedTree,
    key: &[u8],
    page: u32,
) -> Result<(), KeeperFault>
    requires needed { needed_under key.now (state_of tree.old).root ≡ Some page }
    requires image { HasImageOf (D.state device.old).size slot.now ledger.old }
    ensures draft { IsTrue (D.state device.old).honest → ReadsOneMore slot.now (D.state device.old).disk.view ledger.old (state_of tree.old) ledger.new (state_of tree.new) result }
    ensures read { IsTrue (D.state device.old).honest → OnOk result (state_of tree.new ≡ stepped (old_under slot.now (D.state device.old).disk.view) (state_of tree.old) (supply_step key.now)) }
    ensures goes { OnOk result (GoesDown key.now (state_of tree.old) (state_of tree.new)) }
    ensures reads { ReadsToDraft D.state (crash_states_of D.moment D.possible_since) device.old device.new ledger.old ledger.new result }
    ensures work { MadeAtMost 8 0 0 (D.state device.old) (D.state device.new) }
{
    if !ledger.lives(page) {
        return Err(KeeperFault::Damaged { page });
    }
    if let Some(lent) = device.page(page) {
        return take_needed(alloc, ledger, slot, tree, key, page, lent);
    }
    load_needed(alloc, device, ledger, slot, tree, key, page)
}

/// Reads pages until all nodes on a key's path are owned.
fn own_path<D: Device>(
    alloc: Global,
    device: &mut D,
    ledger: &mut Ledger,
    slot: &Slot,
    tree: &mut OwnedTree,
    key: &[u8],
) -> Result<(), KeeperFault>
    requires image { HasImageOf (D.state device.old).size slot.now ledger.old }
    requires low { (state_of tree.old).height ≤ most_levels }
    ensures draft { IsTrue (D.state device.old).honest → ReadsOneWay slot.now (D.state device.old).disk.view ledger.old (state_of tree.old) ledger.new (state_of tree.new) result }
    ensures owned { OnOk result (needed_under key.now (state_of tree.new).root ≡ None) }
    ensures path { IsTrue (D.state device.old).honest → ReadsPath slot.now (D.state device.old).disk.view key.now ledger.old (state_of tree.old) (state_of tree.new) result }
    ensures height { OnOk result ((state_of tree.new).height ≡ (state_of tree.old).height) }
    ensures reads { ReadsToDraft D.state (crash_states_of D.moment D.possible_since) device.old device.new ledger.old ledger.new result }
    ensures work { MadeAtMost (8 * most_levels) 0 0 (D.state device.old) (D.state device.new) }
{
    while let Some(page) = tree.needed(key) {
        read_needed(alloc, device, ledger, slot, tree, key, page)?;
    }
    Ok(())
}

/// Refuses a tree of too many levels.
fn test_depth(tree: &OwnedTree) -> Result<(), KeeperFault>
    ensures low { OnOk result ((state_of tree.now).height ≤ most_levels) }
    ensures deep { IfErr result (λ e. (e ≡ Deep) × (most_levels < (state_of tree.now).height)) }
{
    if tree.height() > MOST_LEVELS {
        return Err(KeeperFault::Deep);
    }
    Ok(())
}

impl Draft {
    /// The tree under a slot, as it is.
    pub(crate) fn of(slot: &Slot) -> Draft
        ensures tree { state_of result.tree ≡ root_under slot.now }
        ensures keys { result.keys ≡ slot.now.root.keys }
    {
        let root = &slot.root;
        let tree = if root.height == 0 {
            OwnedTree::new()
        } else {
            OwnedTree::at_page(root.tree, root.height)
        };
        Draft {
            tree,
            keys: root.keys,
        }
    }

    /// Puts a value at a key, where all nodes on the key's path are owned.
    fn put(self, alloc: Global, key: &[u8], value: &[u8]) -> Result<Draft, KeeperFault>
        requires low { (state_of self.tree).height ≤ most_levels }
        requires owned { needed_under key.now (state_of self.tree).root ≡ None }
        ensures tree { IfOk result (λ draft. state_of draft.tree ≡ put_under key.now value.now (state_of self.tree).root (state_of self.tree).height) }
        ensures keys { IfOk result (λ draft. draft.keys ≡ keys_with (has_under key.now (state_of self.tree).root) self.keys) }
        ensures low { IfOk result (λ draft. (state_of draft.tree).height ≤ most_levels) }
        ensures fault { IfErr result (IsPutFault (put_under key.now value.now (state_of self.tree).root (state_of self.tree).height)) }
    {
        let Draft { tree, keys } = self;
        let keys = if tree.contains(key) {
            keys
        } else {
            keys.saturating_add(1)
        };
        let (tree, _) = tree.put(alloc, key, value)?;
        test_depth(&tree)?;
        Ok(Draft { tree, keys })
    }

    /// Takes a key away, where all nodes on the key's path are owned.
    fn delete(self, key: &[u8]) -> Draft
        requires owned { needed_under key.now (state_of self.tree).root ≡ None }
        ensures tree { state_of result.tree ≡ delete_under key.now (state_of self.tree).root (state_of self.tree).height }
        ensures keys { result.keys ≡ keys_without (has_under key.now (state_of self.tree).root) self.keys }
    {
        let Draft { tree, keys } = self;
        let keys = if tree.contains(key) {
            keys.saturating_sub(1)
        } else {
            keys
        };
        let mut tree = tree;
        tree.delete(key);
        Draft { tree, keys }
    }

    /// Makes an edit, once the pages that its key needs are read.
    fn edit<D: Device>(
        self,
        alloc: Global,
        device: &mut D,
        ledger: &mut Ledger,
        slot: &Slot,
        edit: &Edit,
    ) -> Result<Draft, KeeperFault>
        requires image { HasImageOf (D.state device.old).size slot.now ledger.old }
        requires low { (state_of self.tree).height ≤ most_levels }
        requires sizes { IsTrue (is_edit edit.now) }
        ensures draft { IsTrue (D.state device.old).honest → MakesEdit slot.now (D.state device.old).disk.view edit.now ledger.old self ledger.new result }
        ensures made { IsTrue (D.state device.old).honest → GivesEdited slot.now (D.state device.old).disk.view edit.now ledger.old self result }
        ensures low { IfOk result (λ draft. (state_of draft.tree).height ≤ most_levels) }
        ensures reads { ReadsToDraft D.state (crash_states_of D.moment D.possible_since) device.old device.new ledger.old ledger.new result }
        ensures work { MadeAtMost (8 * most_levels) 0 0 (D.state device.old) (D.state device.new) }
    {
        let Draft { tree, keys } = self;
        let mut tree = tree;
        let key = edit.key.as_slice();
        own_path(alloc, device, ledger, slot, &mut tree, key)?;
        let draft = Draft { tree, keys };
        match &edit.value {
            Some(value) => draft.put(alloc, key, value.as_slice()),
            None => Ok(draft.delete(key)),
        }
    }
}

/// Makes the edits of a batch in the tree under a slot, one after another; the pages that they need are read, and given up.
pub(crate) fn draft_batch<D: Device>(
    alloc: Global,
    device: &mut D,
    ledger: &mut Ledger,
    slot: &Slot,
    batch: &[Edit],
) -> Result<Draft, KeeperFault>
    requires image { HasImageOf (D.state device.old).size slot.now ledger.old }
    requires rooted { IsRooted slot.now.root }
    requires batch { IsTrue (is_batch batch.now) }
    ensures draft { IsTrue (D.state device.old).honest → MakesBatch slot.now (D.state device.old).disk.view batch.now ledger.old ledger.new result }
    ensures made { IsTrue (D.state device.old).honest → GivesDrafted slot.now (D.state device.old).disk.view batch.now ledger.old result }
    ensures low { IfOk result (λ draft. (state_of draft.tree).height ≤ most_levels) }
    ensures reads { ReadsToDraft D.state (crash_states_of D.moment D.possible_since) device.old device.new ledger.old ledger.new result }
    ensures work { MadeAtMost (8 * (most_levels * length batch.now)) 0 0 (D.state device.old) (D.state device.new) }
{
    let mut draft = Draft::of(slot);
    for edit in batch {
        draft = draft.edit(alloc, device, ledger, slot, edit)?;
    }
    Ok(draft)
}
