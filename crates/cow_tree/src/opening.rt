// Opening an image of a tree.
ghost use Rattle.std.specs.Prelude.{◌≡◌, ◌≤◌, ◌<◌, ◌*◌, ◌+◌, ◌-◌, [], IsTrue, IfOk, OnOk, IfErr, length};
ghost use Rattle.page_store.specs.Sizes.{most_pages};
ghost use Rattle.sector_device.specs.Effects.{MadeExactly, MadeAtMost, MadeIfOk};
ghost use Rattle.page_alloc.specs.Calls.{fresh};
ghost use Rattle.page_store.specs.Counting.{CountsStoreReads};
ghost use Rattle.page_store.specs.Sectors.{page_of};
ghost use Rattle.page_store.specs.Steps.{crash_states_of};
ghost use Rattle.page_store.specs.DeviceEffects.{IsReadCall};
ghost use Rattle.page_store.specs.Opening.{ReadsToOpen, MadeToOpen, FindsSlot, RefusesToOpen};
ghost use Rattle.page_store.specs.Content.{is_tree_version, tree_of};
ghost use Rattle.page_store.specs.declared.fault.KeeperFault.TheVariants.{Memory};
ghost use Rattle.cow_tree.specs.NamedWalks.{root_or_name};
ghost use Rattle.cow_tree.specs.Walks.{TellsWalk, Names, WalksPages};
ghost use Rattle.cow_tree.specs.Opening.{bounds_under, IsRooted, MayName, IsSlotOpened, IsOpenedTree, IsTreeSlotFault, IsTreeOpenFault, LeavesSynced};
ghost use Rattle.cow_tree.specs.TreeOpening.{MayBeTreeSlot, FitsOpened, FindsSlotTree, OpensTree};
ghost use Rattle.cow_tree.specs.Work.{ReadsEachOnce};
ghost use Rattle.cow_tree.specs.TreeSeen.{device_of, held};

use crate::TreeKeeper;
use crate::kept_leaf::KeptLeaf;
use crate::kept_places::KeptPlaces;
use crate::opening_walk::walk_tree;
use crate::page_fault::PageFault;
use page_alloc::Ledger;
use page_store::{KeeperFault, Roots, Slot, open_roots, sync_all};
use sector_device::Device;
use std::alloc::Global;
use tree_nodes::ImageBounds;

/// Whether images of that version are trees of pages.
fn is_tree_version(version: u16) -> bool
    ensures { result ≡ is_tree_version version }
{
    version == 1 || version == 2
}

/// Finds the current slot of an image of a tree, and the greatest seal.
fn tree_slot<D: Device>(device: &mut D) -> Result<(Slot, u64), KeeperFault>
    requires { 128 ≤ (D.state device.old).size }
    ensures found { IfOk result (λ found. FindsSlot (D.state device.old) (λ version. IsTrue (is_tree_version version)) found.0 found.1) }
    ensures sealed { IfOk result (λ found. found.0.seal ≤ found.1) }
    ensures fault { IfErr result (IsTreeSlotFault (D.state device.old)) }
    ensures device { IsReadCall D.state (crash_states_of D.moment D.possible_since) device.old device.new }
    ensures reads { CountsStoreReads result (D.state device.old).failed_reads (D.state device.new).failed_reads }
    ensures work { MadeIfOk result 16 0 0 (D.state device.old) (D.state device.new) }
{
    let Ok(roots) = open_roots(device) else {
        return Err(KeeperFault::Device);
    };
    let Roots { current, greatest } = roots;
    let Some(slot) = current else {
        return Err(KeeperFault::NoImage);
    };
    if !is_tree_version(slot.root.banner.version) {
        return Err(KeeperFault::Version);
    }
    let top = if greatest < slot.seal {
        slot.seal
    } else {
        greatest
    };
    Ok((slot, top))
}

/// Makes sure of what is there, and finds the current slot of an image of a tree and the greatest seal.
fn open_slot<D: Device>(device: &mut D) -> Result<(Slot, u64), KeeperFault>
    ensures opened { IfOk result (λ found. IsSlotOpened (D.state device.old) (D.state device.new) (crash_states_of D.moment D.possible_since device.new) found.0 found.1) }
    ensures slot { IfOk result (λ found. MayBeTreeSlot (D.state device.old).size found.0 found.1) }
    ensures opens { ReadsToOpen D.state (crash_states_of D.moment D.possible_since) device.old device.new IsTreeOpenFault result }
    ensures synced { IfErr result (LeavesSynced (D.state device.old) (D.state device.new) (crash_states_of D.moment D.possible_since device.new)) }
    ensures work { OnOk result (MadeExactly 16 0 1 (D.state device.old) (D.state device.new)) }
    ensures work_on_fault { IfErr result (λ e. MadeAtMost (D.state device.old).size 0 1 (D.state device.old) (D.state device.new)) }
{
    if device.sectors() < 128 {
        return Err(KeeperFault::Small);
    }
    if sync_all(device).is_err() {
        return Err(KeeperFault::Device);
    }
    let found = tree_slot(device)?;
    Ok(found)
}

/// Walks the tree that a slot names, if it names one as it may, and counts its pairs.
fn count_tree<D: Device>(device: &mut D, ledger: &mut Ledger, slot: &Slot) -> Result<u64, PageFault>
    requires pages { length ledger.old.lives ≡ slot.now.root.pages }
    requires fits { 8 * slot.now.root.pages ≤ (D.state device.old).size }
    ensures answered { IsTrue (D.state device.old).honest → TellsWalk (tree_of (page_of (D.state device.old).disk.view) (bounds_under slot.now) slot.now.root.height slot.now.root.tree) ledger.old ledger.new result }
    ensures named { IfErr result (Names (D.state device.old) (λ bytes. root_or_name slot.now.number bytes (bounds_under slot.now) slot.now.root.height slot.now.root.tree) ledger.old) }
    ensures rooted { OnOk result (IsRooted slot.now.root) }
    ensures walks { WalksPages D.state (crash_states_of D.moment D.possible_since) device.old device.new ledger.old ledger.new (MayName slot.now) result }
    ensures work { ReadsEachOnce (D.state device.old) (D.state device.new) ledger.old ledger.new }
{
    let root = &slot.root;
    if root.height == 0 {
        if root.tree != 0 {
            return Err(PageFault::Damaged { page: slot.number });
        }
        return Ok(0);
    }
    if root.height > 16 || root.tree < 2 || root.tree >= root.pages {
        return Err(PageFault::Damaged { page: slot.number });
    }
    let bounds = ImageBounds {
        pages: root.pages,
        seal: slot.seal,
    };
    walk_tree(
        device,
        ledger,
        bounds,
        root.height - 1,
        root.tree,
        &[],
        None,
    )
}

/// Walks the tree of a slot, and tests the count of its keys.
fn walk_slot<D: Device>(device: &mut D, ledger: &mut Ledger, slot: &Slot) -> Result<(), PageFault>
    requires fresh { ledger.old ≡ fresh slot.now.root.pages slot.now.seal }
    requires small { slot.now.root.pages ≤ most_pages }
    requires fits { 8 * slot.now.root.pages ≤ (D.state device.old).size }
    ensures found { FindsSlotTree (D.state device.old) slot.now ledger.new result }
    ensures walks { WalksPages D.state (crash_states_of D.moment D.possible_since) device.old device.new ledger.old ledger.new (MayName slot.now) result }
    ensures work { ReadsEachOnce (D.state device.old) (D.state device.new) ledger.old ledger.new }
{
    let count = count_tree(device, ledger, slot)?;
    if count != slot.root.keys {
        return Err(PageFault::Damaged { page: slot.number });
    }
    Ok(())
}

/// A ledger for the image of a slot, of which no page is held.
fn new_ledger(alloc: Global, slot: &Slot) -> Result<Ledger, KeeperFault>
    requires { 2 ≤ slot.now.root.pages }
    ensures fresh { IfOk result (λ ledger. ledger ≡ fresh slot.now.root.pages slot.now.seal) }
    ensures memory { IfErr result (λ e. e ≡ Memory) }
{
    match Ledger::new(alloc, slot.root.pages, slot.seal) {
        Ok(ledger) => Ok(ledger),
        Err(_) => Err(KeeperFault::Memory),
    }
}

/// Finds the current slot of an image of a tree, which of its pages are held and the greatest seal, and tests everything.
fn open_parts<D: Device>(alloc: Global, device: &mut D) -> Result<(Slot, Ledger, u64), KeeperFault>
    ensures opened { IfOk result (λ parts. IsOpenedTree (D.state device.old) (D.state device.new) (crash_states_of D.moment D.possible_since device.new) parts.0 parts.1 parts.2) }
    ensures fits { IfOk result (λ parts. FitsOpened (D.state device.old).size parts.0 parts.1 parts.2) }
    ensures opens { ReadsToOpen D.state (crash_states_of D.moment D.possible_since) device.old device.new IsTreeOpenFault result }
    ensures synced { IfErr result (LeavesSynced (D.state device.old) (D.state device.new) (crash_states_of D.moment D.possible_since device.new)) }
    ensures work { IfOk result (λ parts. MadeToOpen (16 + 8 * (parts.0.root.pages - 2)) (D.state device.old) (D.state device.new)) }
    ensures work_on_fault { IfErr result (λ e. MadeAtMost (D.state device.old).size 0 1 (D.state device.old) (D.state device.new)) }
{
    let (slot, top) = open_slot(device)?;
    let mut ledger = new_ledger(alloc, &slot)?;
    match walk_slot(device, &mut ledger, &slot) {
        Ok(()) => Ok((slot, ledger, top)),
        Err(fault) => Err(KeeperFault::from(fault)),
    }
}

impl<D: Device> TreeKeeper<D> {
    /// Opens the image on a device. A refusal hands the device back, `Small` before anything was asked of it.
    ///
    /// Refusals in order: `Small` under 128 sectors; `Device` where a read or the sync failed; `NoImage` where no root slot is valid; `Version` where the current one isn't of a
    /// tree; `Damaged` where the image has no content. `Memory` may stand in place of `Damaged` and of success.
    pub fn open(alloc: Global, device: D) -> Result<TreeKeeper<D>, (KeeperFault, D)>
        ensures opened { IfOk result (OpensTree D.state (crash_states_of D.moment D.possible_since) device) }
        ensures refused { IfErr result (λ e. RefusesToOpen D.state (crash_states_of D.moment D.possible_since) device IsTreeOpenFault e.1 e.0) }
        // But for `Small`, what was there is made sure of before anything is read.
        ensures synced { IfErr result (λ e. LeavesSynced (D.state device) (D.state e.1) (crash_states_of D.moment D.possible_since e.1) e.0) }
    {
        let mut device = device;
        match open_parts(alloc, &mut device) {
            Ok((slot, ledger, top)) => Ok(TreeKeeper {
                alloc,
                device,
                slot,
                ledger,
                top,
                usable: true,
                kept: KeptLeaf::none(),
                places: KeptPlaces::none(alloc),
                pinned: [None; 32],
            }),
            Err(fault) => Err((fault, device)),
        }
    }

    /// The device, whether a write or a sync has failed or not. No pin is out.
    pub fn into_device(self) -> D
        requires unpinned { (held D.state self).pins ≡ [] }
        ensures { result ≡ device_of self }
    {
        let TreeKeeper {
            alloc: _,
            device,
            slot: _,
            ledger: _,
            top: _,
            usable: _,
            kept: _,
            places: _,
            pinned: _,
        } = self;
        device
    }
}
