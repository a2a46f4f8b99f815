// Opening an image of flat pages.
ghost use Rattle.std.specs.Prelude.{◌≡◌, ◌≤◌, ◌*◌, ◌+◌, ◌==◌, IfOk, OnOk, IfErr};
ghost use Rattle.std.specs.List.{list_all};
ghost use Rattle.page_store.specs.Sizes.{most_pages};
ghost use Rattle.sector_device.specs.Effects.{MadeExactly, MadeAtMost, MadeIfOk};
ghost use Rattle.page_store.specs.Counting.{CountsStoreReads};
ghost use Rattle.page_store.specs.Batch.{is_map, is_pair, is_key, is_value};
ghost use Rattle.page_store.specs.Flat.{half_size, is_half};
ghost use Rattle.page_store.specs.Steps.{crash_states_of};
ghost use Rattle.page_store.specs.DeviceEffects.{IsReadCall};
ghost use Rattle.page_store.specs.Opening.{ReadsToOpen, MadeToOpen, FindsSlot, RefusesToOpen};
ghost use Rattle.page_store.specs.FlatOpening.{OpensFlat};
ghost use Rattle.page_store.specs.FlatState.{IsFitted, IsFlatOpened, IsSlotFault, IsOpenFault, HasOpened};
ghost use Rattle.page_store.specs.FlatSeen.{device_of};
ghost use Rattle.page_store.specs.Roots.{IsFoundSlot};

use crate::flat_reading::read_half;
use crate::pages::sync_all;
use crate::pair::keys_rise;
use crate::roots::{Roots, open_roots};
use crate::{FlatKeeper, KeeperFault, LONGEST_KEY, LONGEST_VALUE, Pair, Root, Slot};
use sector_device::Device;
use std::alloc::Global;

/// Whether the record names the first page of a half.
fn is_half(root: &Root) -> bool
    requires some { 2 ≤ root.now.pages }
    requires small { root.now.pages ≤ most_pages }
    ensures { result ≡ is_half root.now }
{
    root.height == 0 && (root.tree == 2 || root.tree == 2 + root.half_size())
}

/// Finds the current slot of a flat image, and the greatest seal.
fn flat_slot<D: Device>(device: &mut D) -> Result<(Slot, u64), KeeperFault>
    requires { 128 ≤ (D.state device.old).size }
    ensures found { IfOk result (λ found. FindsSlot (D.state device.old) (λ version. version ≡ 0) found.0 found.1) }
    ensures fault { IfErr result (IsSlotFault (D.state device.old)) }
    ensures device { IsReadCall D.state (crash_states_of D.moment D.possible_since) device.old device.new }
    ensures reads { CountsStoreReads result (D.state device.old).failed_reads (D.state device.new).failed_reads }
    ensures work { MadeIfOk result 16 0 0 (D.state device.old) (D.state device.new) }
{
    let Ok(roots) = open_roots(device) else {
        return Err(KeeperFault::Device);
    };
    let Roots { current, greatest } = roots;
    let Some(slot) = current else {
        return Err(KeeperFault::NoImage);
    };
    if slot.root.banner.version != 0 {
        return Err(KeeperFault::Version);
    }
    Ok((slot, greatest))
}

/// Makes sure of what is there, and finds the current slot of a flat image and the greatest seal.
fn open_slot<D: Device>(device: &mut D) -> Result<(Slot, u64), KeeperFault>
    ensures opened { IfOk result (λ found. IsFlatOpened (D.state device.old) (D.state device.new) (crash_states_of D.moment D.possible_since device.new) found.0 found.1) }
    ensures fits { IfOk result (λ found. IsFoundSlot (D.state device.old).size found.0) }
    ensures version { IfOk result (λ found. found.0.root.banner.version ≡ 0) }
    ensures large { IfOk result (λ found. 128 ≤ (D.state device.old).size) }
    ensures opens { ReadsToOpen D.state (crash_states_of D.moment D.possible_since) device.old device.new IsOpenFault result }
    ensures work { OnOk result (MadeExactly 16 0 1 (D.state device.old) (D.state device.new)) }
    ensures work_on_fault { IfErr result (λ e. MadeAtMost (D.state device.old).size 0 1 (D.state device.old) (D.state device.new)) }
{
    if device.sectors() < 128 {
        return Err(KeeperFault::Small);
    }
    if sync_all(device).is_err() {
        return Err(KeeperFault::Device);
    }
    let found = flat_slot(device)?;
    Ok(found)
}

/// Whether the key has 1 to 300 bytes, and the value at most 1,024.
#[tactic(auto, unfolding(crate::specs::Batch::is_value))]
fn is_pair(pair: &Pair) -> bool
    ensures { result ≡ is_pair pair.now }
{
    let key = pair.key().len();
    key >= 1 && key <= LONGEST_KEY && pair.value().len() <= LONGEST_VALUE
}

fn are_pairs(pairs: &[Pair]) -> bool
    ensures { result ≡ list_all is_pair pairs.now }
{
    pairs.iter().all(|pair| is_pair(pair))
}

/// Whether the keys rise, and no key or value has too many bytes.
fn is_map(pairs: &[Pair]) -> bool
    ensures { result ≡ is_map pairs.now }
{
    keys_rise(pairs) && are_pairs(pairs)
}

/// Finds the current slot of a flat image, its pairs and the greatest seal, and tests everything.
fn open_parts<D: Device>(
    alloc: Global,
    device: &mut D,
) -> Result<(Slot, Vec<Pair>, u64), KeeperFault>
    ensures opened { IfOk result (λ parts. HasOpened (D.state device.old) (D.state device.new) (crash_states_of D.moment D.possible_since device.new) parts.0 parts.1.items parts.2) }
    ensures fitted { IfOk result (λ parts. IsFitted (D.state device.old).size parts.0 parts.1.items) }
    ensures large { IfOk result (λ parts. 128 ≤ (D.state device.old).size) }
    ensures opens { ReadsToOpen D.state (crash_states_of D.moment D.possible_since) device.old device.new IsOpenFault result }
    ensures work { IfOk result (λ parts. MadeToOpen (16 + 8 * half_size parts.0.root.pages) (D.state device.old) (D.state device.new)) }
    ensures work_on_fault { IfErr result (λ e. MadeAtMost (D.state device.old).size 0 1 (D.state device.old) (D.state device.new)) }
{
    let (slot, top) = open_slot(device)?;
    if !is_half(&slot.root) {
        return Err(KeeperFault::Damaged { page: slot.number });
    }
    let pairs = match read_half(alloc, device, &slot) {
        Ok(pairs) => pairs,
        Err(fault) => return Err(fault),
    };
    if !is_map(&pairs) {
        return Err(KeeperFault::Damaged {
            page: slot.root.tree,
        });
    }
    Ok((slot, pairs, top))
}

impl<D: Device> FlatKeeper<D> {
    /// Opens the image on a device. A refusal hands the device back, `Small` before anything was asked of it.
    ///
    /// Refusals in order: `Small` under 128 sectors; `Device` where a read or the sync failed; `NoImage` where no root slot is valid; `Version` where the current one isn't of flat pages; `Damaged` where what it names has no content. `Memory` may stand in place of `Damaged` and of success.
    pub fn open(alloc: Global, device: D) -> Result<FlatKeeper<D>, (KeeperFault, D)>
        ensures opened { IfOk result (OpensFlat D.state (crash_states_of D.moment D.possible_since) device) }
        ensures refused { IfErr result (λ e. RefusesToOpen D.state (crash_states_of D.moment D.possible_since) device IsOpenFault e.1 e.0) }
    {
        let mut device = device;
        match open_parts(alloc, &mut device) {
            Ok((slot, pairs, top)) => Ok(FlatKeeper {
                alloc,
                device,
                slot,
                pairs,
                top,
                usable: true,
            }),
            Err(fault) => Err((fault, device)),
        }
    }

    /// The device, whether a write or a sync has failed or not.
    pub fn into_device(self) -> D
        ensures { result ≡ device_of self }
    {
        let FlatKeeper {
            alloc: _,
            device,
            slot: _,
            pairs: _,
            top: _,
            usable: _,
        } = self;
        device
    }
}
