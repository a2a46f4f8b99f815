// Making an image.
ghost use Rattle.std.specs.Prelude.{◌+◌, ◌≡◌, ◌≤◌, ◌<◌, ◌*◌, OnOk, IfErr, true};
ghost use Rattle.sector_device.specs.Effects.{IsSameDevice, MadeExactly};
ghost use Rattle.page_store.specs.Batch.{is_map};
ghost use Rattle.page_store.specs.Encoding.{pages_needed};
ghost use Rattle.page_store.specs.Steps.{crash_states_of};
ghost use Rattle.page_store.specs.Formatting.{MakesFirst, FailsToFormat};

use crate::commit::write_pages;
use crate::encoding::{flat_pages, slot_page};
use crate::pages::{sync_all, write_page};
use crate::{Banner, KeeperFault, LEAST_PAGES, MOST_PAGES, Pair, Root, Slot};
use sector_device::{Device, PAGE_SIZE};
use std::alloc::Global;

/// Makes an image of flat pages, with pairs that fit one page: it clears the second slot and writes generation 1 to the first. What was there is gone.
///
/// `Small` where the count of pages isn't 16 to 65,536 or the device hasn't eight sectors for each, and `Memory`, come before the first write and leave the device as it is; `Failed` where a write or a sync failed. A crash within the call may leave anything.
pub fn format_flat<D: Device>(
    alloc: Global,
    device: &mut D,
    pages: u32,
    banner: Banner,
    pairs: &[Pair],
) -> Result<(), KeeperFault>
    requires map { is_map pairs.now ≡ true }
    requires one_page { pages_needed pairs.now ≤ 1 }
    requires port { 0 < banner.port }
    requires version { banner.version ≡ 0 }
    ensures made { OnOk result (MakesFirst D.state (crash_states_of D.moment D.possible_since) device.old device.new pages pairs.now banner) }
    ensures work { OnOk result (MadeExactly 0 (16 + 8 * pages_needed pairs.now) 1 (D.state device.old) (D.state device.new)) }
    ensures fault { IfErr result (FailsToFormat D.state device.old device.new pages) }
    ensures same { IsSameDevice (D.state device.old) (D.state device.new) }
{
    if pages < LEAST_PAGES || pages > MOST_PAGES || 8 * u64::from(pages) > device.sectors() {
        return Err(KeeperFault::Small);
    }
    let tree = flat_pages(alloc, 1, 2, pairs)?;
    let slot = Slot {
        number: 0,
        seal: 1,
        root: Root {
            pages,
            tree: 2,
            height: 0,
            keys: pairs.len() as u64,
            banner,
        },
    };
    let root = slot_page(alloc, &slot)?;
    let cleared = [0; PAGE_SIZE];
    if write_page(device, 1, &cleared).is_err() {
        return Err(KeeperFault::Failed);
    }
    if write_pages(device, &tree).is_err() {
        return Err(KeeperFault::Failed);
    }
    if write_page(device, 0, &root).is_err() {
        return Err(KeeperFault::Failed);
    }
    if sync_all(device).is_err() {
        return Err(KeeperFault::Failed);
    }
    Ok(())
}
