// Making an image of a tree.
ghost use Rattle.std.specs.Prelude.{◌≡◌, ◌≤◌, ◌+◌, ◌*◌, All, IsTrue, IfOk, OnOk, IfErr, true, length};
ghost use Rattle.std.specs.List.{list_all};
ghost use Rattle.sector_device.specs.Effects.{IsSameDevice, WriteOutcome, MadeIfOk};
ghost use Rattle.page_store.specs.Batch.{is_map, is_pair};
ghost use Rattle.page_store.specs.CommitCalls.{TakesBanner};
ghost use Rattle.page_store.specs.Steps.{crash_states_of, AllAre};
ghost use Rattle.page_store.specs.Content.{is_tree_version};
ghost use Rattle.page_store.specs.Formatting.{MakesFirst, FailsToFormat};
ghost use Rattle.tree_nodes.specs.Tree.{entry_room, leaf_bytes};
ghost use Rattle.cow_tree.specs.Formatting.{first_pages, first_slot, IsFirstTree, IsFirstWritten, FirstLeafExample};

use page_store::{
    Banner, KeeperFault, LEAST_PAGES, MOST_PAGES, NewPage, Pair, Root, Slot, slot_page, sync_all,
    write_page, write_pages,
};
use sector_device::{Device, DeviceFault, PAGE_SIZE};
use std::alloc::{AllocError, Global};
use tree_nodes::encode_leaf;

/// The pages of the first tree: one leaf, or none where there are no pairs.
fn first_pages(alloc: Global, pairs: &[Pair]) -> Result<Vec<NewPage>, AllocError>
    requires pairs { IsTrue (list_all is_pair pairs.now) }
    requires room { leaf_bytes pairs.now ≤ entry_room }
    ensures { IfOk result (λ pages. pages.items ≡ first_pages pairs.now) }
{
    let mut pages = Vec::new(alloc);
    if !pairs.is_empty() {
        pages.push(NewPage {
            number: 2,
            bytes: encode_leaf(alloc, 2, 1, pairs)?,
        })?;
    }
    Ok(pages)
}

/// The slot over the first tree.
fn first_slot(pages: u32, banner: Banner, pairs: &[Pair]) -> Slot
    ensures { result ≡ first_slot pages banner pairs.now }
{
    let (tree, height) = if pairs.is_empty() { (0, 0) } else { (2, 1) };
    Slot {
        number: 0,
        seal: 1,
        root: Root {
            pages,
            tree,
            height,
            keys: pairs.len() as u64,
            banner,
        },
    }
}

/// Clears the second slot, writes pages and the page of the first slot, and makes sure of them.
fn write_first<D: Device>(
    device: &mut D,
    pages: &[NewPage],
    root: &[u8; PAGE_SIZE],
) -> Result<(), DeviceFault>
    requires fits { All (λ page. 8 * page.number + 8 ≤ (D.state device.old).size) pages.now }
    requires slots { 16 ≤ (D.state device.old).size }
    ensures written { IsTrue (D.state device.old).honest → OnOk result (IsFirstWritten pages.now root.now (D.state device.old).disk.view (D.state device.new).disk.view × AllAre (crash_states_of D.moment D.possible_since device.new) (D.state device.new).disk.view) }
    ensures outcome { WriteOutcome result (D.state device.old) (D.state device.new) }
    ensures work { MadeIfOk result 0 (16 + 8 * length pages.now) 1 (D.state device.old) (D.state device.new) }
{
    let cleared = [0; PAGE_SIZE];
    write_page(device, 1, &cleared)?;
    write_pages(device, pages)?;
    write_page(device, 0, root)?;
    sync_all(device)
}

/// Makes an image of a tree of pages, with pairs that fit one page: it clears the second slot and writes generation 1 to the first, over a tree of one leaf on page 2, or of no level where there are no pairs. What was there is gone.
///
/// `Small` where the count of pages isn't 16 to 65,536 or the device hasn't eight sectors for each, and `Memory`, come before the first write and leave the device as it is; `Failed` where a write or a sync failed. A crash within the call may leave anything.
pub fn format<D: Device>(
    alloc: Global,
    device: &mut D,
    pages: u32,
    banner: Banner,
    pairs: &[Pair],
) -> Result<(), KeeperFault>
    requires map { is_map pairs.now ≡ true }
    requires one_page { leaf_bytes pairs.now ≤ entry_room }
    requires banner { TakesBanner is_tree_version banner }
    ensures made { OnOk result (MakesFirst D.state (crash_states_of D.moment D.possible_since) device.old device.new pages pairs.now banner) }
    ensures tree { IsTrue (D.state device.old).honest → OnOk result (IsFirstTree pages banner pairs.now (D.state device.new).disk.view) }
    ensures fault { IfErr result (FailsToFormat D.state device.old device.new pages) }
    ensures work { MadeIfOk result 0 (16 + 8 * length (first_pages pairs.now)) 1 (D.state device.old) (D.state device.new) }
    ensures same { IsSameDevice (D.state device.old) (D.state device.new) }
{
    if pages < LEAST_PAGES || pages > MOST_PAGES || 8 * u64::from(pages) > device.sectors() {
        return Err(KeeperFault::Small);
    }
    let tree = first_pages(alloc, pairs)?;
    let root = slot_page(alloc, &first_slot(pages, banner, pairs))?;
    if write_first(device, &tree, &root).is_err() {
        return Err(KeeperFault::Failed);
    }
    Ok(())
}

/// A worked example: the bytes of a first tree's leaf.
pub fn a_first_leaf()
    ensures { FirstLeafExample }
{}
