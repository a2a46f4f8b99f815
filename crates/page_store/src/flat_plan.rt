// What a commit to flat pages is to write, before anything is written.
ghost use Rattle.std.specs.Prelude.{◌≡◌, ◌≤◌, ◌<◌, ◌*◌, ◌^◌, IsTrue, IfOk, IfErr};
ghost use Rattle.page_store.specs.Sizes.{most_pages};
ghost use Rattle.page_store.specs.Batch.{is_batch, updated};
ghost use Rattle.page_store.specs.Flat.{half_size};
ghost use Rattle.page_store.specs.FlatState.{IsFitted, other_half};
ghost use Rattle.page_store.specs.FlatPlan.{IsFlatPlan, IsFlatPlanFault};

use crate::batch::updated_pairs;
use crate::encoding::{flat_pages, pages_needed, slot_page};
use crate::{Banner, Edit, KeeperFault, NewPage, Pair, Root, Slot};
use sector_device::PAGE_SIZE;
use std::alloc::Global;

/// What a commit is to write, with the pairs that stand then.
#[derive(Drop)]
pub(crate) struct Plan {
    pub(crate) pairs: Vec<Pair>,
    pub(crate) pages: Vec<NewPage>,
    pub(crate) slot: Slot,
    pub(crate) root: [u8; PAGE_SIZE],
}

/// The first page of the other half.
fn other_half(root: &Root) -> u32
    requires some { 2 ≤ root.now.pages }
    requires small { root.now.pages ≤ most_pages }
    ensures { result ≡ other_half root.now }
{
    if root.tree == 2 {
        2 + root.half_size()
    } else {
        2
    }
}

/// Plans a commit of a batch to the pairs under a slot: they go to the other half, and the other slot gets the seal.
pub(crate) fn planned(
    alloc: Global,
    slot: &Slot,
    pairs: &[Pair],
    seal: u64,
    batch: &[Edit],
    banner: Banner,
) -> Result<Plan, KeeperFault>
    requires fitted { IsFitted (8 * slot.now.root.pages) slot.now pairs.now }
    requires batch { IsTrue (is_batch batch.now) }
    requires port { 0 < banner.port }
    ensures plan { IfOk result (IsFlatPlan slot.now seal (updated pairs.now batch.now) banner) }
    ensures fault { IfErr result (IsFlatPlanFault (half_size slot.now.root.pages) (updated pairs.now batch.now)) }
{
    let pairs = updated_pairs(alloc, pairs, batch)?;
    let need = pages_needed(&pairs);
    let half = slot.root.half_size();
    if need > half as usize {
        return Err(KeeperFault::Full {
            need: need as u64,
            free: u64::from(half),
        });
    }
    let tree = other_half(&slot.root);
    let pages = flat_pages(alloc, seal, tree, &pairs)?;
    let slot = Slot {
        number: 1 - slot.number,
        seal,
        root: Root {
            pages: slot.root.pages,
            tree,
            height: 0,
            keys: pairs.as_slice().len() as u64,
            banner,
        },
    };
    let root = slot_page(alloc, &slot)?;
    Ok(Plan {
        pairs,
        pages,
        slot,
        root,
    })
}
