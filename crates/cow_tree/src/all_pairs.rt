// All pairs of a tree, read leaf by leaf.
ghost use Rattle.std.specs.Prelude.{◌≡◌, ◌≤◌, ◌*◌, true, IsTrue, IfOk, IfSome, Some, length};
ghost use Rattle.page_store.specs.Sectors.{page_of};
ghost use Rattle.page_store.specs.Steps.{crash_states_of};
ghost use Rattle.page_store.specs.Keys.{precedes};
ghost use Rattle.page_store.specs.Content.{Found, tree_found};
ghost use Rattle.page_store.specs.Batch.{is_pair, is_map, pair_after};
ghost use Rattle.page_store.specs.PairsInOrder.{last_key};
ghost use Rattle.cow_tree.specs.Drafts.{TellsDraft};
ghost use Rattle.cow_tree.specs.KeptLeaves.{IsKeptLeaf};
ghost use Rattle.cow_tree.specs.LookUps.{WhereKept};
ghost use Rattle.cow_tree.specs.Opening.{IsRooted, bounds_under};
ghost use Rattle.cow_tree.specs.Compacting.{most_pairs, ReadsPairs};

use crate::kept_leaf::KeptLeaf;
use crate::lookups::find_next;
use page_store::{KeeperFault, LONGEST_KEY, LONGEST_VALUE, Pair, Slot};
use sector_device::Device;
use std::alloc::Global;

/// How many pairs an image may have: 1,024 in each of 65,536 pages.
const MOST_PAIRS: usize = 1024 * 65536;

/// The key of the last pair, or the empty key.
fn last_key(pairs: &[Pair]) -> &[u8]
    ensures { result.now ≡ last_key pairs.now }
{
    match pairs.last() {
        Some(last) => last.key(),
        None => &[],
    }
}

/// The pair behind these, the first ones of a slot's tree.
fn pair_behind<D: Device>(
    alloc: Global,
    device: &mut D,
    slot: &Slot,
    kept: &mut KeptLeaf,
    pairs: &[Pair],
) -> Result<Option<Pair>, KeeperFault>
    requires fits { 8 * slot.now.root.pages ≤ (D.state device.old).size }
    requires rooted { IsRooted slot.now.root }
    ensures pair { IsTrue (D.state device.old).honest → WhereKept slot.now kept.old (page_of (D.state device.old).disk.view) (λ found. TellsDraft ⊥ result (λ next. next ≡ pair_after found.pairs (last_key pairs.now))) }
    ensures kept { IsTrue (D.state device.old).honest → WhereKept slot.now kept.old (page_of (D.state device.old).disk.view) (λ found. IsKeptLeaf (page_of (D.state device.old).disk.view) (bounds_under slot.now) found kept.new) }
    ensures rises { IfOk result (λ next. IfSome next (λ p. (precedes (last_key pairs.now) p.0 ≡ true) × (is_pair p ≡ true))) }
    ensures reads { ReadsPairs D.state (crash_states_of D.moment D.possible_since) device.old device.new result }
{
    let (mut key, mut value) = ([0; LONGEST_KEY], [0; LONGEST_VALUE]);
    match find_next(device, slot, kept, last_key(pairs), &mut key, &mut value) {
        Ok(Some((size, length))) => {
            let pair = Pair::from_slices(alloc, &key[..size], &value[..length])?;
            Ok(Some(pair))
        }
        Ok(None) => Ok(None),
        Err(fault) => Err(KeeperFault::from(fault)),
    }
}

/// All pairs of a slot's tree. Where they aren't as many as the slot says it is `Damaged`, which can come of a lying device alone.
pub(crate) fn all_pairs<D: Device>(
    alloc: Global,
    device: &mut D,
    slot: &Slot,
) -> Result<Vec<Pair>, KeeperFault>
    requires fits { 8 * slot.now.root.pages ≤ (D.state device.old).size }
    requires rooted { IsRooted slot.now.root }
    ensures pairs { IsTrue (D.state device.old).honest → (found : Found) → tree_found slot.now (page_of (D.state device.old).disk.view) ≡ Some found → length found.pairs ≤ most_pairs →
        TellsDraft ⊥ result (λ pairs. pairs.items ≡ found.pairs) }
    ensures map { IfOk result (λ pairs. is_map pairs.items ≡ true) }
    ensures few { IfOk result (λ pairs. length pairs.items ≤ most_pairs) }
    ensures counted { IfOk result (λ pairs. length pairs.items ≡ slot.now.root.keys) }
    ensures reads { ReadsPairs D.state (crash_states_of D.moment D.possible_since) device.old device.new result }
{
    let mut pairs = Vec::new(alloc);
    let mut kept = KeptLeaf::none();
    while let Some(pair) = pair_behind(alloc, device, slot, &mut kept, &pairs)? {
        if pairs.len() >= MOST_PAIRS {
            return Err(KeeperFault::Damaged { page: slot.number });
        }
        pairs.push(pair)?;
    }
    if pairs.len() as u64 != slot.root.keys {
        return Err(KeeperFault::Damaged { page: slot.number });
    }
    Ok(pairs)
}
