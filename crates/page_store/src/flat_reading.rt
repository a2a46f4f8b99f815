// The pairs of flat pages.
ghost use Rattle.std.specs.Prelude.{◌≡◌, ◌⊎◌, ◌+◌, ◌*◌, ◌<◌, ◌≤◌, ◌^◌, None, Some, IsTrue, IfOk, IfErr, IfSome, option_map, length, false};
ghost use Rattle.sector_device.specs.Effects.{MadeAtMost};
ghost use Rattle.page_store.specs.Pages.{pair_at, entries_at};
ghost use Rattle.page_store.specs.Flat.{flat_page, flat_next, flat_walk, is_over, half_size, with_front, with_pairs, is_flat_head, HasNext};
ghost use Rattle.page_store.specs.Sectors.{page_of};
ghost use Rattle.page_store.specs.Steps.{crash_states_of};
ghost use Rattle.page_store.specs.DeviceEffects.{IsReadCall};
ghost use Rattle.page_store.specs.Counting.{CountsStoreReads};
ghost use Rattle.page_store.specs.ReadFaults.{IsHalfFault};

use crate::pages::read_page;
use crate::reading::{FLAT_WORD, are_zero, head_at, pair_at};
use crate::{KeeperFault, Pair, Slot};
use sector_device::{Device, PAGE_SIZE};
use std::alloc::{AllocError, Global};

/// Adds so many entries to the pairs, and answers the bytes after them; none where they have not the form.
fn read_entries<'a>(
    alloc: Global,
    count: u16,
    bytes: &'a [u8],
    pairs: &mut Vec<Pair>,
) -> Result<Option<&'a [u8]>, AllocError>
    ensures { IfOk result (λ rest. option_map (λ r. (pairs.new.items, r.now)) rest ≡ with_front pairs.old.items (entries_at pair_at count bytes.now)) }
{
    let mut rest = bytes;
    for _ in 0..count {
        let Some(((key, value), after)) = pair_at(rest) else {
            return Ok(None);
        };
        pairs.push(Pair::from_slices(alloc, key, value)?)?;
        rest = after;
    }
    Ok(Some(rest))
}

/// Adds the entries of a flat page to the pairs, and answers how many bytes are left in it; none where it has not the form.
#[tactic(auto, unfolding(crate::specs::Flat::flat_page))]
fn read_flat(
    alloc: Global,
    seal: u64,
    page: u32,
    bytes: &[u8],
    pairs: &mut Vec<Pair>,
) -> Result<Option<usize>, AllocError>
    ensures { IfOk result (λ room. option_map (λ n. (pairs.new.items, n)) room ≡ with_front pairs.old.items (flat_page seal page bytes.now)) }
{
    let Some((head, entries)) = head_at(&FLAT_WORD, bytes) else {
        return Ok(None);
    };
    let Some(rest) = read_entries(alloc, head.count, entries, pairs)? else {
        return Ok(None);
    };
    if head.number != page
        || head.generation != seal
        || head.level != 0
        || head.count < 1
        || !are_zero(rest)
    {
        return Ok(None);
    }
    Ok(Some(rest.len()))
}

/// Whether the first of the pairs doesn't fit into so many bytes.
fn is_over(room: usize, pairs: &[Pair]) -> bool
    ensures { result ≡ is_over room pairs.now }
{
    match pairs {
        [] => false,
        [first, ..] => {
            4 + first.key().len() as u128 + first.value().len() as u128 > room as u128
        }
    }
}

/// Adds the pairs of the next page, and answers how many bytes are left in it and how many pairs are to come; none where it has not the form, is begun too early, or has more pairs than there are.
fn read_next(
    alloc: Global,
    seal: u64,
    page: u32,
    room: usize,
    keys: u64,
    bytes: &[u8],
    pairs: &mut Vec<Pair>,
) -> Result<Option<(usize, u64)>, AllocError>
    ensures { IfOk result (HasNext keys pairs.old.items pairs.new.items (flat_next seal page room keys bytes.now)) }
{
    let start = pairs.as_slice().len();
    let Some(left) = read_flat(alloc, seal, page, bytes, pairs)? else {
        return Ok(None);
    };
    let (_, here) = pairs.as_slice().split_at(start);
    let count = here.len() as u64;
    if !is_over(room, here) {
        return Ok(None);
    }
    if count > keys {
        return Ok(None);
    }
    Ok(Some((left, keys - count)))
}

/// The pairs that stand in the half under a slot.
pub(crate) fn read_half<D: Device>(
    alloc: Global,
    device: &mut D,
    slot: &Slot,
) -> Result<Vec<Pair>, KeeperFault>
    requires some { 2 ≤ slot.now.root.pages }
    requires inside { 8 * (slot.now.root.tree + half_size slot.now.root.pages) ≤ (D.state device.old).size }
    requires numbers { slot.now.root.tree + half_size slot.now.root.pages < 2 ^ 32 }
    ensures pairs { IsTrue (D.state device.old).honest → IfOk result (λ pairs. flat_walk (page_of (D.state device.old).disk.view) slot.now.seal (half_size slot.now.root.pages) slot.now.root.tree 0 slot.now.root.keys ≡ Some pairs.items) }
    ensures fault { IfErr result (IsHalfFault slot.now (D.state device.old).honest (D.state device.old).failed_reads (D.state device.new).failed_reads (flat_walk (page_of (D.state device.old).disk.view) slot.now.seal (half_size slot.now.root.pages) slot.now.root.tree 0 slot.now.root.keys)) }
    ensures device { IsReadCall D.state (crash_states_of D.moment D.possible_since) device.old device.new }
    ensures reads { CountsStoreReads result (D.state device.old).failed_reads (D.state device.new).failed_reads }
    ensures work { MadeAtMost (8 * half_size slot.now.root.pages) 0 0 (D.state device.old) (D.state device.new) }
{
    let mut pairs = Vec::new(alloc);
    let mut bytes = [0; PAGE_SIZE];
    let mut room = 0;
    let mut keys = slot.root.keys;
    let first = slot.root.tree;
    for page in first..first + slot.root.half_size() {
        if keys == 0 {
            return Ok(pairs);
        }
        if read_page(device, page, &mut bytes).is_err() {
            return Err(KeeperFault::Device);
        }
        let Some((left, more)) = read_next(alloc, slot.seal, page, room, keys, &bytes, &mut pairs)?
        else {
            return Err(KeeperFault::Damaged { page });
        };
        keys = more;
        room = left;
    }
    if keys > 0 {
        return Err(KeeperFault::Damaged { page: slot.number });
    }
    Ok(pairs)
}
