// Looking pairs up, and a batch of edits.
ghost use Rattle.std.specs.Prelude.{◌≡◌, ◌≤◌, ◌<◌, ◌+◌, ◌++◌, ◌∷◌, [], Some, IfOk, OnOk, IfSome, IsTrue, length, option_map, option_copied, take, drop};
ghost use Rattle.std.specs.Map.{lookup, remove_entry};
ghost use Rattle.std.specs.BTreeMap.{insert_entry, is_at};
ghost use Rattle.std.specs.List.{list_all};
ghost use Rattle.page_store.specs.Sizes.{longest_key, longest_value};
ghost use Rattle.common_types.specs.ByteOrder.{byte_cmp};
ghost use Rattle.page_store.specs.Batch.{value_at, pair_after, edited, updated, is_pair};

use crate::{Edit, Pair};
use common_types::{Bytes, compare_bytes};
use std::alloc::{AllocError, Global};
use std::cmp::Ordering;

/// The value at a key.
pub(crate) fn value_of<'a>(pairs: &'a [Pair], key: &[u8]) -> Option<&'a [u8]>
    requires { IsTrue (list_all is_pair pairs.now) }
    ensures value { option_map (λ v. v.now) result ≡ value_at pairs.now key.now }
    ensures size { IfSome result (λ v. length v.now ≤ longest_value) }
{
    for pair in pairs {
        if compare_bytes(key, pair.key()) == Ordering::Equal {
            return Some(pair.value());
        }
    }
    None
}

/// The pair with the least key above this one.
pub(crate) fn next_pair<'a>(pairs: &'a [Pair], after: &[u8]) -> Option<&'a Pair>
    requires { IsTrue (list_all is_pair pairs.now) }
    ensures pair { option_copied result ≡ pair_after pairs.now after.now }
    ensures key { IfSome result (λ pair. length pair.now.0 ≤ longest_key) }
    ensures value { IfSome result (λ pair. length pair.now.1 ≤ longest_value) }
{
    for pair in pairs {
        if compare_bytes(after, pair.key()) == Ordering::Less {
            return Some(pair);
        }
    }
    None
}

/// Puts a value at a key into pairs whose keys rise, in place of what was there.
pub fn put_pair(pairs: &mut Vec<Pair>, key: Bytes, value: Bytes) -> Result<(), AllocError>
    ensures { OnOk result (pairs.new.items ≡ insert_entry byte_cmp pairs.old.items key value) }
{
    for place in 0..pairs.len() {
        match compare_bytes(key.as_slice(), pairs[place].key()) {
            Ordering::Less => {
                pairs.insert(place, Pair::new(key, value))?;
                return Ok(());
            }
            Ordering::Equal => {
                pairs[place].set_value(value);
                return Ok(());
            }
            Ordering::Greater => {}
        }
    }
    pairs.push(Pair::new(key, value))?;
    Ok(())
}

/// Takes what stands at a key away. It takes no memory.
pub fn remove_pair(pairs: &mut Vec<Pair>, key: &[u8])
    ensures { pairs.new.items ≡ remove_entry (is_at (byte_cmp key.now)) pairs.old.items }
{
    for place in 0..pairs.len() {
        if compare_bytes(key, pairs[place].key()) == Ordering::Equal {
            let _ = pairs.remove(place);
            return;
        }
    }
}

fn apply(pairs: &mut Vec<Pair>, edit: &Edit) -> Result<(), AllocError>
    ensures { OnOk result (pairs.new.items ≡ edited pairs.old.items edit.now) }
{
    match &edit.value {
        Some(value) => put_pair(pairs, edit.key.clone()?, value.clone()?),
        None => {
            remove_pair(pairs, edit.key.as_slice());
            Ok(())
        }
    }
}

fn copy_of(alloc: Global, pairs: &[Pair]) -> Result<Vec<Pair>, AllocError>
    ensures { IfOk result (λ copy. copy.items ≡ pairs.now) }
{
    let mut copy = Vec::with_capacity(alloc, pairs.len())?;
    for pair in pairs {
        copy.push(pair.clone()?)?;
    }
    Ok(copy)
}

/// The pairs after all edits of a batch.
pub(crate) fn updated_pairs(
    alloc: Global,
    pairs: &[Pair],
    batch: &[Edit],
) -> Result<Vec<Pair>, AllocError>
    ensures { IfOk result (λ now. now.items ≡ updated pairs.now batch.now) }
{
    let mut now = copy_of(alloc, pairs)?;
    for edit in batch {
        apply(&mut now, edit)?;
    }
    Ok(now)
}
