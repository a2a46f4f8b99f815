// Pairs in the order of their keys.
ghost use Rattle.std.specs.Prelude.{◌≡◌, map, IfOk};
ghost use Rattle.site_records.specs.Layout as spec;

use crate::stored_value::StoredValue;
use site_records::Key;
use std::alloc::{AllocError, Global};
use std::collections::BTreeMap;

/// Some pairs in the order of their keys; at a key that stands twice the first counts.
#[tactic(auto, using(crate::proofs::Orders::onto_none, crate::proofs::Orders::onto_last))]
pub fn in_order(
    alloc: Global,
    pairs: Vec<(Key, StoredValue)>,
) -> Result<BTreeMap<Key, StoredValue>, AllocError>
    ensures { IfOk result (λ all. all.entries ≡ spec.in_order pairs.items) }
{
    let mut all = BTreeMap::new(alloc);
    let mut rest = pairs;
    while let Some((key, value)) = rest.pop() {
        all.insert(key, value)?;
    }
    Ok(all)
}

/// These pairs in order.
pub fn entries_in<'a>(
    alloc: Global,
    pairs: &'a BTreeMap<Key, StoredValue>,
) -> Result<Vec<(&'a Key, &'a StoredValue)>, AllocError>
    ensures { IfOk result (λ all. map (λ e. (e.0.now, e.1.now)) all.items ≡ pairs.now.entries) }
{
    pairs.iter().collect(alloc)
}
