// The form of a leaf between two keys, told by one walk over its pairs.
ghost use Rattle.std.specs.Prelude.{◌≡◌, option_map, option_copied};
ghost use Rattle.page_store.specs.Keys.{is_below};
ghost use Rattle.page_store.specs.Pages.{pair_at, entries_at};
ghost use Rattle.tree_nodes.specs.LeafForm.{after_leaf};

use common_types::compare_bytes;
use page_store::pair_at;
use std::cmp::Ordering;

/// Whether a key is below a bound, where there is one.
fn is_below(high: Option<&[u8]>, key: &[u8]) -> bool
    ensures { result ≡ is_below (option_copied high.entry) key.now }
{
    match high {
        Some(high) => compare_bytes(key, high) == Ordering::Less,
        None => true,
    }
}

/// The bytes after so many pairs, where they have the form, and their keys rise from one key on and lie below another, where there is one.
pub(crate) fn after_between<'a>(
    count: u16,
    low: &[u8],
    high: Option<&[u8]>,
    bytes: &'a [u8],
) -> Option<&'a [u8]>
    ensures { option_map (λ r. r.now) result ≡ after_leaf low.now (option_copied high.entry) (entries_at pair_at count bytes.now) }
{
    if count < 1 {
        return Some(bytes);
    }
    let ((first, _), after) = pair_at(bytes)?;
    if compare_bytes(first, low) == Ordering::Less {
        return None;
    }
    let mut last = first;
    let mut rest = after;
    for _ in 1..count {
        let ((key, _), after) = pair_at(rest)?;
        if compare_bytes(last, key) != Ordering::Less {
            return None;
        }
        last = key;
        rest = after;
    }
    if !is_below(high, last) {
        return None;
    }
    Some(rest)
}
