// Batches that a keeper takes.
ghost use Rattle.std.specs.Prelude.{◌≡◌, map};
ghost use Rattle.std.specs.List.{list_all};
ghost use Rattle.page_store.specs.Keys.{rises};
ghost use Rattle.page_store.specs.Batch.{is_batch, is_edit, edit_key};

use page_store::{Edit, LONGEST_KEY, LONGEST_VALUE};
use std::cmp::Ordering;

/// Whether the keys of a batch rise.
fn keys_rise(batch: &[Edit]) -> bool
    ensures { result ≡ rises (map edit_key batch.now) }
{
    let [first, rest @ ..] = batch else {
        return true;
    };
    let [second, ..] = rest else {
        return true;
    };
    first.key.as_slice().cmp(second.key.as_slice()) == Ordering::Less && keys_rise(rest)
}

/// Whether the keys and the values of a batch have their sizes.
#[tactic(auto, unfolding(page_store::specs::Batch::is_value))]
fn have_sizes(batch: &[Edit]) -> bool
    ensures { result ≡ list_all is_edit batch.now }
{
    let [first, rest @ ..] = batch else {
        return true;
    };
    let length = first.key.as_slice().len();
    if length < 1 || length > LONGEST_KEY {
        return false;
    }
    if let Some(value) = &first.value {
        if value.as_slice().len() > LONGEST_VALUE {
            return false;
        }
    }
    have_sizes(rest)
}

/// Whether a keeper takes a batch: its keys rise, and keys and values have their sizes. It takes no memory.
pub fn is_batch(batch: &[Edit]) -> bool
    ensures { result ≡ is_batch batch.now }
{
    keys_rise(batch) && have_sizes(batch)
}
