// The pairs of a site of which only the top menu is there.
ghost use Rattle.std.specs.Prelude.{◌≡◌, ◌≤◌, ℕ, List, true, IfOk, IsTrue};
ghost use Rattle.std.specs.List.{list_all};
ghost use Rattle.host_types.specs.Site.{fresh_site};
ghost use Rattle.page_store.specs.Batch.{is_map, is_pair};
ghost use Rattle.page_store.specs.Encoding.{pages_needed};
ghost use Rattle.site_records.specs.Layout.{layout};

use crate::item_pairs::put_item;
use crate::pairs_in_order::{entries_in, in_order};
use crate::stored_value::StoredValue;
use host_types::{Item, Selector, Stamp, Title};
use page_store::Pair;
use site_records::Key;
use std::alloc::{AllocError, Global};
use std::collections::BTreeMap;

#[tactic(auto, unfolding(page_store::specs::Batch::is_value))]
fn copy_of(alloc: Global, key: &Key, value: &StoredValue) -> Result<Pair, AllocError>
    ensures pair { IfOk result (λ copy. copy ≡ (key.now, value.now)) }
    ensures sizes { IfOk result (λ copy. IsTrue (is_pair copy)) }
{
    let key = key.as_bytes();
    let value = value.as_slice();
    Pair::from_slices(alloc, key, value)
}

/// Copies of these pairs, in the order of their keys.
fn copies_of(alloc: Global, pairs: &BTreeMap<Key, StoredValue>) -> Result<Vec<Pair>, AllocError>
    ensures copies { IfOk result (λ copies. copies.items ≡ pairs.now.entries) }
    ensures sizes { IfOk result (λ copies. IsTrue (list_all is_pair copies.items)) }
{
    let entries = entries_in(alloc, pairs)?;
    let mut copies = Vec::new(alloc);
    for entry in &entries {
        copies.push(copy_of(alloc, entry.0, entry.1)?)?;
    }
    Ok(copies)
}

/// The pairs of a site of which only the top menu is there, without entries.
pub fn first_pairs(alloc: Global, title: &Title, stamp: Stamp) -> Result<Vec<Pair>, AllocError>
    ensures pairs { (host admin : List ℕ) (port : ℕ) → IfOk result (λ all. all.items ≡ layout (fresh_site host port admin title.now stamp)) }
    ensures map { IfOk result (λ all. is_map all.items ≡ true) }
    ensures one_page { IfOk result (λ all. pages_needed all.items ≤ 1) }
{
    let _ = title.as_bytes();
    let top = Item::empty_menu(alloc, title.clone()?, stamp);
    let mut pairs = Vec::new(alloc);
    put_item(alloc, &mut pairs, &Selector::root(), &top)?;
    let ordered = in_order(alloc, pairs)?;
    let all = copies_of(alloc, &ordered)?;
    Ok(all)
}
