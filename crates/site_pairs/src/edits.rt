// The batch of edits that makes a change.
ghost use Rattle.std.specs.Prelude.{◌≡◌, ◌≤◌, ◌++◌, List, All, IfOk, IfSome, OnOk, IsTrue, length, map};
ghost use Rattle.std.specs.List.{list_all, AllByRecursion};
ghost use Rattle.page_store.specs.Batch.{is_edit};
ghost use Rattle.site_records.specs.Layout.{word_pairs};
ghost use Rattle.site_pairs.specs.Edits as spec;
ghost use Rattle.change_plan.specs.Replacements.{IsFit};
ghost use Rattle.site_pairs.specs.ShortReplacements.{IsShortItem, AreShort};

use crate::item_pairs::{put_data, put_words};
use crate::stored_value::StoredValue;
use change_plan::Replacement;
use host_types::{Bytes, Item, LineList, Selector};
use page_store::Edit;
use site_records::{Key, LONGEST_WORD};
use std::alloc::{AllocError, Global};
use std::collections::BTreeMap;
use word_search::{word_change, words};

/// All these keys go.
#[tactic(auto, using(crate::proofs::ItemPairs::drop_last))]
fn drop_all(
    edits: &mut BTreeMap<Key, Option<StoredValue>>,
    pairs: Vec<(Key, StoredValue)>,
) -> Result<(), AllocError>
    ensures { OnOk result (edits.new.entries ≡ spec.without_all edits.old.entries pairs.items) }
{
    let mut rest = pairs;
    while let Some((key, _value)) = rest.pop() {
        edits.insert(key, None)?;
    }
    Ok(())
}

/// All these pairs come.
#[tactic(auto, using(crate::proofs::ItemPairs::put_last))]
fn put_all(
    edits: &mut BTreeMap<Key, Option<StoredValue>>,
    pairs: Vec<(Key, StoredValue)>,
) -> Result<(), AllocError>
    ensures { OnOk result (edits.new.entries ≡ spec.with_all edits.old.entries pairs.items) }
{
    let mut rest = pairs;
    while let Some((key, value)) = rest.pop() {
        edits.insert(key, Some(value))?;
    }
    Ok(())
}

/// The words of what stands at a selector, if anything does.
fn words_at(alloc: Global, item: &Option<Item>) -> Result<LineList, AllocError>
    ensures { IfOk result (λ words. words ≡ spec.words_at item.now) }
{
    match item {
        Some(item) => words(alloc, item),
        None => Ok(LineList::new(alloc)),
    }
}

/// The data of what stands at a selector, if anything does.
fn data_at(
    alloc: Global,
    selector: &Selector,
    item: &Option<Item>,
) -> Result<Vec<(Key, StoredValue)>, AllocError>
    requires { IfSome item.now IsShortItem }
    ensures { IfOk result (λ pairs. pairs.items ≡ spec.data_at selector.now item.now) }
{
    let mut pairs = Vec::new(alloc);
    if let Some(item) = item {
        put_data(alloc, &mut pairs, selector, item)?;
    }
    Ok(pairs)
}

/// The data of what stands at a selector, and some words.
fn pairs_with(
    alloc: Global,
    selector: &Selector,
    item: &Option<Item>,
    words: &LineList,
) -> Result<Vec<(Key, StoredValue)>, AllocError>
    requires item { IfSome item.now IsShortItem }
    requires words { All (λ w. length w ≤ LONGEST_WORD) words.now }
    ensures { IfOk result (λ pairs. pairs.items ≡ spec.data_at selector.now item.now ++ word_pairs selector.now words.now) }
{
    let mut pairs = data_at(alloc, selector, item)?;
    put_words(alloc, &mut pairs, selector, words.as_slice())?;
    Ok(pairs)
}

/// The old data goes and the new data comes. Of the words only those go and come that differ.
fn put_replacement(
    alloc: Global,
    edits: &mut BTreeMap<Key, Option<StoredValue>>,
    replacement: &Replacement,
) -> Result<(), AllocError>
    requires { IsFit IsShortItem replacement.now }
    ensures { OnOk result (edits.new.entries ≡ spec.with_replacement edits.old.entries replacement.now) }
{
    let Replacement {
        selector,
        before,
        after,
    } = replacement;
    let old_words = words_at(alloc, before)?;
    let new_words = words_at(alloc, after)?;
    let words = word_change(alloc, &old_words, &new_words)?;
    drop_all(edits, pairs_with(alloc, selector, before, &words.drop)?)?;
    put_all(edits, pairs_with(alloc, selector, after, &words.add)?)
}

#[tactic(auto, unfolding(page_store::specs::Batch::is_value))]
fn edit_of(alloc: Global, key: &Key, value: &Option<StoredValue>) -> Result<Edit, AllocError>
    ensures edit { IfOk result (λ edit. edit ≡ spec.edit_of (key.now, value.now)) }
    ensures sizes { IfOk result (λ edit. IsTrue (is_edit edit)) }
{
    let key = Bytes::from_slice(alloc, key.as_bytes())?;
    let value = match value {
        Some(value) => Some(Bytes::from_slice(alloc, value.as_slice())?),
        None => None,
    };
    Ok(Edit { key, value })
}

fn edits_in<'a>(
    alloc: Global,
    edits: &'a BTreeMap<Key, Option<StoredValue>>,
) -> Result<Vec<(&'a Key, &'a Option<StoredValue>)>, AllocError>
    ensures { IfOk result (λ all. map (λ e. (e.0.now, e.1.now)) all.items ≡ edits.now.entries) }
{
    edits.iter().collect(alloc)
}

/// The edits in the order of their keys.
fn batch_in(
    alloc: Global,
    edits: &BTreeMap<Key, Option<StoredValue>>,
) -> Result<Vec<Edit>, AllocError>
    ensures batch { IfOk result (λ batch. batch.items ≡ spec.batch_of edits.now.entries) }
    ensures sizes { IfOk result (λ batch. IsTrue (list_all is_edit batch.items)) }
{
    let entries = edits_in(alloc, edits)?;
    let mut batch = Vec::new(alloc);
    for entry in &entries {
        batch.push(edit_of(alloc, entry.0, entry.1)?)?;
    }
    Ok(batch)
}

/// The edits that make some replacements.
pub fn batch_of(alloc: Global, replacements: &[Replacement]) -> Result<Vec<Edit>, AllocError>
    requires { AreShort replacements.now }
    ensures batch { IfOk result (λ batch. batch.items ≡ spec.batch_of (spec.edits_of replacements.now)) }
    ensures sizes { IfOk result (λ batch. IsTrue (list_all is_edit batch.items)) }
{
    let mut edits = BTreeMap::new(alloc);
    for replacement in replacements {
        put_replacement(alloc, &mut edits, replacement)?;
    }
    batch_in(alloc, &edits)
}
