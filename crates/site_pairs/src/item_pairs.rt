// The pairs of one item.
ghost use Rattle.std.specs.Prelude.{◌≡◌, ◌≤◌, ◌<◌, ◌++◌, ◌∷◌, [], ℕ, List, All, map, length, IfOk, OnOk, IsTrue};
ghost use Rattle.host_types.specs.Items.{view_bytes};
ghost use Rattle.host_types.specs.Words.{words_of};
ghost use Rattle.site_records.specs.Limits.{is_short, is_short_body};
ghost use Rattle.site_records.specs.Records.{parts_of};
ghost use Rattle.site_records.specs.Layout as spec;

use crate::stored_value::StoredValue;
use host_types::{Body, Bytes, Item, MOST_VIEW_BYTES, Selector, View, chunk_of};
use site_records::{
    Key, LONGEST_WORD, chunk_count, chunk_key, entries_bytes, item_key, questions_bytes, record_of,
    word_key,
};
use std::alloc::{AllocError, Global};
use word_search::words;

/// Adds the chunks of a part.
#[tactic(auto, using(crate::proofs::ItemPairs::next_chunk), unfolding(site_records::specs::Layout::chunk_count))]
fn put_part(
    alloc: Global,
    pairs: &mut Vec<(Key, StoredValue)>,
    selector: &Selector,
    part: u8,
    bytes: &[u8],
) -> Result<(), AllocError>
    requires { length bytes.now ≤ MOST_VIEW_BYTES }
    ensures { OnOk result (pairs.new.items ≡ pairs.old.items ++ spec.chunk_pairs selector.now part bytes.now (spec.chunk_count (length bytes.now)) 0) }
{
    let count = chunk_count(bytes.len());
    for k in 0..count {
        let key = chunk_key(selector, part, k as u16);
        let value = Bytes::from_slice(alloc, chunk_of(bytes, k))?;
        pairs.push((key, StoredValue::new(value)))?;
    }
    Ok(())
}

/// Adds the chunks of all parts.
fn put_parts(
    alloc: Global,
    pairs: &mut Vec<(Key, StoredValue)>,
    selector: &Selector,
    parts: &[Bytes],
) -> Result<(), AllocError>
    requires short { All (λ p. length p ≤ MOST_VIEW_BYTES) parts.now }
    requires few { length parts.now ≤ 8 }
    ensures { OnOk result (pairs.new.items ≡ pairs.old.items ++ spec.part_pairs selector.now 0 parts.now) }
{
    for place in 0..parts.len() {
        put_part(alloc, pairs, selector, place as u8, parts[place].as_slice())?;
    }
    Ok(())
}

/// Adds the keys of some words.
pub fn put_words(
    alloc: Global,
    pairs: &mut Vec<(Key, StoredValue)>,
    selector: &Selector,
    words: &[Bytes],
) -> Result<(), AllocError>
    requires { All (λ w. length w ≤ LONGEST_WORD) words.now }
    ensures { OnOk result (pairs.new.items ≡ pairs.old.items ++ spec.word_pairs selector.now words.now) }
{
    for word in words {
        let key = word_key(word.as_slice(), selector);
        pairs.push((key, StoredValue::new(Bytes::new(alloc))))?;
    }
    Ok(())
}

/// The bytes of each view.
#[tactic(auto, using(crate::proofs::ItemPairs::short_views))]
fn bytes_of(alloc: Global, views: &[View]) -> Result<Vec<Bytes>, AllocError>
    requires { view_bytes views.now ≤ MOST_VIEW_BYTES }
    ensures bytes { IfOk result (λ parts. parts.items ≡ map (λ v. v.bytes) views.now) }
    ensures short { IfOk result (λ parts. All (λ p. length p ≤ MOST_VIEW_BYTES) parts.items) }
{
    let mut parts = Vec::new(alloc);
    for view in views {
        parts.push(view.bytes.clone()?)?;
    }
    Ok(parts)
}

/// One part.
#[tactic(auto, using(crate::proofs::ItemPairs::short_one))]
fn only(alloc: Global, part: Bytes) -> Result<Vec<Bytes>, AllocError>
    requires { length part ≤ MOST_VIEW_BYTES }
    ensures bytes { IfOk result (λ parts. parts.items ≡ part ∷ []) }
    ensures short { IfOk result (λ parts. All (λ p. length p ≤ MOST_VIEW_BYTES) parts.items) }
{
    let mut parts = Vec::new(alloc);
    parts.push(part)?;
    Ok(parts)
}

/// The byte strings that are kept beside the record.
#[tactic(auto, using(crate::proofs::ItemPairs::few_views, crate::proofs::ItemPairs::few_bytes), unfolding(host_types::specs::Items::most_view_bytes))]
fn parts_of(alloc: Global, body: &Body) -> Result<Vec<Bytes>, AllocError>
    requires { IsTrue (is_short_body body.now) }
    ensures bytes { IfOk result (λ parts. parts.items ≡ parts_of body.now) }
    ensures short { IfOk result (λ parts. All (λ p. length p ≤ MOST_VIEW_BYTES) parts.items) }
    ensures few { IfOk result (λ parts. length parts.items ≤ 8) }
{
    match body {
        Body::Views(_, views) => bytes_of(alloc, views.as_slice()),
        Body::Menu(entries) => only(alloc, entries_bytes(alloc, entries)?),
        Body::Form { questions, .. } => only(alloc, questions_bytes(alloc, questions)?),
        _ => Ok(Vec::new(alloc)),
    }
}

/// Adds the pairs of an item's data: its record, and the chunks of its parts.
pub fn put_data(
    alloc: Global,
    pairs: &mut Vec<(Key, StoredValue)>,
    selector: &Selector,
    item: &Item,
) -> Result<(), AllocError>
    requires { IsTrue (is_short item.now) }
    ensures { OnOk result (pairs.new.items ≡ pairs.old.items ++ spec.data_pairs selector.now item.now) }
{
    let record = StoredValue::new(record_of(alloc, item)?);
    pairs.push((item_key(selector), record))?;
    let parts = parts_of(alloc, &item.body)?;
    put_parts(alloc, pairs, selector, &parts)
}

/// Adds the pairs of an item: its data, and its words.
#[tactic(auto, using(crate::proofs::ShortWords::short_words), unfolding(site_records::specs::Layout::item_pairs))]
pub fn put_item(
    alloc: Global,
    pairs: &mut Vec<(Key, StoredValue)>,
    selector: &Selector,
    item: &Item,
) -> Result<(), AllocError>
    requires { IsTrue (is_short item.now) }
    ensures { OnOk result (pairs.new.items ≡ pairs.old.items ++ spec.item_pairs selector.now item.now) }
{
    put_data(alloc, pairs, selector, item)?;
    let words = words(alloc, item)?;
    put_words(alloc, pairs, selector, words.as_slice())
}
