// Keepers of pairs.
use crate::devices::show_banner;
use crate::line::Line;
use crate::made::change;
use crate::trouble::Trouble;
use host_types::Bytes;
use page_store::{Figures, Keeper, LONGEST_KEY, LONGEST_VALUE, Pair};
use std::alloc::Global;

/// All pairs of a keeper: keys and values by turns.
pub fn pairs_of<K: Keeper>(alloc: Global, keeper: &mut K) -> Result<Vec<Bytes>, Trouble> {
    let mut all = Vec::new(alloc);
    let (mut key, mut value) = ([0; LONGEST_KEY], [0; LONGEST_VALUE]);
    let mut after = Vec::new(alloc);
    for _ in 0..100_000 {
        let Some((key_length, value_length)) = keeper.next(&after, &mut key, &mut value)? else {
            return Ok(all);
        };
        after = key[..key_length].to_vec(alloc)?;
        all.push(Bytes::from_slice(alloc, &key[..key_length])?)?;
        all.push(Bytes::from_slice(alloc, &value[..value_length])?)?;
    }
    Err(Trouble::Wrong("no end of pairs"))
}

/// `get KEY`: its value, or `none`.
fn get<K: Keeper>(keeper: &mut K, line: &mut Line, key: &[u8]) -> Result<(), Trouble> {
    let mut value = [0; LONGEST_VALUE];
    match keeper.get(key, &mut value)? {
        Some(length) => line.bytes(&value[..length]),
        None => line.word("none"),
    }
}

/// `next KEY`: the pair behind a key, or `none`.
fn next<K: Keeper>(keeper: &mut K, line: &mut Line, after: &[u8]) -> Result<(), Trouble> {
    let (mut key, mut value) = ([0; LONGEST_KEY], [0; LONGEST_VALUE]);
    let Some((key_length, value_length)) = keeper.next(after, &mut key, &mut value)? else {
        return line.word("none");
    };
    line.bytes(&key[..key_length])?;
    line.bytes(&value[..value_length])
}

/// `usable`: whether it is.
pub fn show_usable(line: &mut Line, is_usable: bool) -> Result<(), Trouble> {
    line.word(if is_usable { "usable" } else { "unusable" })
}

/// `figures`: keys, free pages and generation.
pub fn show_figures(line: &mut Line, figures: Figures) -> Result<(), Trouble> {
    line.number(figures.keys)?;
    line.number(figures.free)?;
    line.number(figures.generation)
}

/// `pairs`: all keys and values by turns.
fn show_pairs<K: Keeper>(alloc: Global, keeper: &mut K, line: &mut Line) -> Result<(), Trouble> {
    for part in &pairs_of(alloc, keeper)? {
        line.bytes(part.as_slice())?;
    }
    Ok(())
}

fn show_one(line: &mut Line, pair: &Pair) -> Result<(), Trouble> {
    line.bytes(pair.key())?;
    line.bytes(pair.value())
}

/// The pair that is made of a key and a value.
fn show_moved(alloc: Global, line: &mut Line, key: &[u8], value: &[u8]) -> Result<(), Trouble> {
    let key = Bytes::from_slice(alloc, key)?;
    let value = Bytes::from_slice(alloc, value)?;
    show_one(line, &Pair::new(key, value))
}

/// `pair KEY VALUE`: the pair by copies, its copy, and the pair that is made of a key and a value.
pub fn show_pair(alloc: Global, line: &mut Line, key: &[u8], value: &[u8]) -> Result<(), Trouble> {
    let pair = Pair::from_slices(alloc, key, value)?;
    show_one(line, &pair)?;
    show_one(line, &pair.clone()?)?;
    show_moved(alloc, line, key, value)
}

/// The words that look at a keeper: `banner`, `usable`, `figures`, `pairs`, `get KEY` and `next KEY`.
fn looks<K: Keeper>(
    alloc: Global,
    keeper: &mut K,
    line: &mut Line,
    word: &str,
    fields: &[Vec<u8>],
) -> Result<(), Trouble> {
    match (word, fields) {
        ("banner", []) => show_banner(line, keeper.banner()),
        ("usable", []) => show_usable(line, keeper.is_usable()),
        ("figures", []) => show_figures(line, keeper.figures()),
        ("pairs", []) => show_pairs(alloc, keeper, line),
        ("get", [key]) => get(keeper, line, key),
        ("next", [key]) => next(keeper, line, key),
        _ => Err(Trouble::Line),
    }
}

fn put<K: Keeper>(
    alloc: Global,
    keeper: &mut K,
    key: &[u8],
    value: Option<&[u8]>,
) -> Result<(), Trouble> {
    Ok(change(alloc, keeper, key, value)?)
}

/// The words of a keeper: `put KEY VALUE`, `take KEY`, and those that look at it.
pub fn call<K: Keeper>(
    alloc: Global,
    keeper: &mut K,
    line: &mut Line,
    word: &str,
    fields: &[Vec<u8>],
) -> Result<(), Trouble> {
    match (word, fields) {
        ("put", [key, value]) => put(alloc, keeper, key, Some(value)),
        ("take", [key]) => put(alloc, keeper, key, None),
        _ => looks(alloc, keeper, line, word, fields),
    }
}
