// Whether some pairs are the layout of a site. No layout is made for it: the pairs of one item after the other are looked up and counted.
ghost use Rattle.std.specs.Prelude.{◌≡◌, ◌≤◌, [], All, Some, length, map, IfOk, IsTrue, Decides};
ghost use Rattle.page_store.specs.Batch.{value_at};
ghost use Rattle.site_records.specs.Keys.{word_key};
ghost use Rattle.site_records.specs.Limits.{is_short};
ghost use Rattle.site_store.specs.Opening.{AreCounted, CountsItem, ItemsAreShort, IsLayoutOf};

use crate::read_pairs::ReadPairs;
use host_types::{Bytes, Item, Selector};
use mem_site::MemSite;
use site_pairs::{StoredValue, put_data};
use site_records::{Key, LONGEST_WORD, word_key};
use std::alloc::{AllocError, Global};
use word_search::words;

/// Whether each of these entries is one of the pairs.
fn are_among(read: &mut ReadPairs<'_>, entries: &[(Key, StoredValue)]) -> bool
    ensures among { Decides result (All (λ p. value_at read.old.0 p.0 ≡ Some p.1) entries.now) }
    ensures same { read.new ≡ read.old }
{
    for entry in entries {
        if !read.has(&entry.0, entry.1.as_slice()) {
            return false;
        }
    }
    true
}

/// Whether the key of each of these words of an item stands among the pairs, without a value.
fn are_words_among(read: &mut ReadPairs<'_>, selector: &Selector, words: &[Bytes]) -> bool
    requires short { All (λ w. length w ≤ LONGEST_WORD) words.now }
    ensures among { Decides result (All (λ w. value_at read.old.0 (word_key w selector.now) ≡ Some []) words.now) }
    ensures same { read.new ≡ read.old }
{
    for word in words {
        if !read.has(&word_key(word.as_slice(), selector), &[]) {
            return false;
        }
    }
    true
}

/// How many pairs an item has, where each of them stands among all. The list is room for some of them.
#[tactic(auto, using(site_pairs::proofs::ShortWords::short_words))]
fn count_of(
    alloc: Global,
    read: &mut ReadPairs<'_>,
    entries: &mut Vec<(Key, StoredValue)>,
    selector: &Selector,
    item: &Item,
) -> Result<Option<usize>, AllocError>
    requires short { IsTrue (is_short item.now) }
    ensures count { IfOk result (λ count. CountsItem read.old.0 selector.now item.now count) }
    ensures same { read.new ≡ read.old }
{
    entries.clear();
    put_data(alloc, entries, selector, item)?;
    if !are_among(read, entries) {
        return Ok(None);
    }
    let words = words(alloc, item)?;
    if !are_words_among(read, selector, words.as_slice()) {
        return Ok(None);
    }
    Ok(Some(entries.len() + words.as_slice().len()))
}

/// Whether each pair of these items stands among all, and there are as many of them.
fn are_counted(
    alloc: Global,
    read: &mut ReadPairs<'_>,
    items: &[(&Selector, &Item)],
) -> Result<bool, AllocError>
    requires short { ItemsAreShort (map (λ e. (e.0.now, e.1.now)) items.now) }
    ensures { IfOk result (λ yes. Decides yes (AreCounted read.old.0 (length read.old.0) (map (λ e. (e.0.now, e.1.now)) items.now))) }
{
    let mut rest = items;
    let mut left = read.pairs().len();
    let mut entries = Vec::new(alloc);
    while let [item, others @ ..] = rest {
        let Some(count) = count_of(alloc, read, &mut entries, item.0, item.1)? else {
            return Ok(false);
        };
        let Some(fewer) = left.checked_sub(count) else {
            return Ok(false);
        };
        left = fewer;
        rest = others;
    }
    Ok(left == 0)
}

/// The items of a site, in byte order of their selectors.
fn items_of(alloc: Global, site: &MemSite) -> Result<Vec<(&Selector, &Item)>, AllocError>
    ensures { IfOk result (λ all. map (λ e. (e.0.now, e.1.now)) all.items ≡ site.now.items) }
{
    site.items().iter().collect(alloc)
}

/// Whether these pairs are the layout of this site, and it keeps all rules.
pub fn has_layout(
    alloc: Global,
    site: &MemSite,
    read: &mut ReadPairs<'_>,
) -> Result<bool, AllocError>
    ensures { IfOk result (λ yes. Decides yes (IsLayoutOf read.old.0 site.now)) }
{
    let _ = read.pairs();
    if !site.is_valid(alloc)? {
        return Ok(false);
    }
    let items = items_of(alloc, site)?;
    are_counted(alloc, read, &items)
}
