// Searching a site over the keys of words: those of the longest word that is asked for are walked, and the others looked up.
ghost use Rattle.std.specs.Prelude.{◌≡◌, ◌≤◌, All, IsTrue};
ghost use Rattle.std.specs.Prelude as list;
ghost use Rattle.host_types.specs.Visible.{visible};
ghost use Rattle.host_types.specs.Words.{is_among};
ghost use Rattle.site_store.specs.Represented.{RepresentedBy};
ghost use Rattle.site_store.specs.Reads.{ReadsKnown};
ghost use Rattle.site_store.specs.FilterSearch.{all_found};
ghost use Rattle.site_store.specs.WordWalks.{IsKeyOf, StandsWith};
ghost use Rattle.site_store.specs.Searching as spec;
ghost use Rattle.word_search.specs.Finds.{finds_of};

use crate::SiteOpenFault;
use crate::longest::longest;
use crate::records::front_at;
use crate::word_keys::{PairRoom, WordKeys};
use crate::word_walk::{has_all, has_word, next_with};
use host_types::{Bytes, CardFront, Selector, Stamp, is_over};
use page_store::{Keeper, LONGEST_VALUE};
use site_records::{Key, LONGEST_WORD};
use std::alloc::Global;
use word_search::{Find, FindList, MOST_FOUND, words_in};

/// What the line of a menu says of an item, unless it has expired.
fn unless_over(front: CardFront, now: Stamp) -> Option<CardFront>
    ensures { result ≡ spec.unless_over now front }
{
    if is_over(front.until, now) {
        return None;
    }
    Some(front)
}

/// The same of an item that has the word, by its record.
fn fresh_front<K: Keeper>(
    keeper: &mut K,
    selector: &Selector,
    word: &Bytes,
    now: Stamp,
    buffer: &mut [u8; LONGEST_VALUE],
) -> Result<Option<CardFront>, SiteOpenFault>
    ensures front { ReadsKnown K.store_state K.may_need K.crash_states keeper.old keeper.new result (StandsWith selector.now word.now) (λ item front. front ≡ spec.fresh_front now item) }
{
    match front_at(keeper, selector, buffer) {
        Ok(Some(front)) => Ok(unless_over(front, now)),
        Ok(None) => Err(SiteOpenFault::BadRecord),
        Err(fault) => Err(fault),
    }
}

/// Looks at an item that has the word: it is found where it has all words that are asked for, and hasn't expired.
fn look_in<K: Keeper>(
    keeper: &mut K,
    found: &mut Vec<Find>,
    selector: Selector,
    word: &Bytes,
    asked: &[Bytes],
    now: Stamp,
    buffer: &mut [u8; LONGEST_VALUE],
) -> Result<(), SiteOpenFault>
    requires { All (λ w. list.length w ≤ LONGEST_WORD) asked.now }
    ensures found { ReadsKnown K.store_state K.may_need K.crash_states keeper.old keeper.new result (StandsWith selector word.now) (λ item _. found.new.items ≡ spec.found_with now asked.now found.old.items selector item) }
{
    match has_all(keeper, &selector, word, asked) {
        Ok(true) => {}
        Ok(false) => return Ok(()),
        Err(fault) => return Err(fault),
    }
    match fresh_front(keeper, &selector, word, now, buffer) {
        Ok(Some(front)) => {
            found.push(Find { selector, front })?;
            Ok(())
        }
        Ok(None) => Ok(()),
        Err(fault) => Err(fault),
    }
}

/// Looks at the item at the scope itself, whose key is the first of those with the word.
fn begin<K: Keeper>(
    alloc: Global,
    keeper: &mut K,
    keys: &WordKeys<'_>,
    asked: &[Bytes],
    now: Stamp,
    room: &mut PairRoom,
) -> Result<Vec<Find>, SiteOpenFault>
    requires short { All (λ w. list.length w ≤ LONGEST_WORD) asked.now }
    requires asked { IsTrue (is_among asked.now keys.now.word.now) }
    ensures left { ReadsKnown K.store_state K.may_need K.crash_states keeper.old keeper.new result RepresentedBy (λ s found. spec.IsLeftToFind now s keys.now.scope.now keys.now.word.now asked.now found.items keys.now.scope.now) }
{
    let mut found = Vec::with_capacity(alloc, MOST_FOUND)?;
    match has_word(keeper, keys.word, keys.scope) {
        Ok(true) => {}
        Ok(false) => return Ok(found),
        Err(fault) => return Err(fault),
    }
    let scope = keys.scope.clone()?;
    match look_in(
        keeper,
        &mut found,
        scope,
        keys.word,
        asked,
        now,
        &mut room.value,
    ) {
        Ok(()) => Ok(found),
        Err(fault) => Err(fault),
    }
}

/// Goes on to the next item that has the word and looks at it; false where all that is to be found is found.
fn step<K: Keeper>(
    keeper: &mut K,
    found: &mut Vec<Find>,
    keys: &WordKeys<'_>,
    asked: &[Bytes],
    now: Stamp,
    last: &mut Key,
    room: &mut PairRoom,
) -> Result<bool, SiteOpenFault>
    requires short { All (λ w. list.length w ≤ LONGEST_WORD) asked.now }
    requires asked { IsTrue (is_among asked.now keys.now.word.now) }
    requires last { IsKeyOf keys.now.word.now last.old }
    ensures further { ReadsKnown K.store_state K.may_need K.crash_states keeper.old keeper.new result (λ h s. RepresentedBy h s × spec.IsLeftBehind now s keys.now asked.now found.old.items last.old) (λ s more. spec.IsFurther now s keys.now asked.now more found.new.items last.new) }
    ensures last { IsKeyOf keys.now.word.now last.new }
{
    if found.len() >= MOST_FOUND {
        return Ok(false);
    }
    let next = match next_with(keeper, keys, last, &mut room.key, &mut room.value) {
        Ok(Some(next)) => next,
        Ok(None) => return Ok(false),
        Err(fault) => return Err(fault),
    };
    *last = keys.at(&next);
    match look_in(keeper, found, next, keys.word, asked, now, &mut room.value) {
        Ok(()) => Ok(true),
        Err(fault) => Err(fault),
    }
}

/// Looks at the items within the scope that have the word, until enough are found.
fn search_in<K: Keeper>(
    alloc: Global,
    keeper: &mut K,
    keys: &WordKeys<'_>,
    asked: &[Bytes],
    now: Stamp,
) -> Result<FindList, SiteOpenFault>
    requires short { All (λ w. list.length w ≤ LONGEST_WORD) asked.now }
    requires asked { IsTrue (is_among asked.now keys.now.word.now) }
    ensures found { ReadsKnown K.store_state K.may_need K.crash_states keeper.old keeper.new result RepresentedBy (λ s found. found ≡ all_found now s keys.now.scope.now asked.now) }
{
    let mut room = PairRoom::new();
    let mut last = keys.at(keys.scope);
    let mut found = match begin(alloc, keeper, keys, asked, now, &mut room) {
        Ok(found) => found,
        Err(fault) => return Err(fault),
    };
    for _ in 0..u64::MAX {
        match step(keeper, &mut found, keys, asked, now, &mut last, &mut room) {
            Ok(true) => {}
            Ok(false) => return Ok(FindList::from(found)),
            Err(fault) => return Err(fault),
        }
    }
    // No device that can be had holds so many items.
    Err(SiteOpenFault::Memory)
}

/// The first items of a site that are found. Only keys are read, and the records of what has all words.
pub fn search_all<K: Keeper>(
    alloc: Global,
    keeper: &mut K,
    scope: &Selector,
    query: &[u8],
    now: Stamp,
) -> Result<FindList, SiteOpenFault>
    ensures found { ReadsKnown K.store_state K.may_need K.crash_states keeper.old keeper.new result RepresentedBy (λ s found. found ≡ finds_of (visible s now) scope.now query.now) }
{
    let words = words_in(alloc, query)?;
    let asked = words.as_slice();
    match longest(asked) {
        Some(word) => {
            let keys = WordKeys::new(scope, word);
            search_in(alloc, keeper, &keys, asked, now)
        }
        None => Ok(FindList::new(alloc)),
    }
}
