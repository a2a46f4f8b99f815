// The words of an item.
ghost use Rattle.std.specs.Prelude.{◌≡◌, ◌<◌, ◌++◌, ◌∷◌, ◌==◌, ℕ, List, OnOk, OnErr, IfOk, IsOk, [], length, map, filter, bytes_eq, false};
ghost use Rattle.word_search.specs.Gathered.{added, gathered};
ghost use Rattle.host_types.specs.Words as spec;
ghost use Rattle.host_types.specs.declared.card.CardBody.TheVariants as cards;
ghost use Rattle.host_types.specs.declared.item.Body.TheVariants as bodies;

use crate::word::{LONGEST_WORD, first_run, put_word};
use common_types::are_same;
use host_types::{Body, Bytes, Card, CardBody, Item, Kind, LineList};
use std::alloc::{AllocError, Global};

/// How many different words of an item are found.
const MOST_WORDS: usize = 200;

/// Whether two words are the same. Most that differ do so in their length or their last letter.
#[tactic(auto, using(crate::proofs::SameWords::other_length, crate::proofs::SameWords::both_empty, crate::proofs::SameWords::differs_there))]
fn is_same(one: &[u8], other: &[u8]) -> bool
    ensures { result ≡ bytes_eq one.now other.now }
{
    if one.len() != other.len() {
        return false;
    }
    if one.is_empty() {
        return true;
    }
    let last = one.len() - 1;
    if one[last] != other[last] {
        return false;
    }
    are_same(one, other)
}

/// Whether the word is one of these.
pub fn is_among(words: &LineList, word: &[u8]) -> bool
    ensures { result ≡ spec.is_among words.now word.now }
{
    for other in words.as_slice() {
        if is_same(word, other.as_slice()) {
            return true;
        }
    }
    false
}

/// Adds a word that is new, while there is room.
#[tactic(auto, unfolding(crate::specs::Gathered::added))]
fn add(alloc: Global, words: &mut LineList, word: &[u8]) -> Result<(), AllocError>
    ensures added { OnOk result (words.new ≡ added words.old word.now) }
    ensures memory { OnErr result ((length words.old < 200) × (spec.is_among words.old word.now ≡ false)) }
{
    if words.as_slice().len() < MOST_WORDS && !is_among(words, word) {
        words.push(Bytes::from_slice(alloc, word)?)?;
    }
    Ok(())
}

/// Adds a run as a word, if it has bytes.
fn add_run(alloc: Global, words: &mut LineList, run: &[u8]) -> Result<(), AllocError>
    ensures { OnOk result (words.new ≡ gathered words.old (map spec.word_of (filter spec.is_some_run (run.now ∷ [])))) }
{
    if run.is_empty() {
        return Ok(());
    }
    let mut buffer = [0; LONGEST_WORD];
    let length = put_word(run, &mut buffer);
    add(alloc, words, &buffer[..length])
}

/// Adds the words of some bytes, each that is new, while there is room.
#[tactic(auto, using(crate::proofs::Distinct::gathered_run, crate::proofs::Distinct::none_to_gather))]
fn gather(alloc: Global, words: &mut LineList, bytes: &[u8]) -> Result<(), AllocError>
    ensures { OnOk result (words.new ≡ gathered words.old (spec.words_in bytes.now)) }
{
    let mut left = bytes;
    while !left.is_empty() {
        let (run, rest) = first_run(left);
        add_run(alloc, words, run)?;
        left = rest;
    }
    Ok(())
}

/// The first 200 different words of a title, a summary and a text, in this order.
#[tactic(auto, using(crate::proofs::Distinct::gathered_thrice))]
fn first_words(
    alloc: Global,
    title: &[u8],
    summary: &[u8],
    text: &[u8],
) -> Result<LineList, AllocError>
    ensures { IfOk result (λ words. words ≡ spec.first_words (spec.words_in title.now ++ spec.words_in summary.now ++ spec.words_in text.now)) }
{
    let mut words = LineList::new(alloc);
    gather(alloc, &mut words, title)?;
    gather(alloc, &mut words, summary)?;
    gather(alloc, &mut words, text)?;
    Ok(words)
}

#[tactic(auto, unfolding(host_types::specs::Words::first_words))]
fn no_words(alloc: Global) -> LineList
    ensures { result ≡ spec.first_words [] }
{
    LineList::new(alloc)
}

/// The words of an item: the first 200 different ones of its title, its summary and, of a text, its first view. One that has moved has none.

pub fn words(alloc: Global, item: &Item) -> Result<LineList, AllocError>
    ensures words { IfOk result (λ words. words ≡ spec.words_of item.now) }
    // One that has moved asks for no memory.
    ensures moved { (target : List ℕ) → item.now.body ≡ bodies.Moved target → IsOk result }
{
    let text = match &item.body {
        Body::Views(Kind::Text, _) => item.body.viewed(0),
        Body::Moved { .. } => return Ok(no_words(alloc)),
        _ => &[],
    };
    first_words(alloc, item.title.as_bytes(), item.summary.as_slice(), text)
}

/// The words of an item by its card and the bytes of its first view, which are examined where it is a text.

pub fn card_words(alloc: Global, card: &Card, bytes: &[u8]) -> Result<LineList, AllocError>
    ensures words { IfOk result (λ words. words ≡ spec.card_words card.now bytes.now) }
    // One that has moved asks for no memory.
    ensures moved { (target : List ℕ) → card.now.body ≡ cards.Moved target → IsOk result }
{
    let text = match &card.body {
        CardBody::Views(Kind::Text, _) => bytes,
        CardBody::Moved { .. } => return Ok(no_words(alloc)),
        _ => &[],
    };
    first_words(alloc, card.title.as_bytes(), card.summary.as_slice(), text)
}
