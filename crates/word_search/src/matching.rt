// Whether an item is found by a search.
ghost use Rattle.std.specs.Prelude.{◌≡◌, OnOk, OnErr, IfOk, IsTrue, nat_eq};
ghost use Rattle.std.specs.List.{list_all, starts_with};
ghost use Rattle.word_search.specs.Gathered.{searched_at, is_looked_into};
ghost use Rattle.word_search.specs.Search as spec;
ghost use Rattle.host_types.specs.Words as words;

use crate::word_list::{is_among, words};
use crate::{Find, FindList};
use host_types::{Item, LineList, Selector, Stamp};
use std::alloc::{AllocError, Global};

/// How many items a search finds at most.
pub const MOST_FOUND: usize = 100;

/// Whether a word is asked for, and all are there.
fn holds(there: &LineList, asked: &LineList) -> bool
    ensures { result ≡ spec.holds there.now asked.now }
{
    for word in asked.as_slice() {
        if !is_among(there, word.as_slice()) {
            return false;
        }
    }
    !asked.as_slice().is_empty()
}

fn is_found(
    alloc: Global,
    scope: &Selector,
    asked: &LineList,
    selector: &Selector,
    item: &Item,
) -> Result<bool, AllocError>
    ensures found { IfOk result (λ found. found ≡ spec.is_found scope.now asked.now (selector.now, item.now)) }
    ensures memory { OnErr result (IsTrue (starts_with nat_eq selector.now scope.now)) }
{
    if !selector.as_bytes().starts_with(scope.as_bytes()) {
        return Ok(false);
    }
    let there = words(alloc, item)?;
    Ok(holds(&there, asked))
}

/// Adds an item that is found, while there is room.
#[tactic(auto, unfolding(crate::specs::Gathered::searched_at))]
pub fn look_at(
    alloc: Global,
    found: &mut FindList,
    scope: &Selector,
    asked: &LineList,
    now: Stamp,
    entry: (&Selector, &Item),
) -> Result<(), AllocError>
    ensures found { OnOk result (found.new ≡ searched_at now scope.now asked.now found.old (entry.entry.0.now, entry.entry.1.now)) }
    // Memory is asked for of no other item, and of none where there is no room.
    ensures memory { OnErr result (IsTrue (is_looked_into now scope.now found.old (entry.entry.0.now, entry.entry.1.now))) }
{
    if found.as_slice().len() < MOST_FOUND
        && !entry.1.is_expired(now)
        && is_found(alloc, scope, asked, entry.0, entry.1)?
    {
        found.push(Find::of(entry.0, entry.1)?)?;
    }
    Ok(())
}
