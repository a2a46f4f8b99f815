// Which words go and which come when an item changes.
ghost use Rattle.std.specs.Prelude.{◌≡◌, ◌&&◌, ◌||◌, not, ℕ, List, IfOk};
ghost use Rattle.word_search.specs.WordChange.{dropped};
ghost use Rattle.host_types.specs.Words as spec;

use crate::word_list::is_among;
use host_types::LineList;
use std::alloc::{AllocError, Global};

/// The words that go, and those that come.
#[derive(Debug, Drop)]
pub struct WordChange {
    pub drop: LineList,
    pub add: LineList,
}

/// The words of the first list that the second lacks.
fn without(alloc: Global, words: &LineList, others: &LineList) -> Result<LineList, AllocError>
    ensures { IfOk result (λ left. left ≡ dropped words.now others.now) }
{
    let mut left = LineList::new(alloc);
    for word in words.as_slice() {
        if !is_among(others, word.as_slice()) {
            left.push(word.clone()?)?;
        }
    }
    Ok(left)
}

/// The words that differ: after the change the index has the new words, and no others of this item.
#[tactic(auto, using(crate::proofs::Changes::words_after))]
pub fn word_change(alloc: Global, old: &LineList, new: &LineList) -> Result<WordChange, AllocError>
    ensures drop { IfOk result (λ change. change.drop ≡ dropped old.now new.now) }
    ensures add { IfOk result (λ change. change.add ≡ dropped new.now old.now) }
    ensures after { IfOk result (λ change. (word : List ℕ) → (spec.is_among old.now word && not (spec.is_among change.drop word)) || spec.is_among change.add word ≡ spec.is_among new.now word) }
{
    Ok(WordChange {
        drop: without(alloc, old, new)?,
        add: without(alloc, new, old)?,
    })
}
