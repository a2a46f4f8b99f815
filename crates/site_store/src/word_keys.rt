// The keys of a word, as a search goes through them.
ghost use Rattle.std.specs.Prelude.{◌≡◌, ◌≤◌, length};
ghost use Rattle.site_records.specs.Keys.{word_key};

use host_types::{Bytes, Selector};
use page_store::{LONGEST_KEY, LONGEST_VALUE};
use site_records::{Key, LONGEST_WORD, word_key};

/// A word, the scope within which it is looked for, and what the keys of both begin with.
#[derive(Drop)]
pub(crate) struct WordKeys<'a> {
    pub(crate) scope: &'a Selector,
    pub(crate) word: &'a Bytes,
    pub(crate) front: Key,
    ghost short: { length word.now ≤ 32 },
    ghost begins: { front ≡ word_key word.now scope.now },
}

/// Where pairs are read to, one after another.
#[derive(Drop)]
pub(crate) struct PairRoom {
    pub(crate) key: [u8; LONGEST_KEY],
    pub(crate) value: [u8; LONGEST_VALUE],
}

impl PairRoom {
    /// Room for a pair.
    pub(crate) fn new() -> Self {
        PairRoom {
            key: [0; LONGEST_KEY],
            value: [0; LONGEST_VALUE],
        }
    }
}

impl<'a> WordKeys<'a> {
    /// The keys of a word within a scope.
    pub(crate) fn new(scope: &'a Selector, word: &'a Bytes) -> Self
        requires { length word.now ≤ LONGEST_WORD }
        ensures scope { result.scope.now ≡ scope.now }
        ensures word { result.word.now ≡ word.now }
    {
        WordKeys {
            scope,
            word,
            front: word_key(word.as_slice(), scope),
        }
    }

    /// The key of the word and a selector.
    pub(crate) fn at(&self, selector: &Selector) -> Key
        ensures { result ≡ word_key self.now.word.now selector.now }
    {
        word_key(self.word.as_slice(), selector)
    }
}
