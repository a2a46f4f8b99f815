// Keys of a site's layout. To make one takes no memory.
ghost use Rattle.std.specs.Prelude.{◌≡◌, ◌<◌, ◌≤◌, ◌++◌, ◌∷◌, ◌+◌, [], length};
ghost use Rattle.site_records.specs.Keys as spec;

use arrayvec::ArrayVec;
use host_types::Selector;
use std::marker::Model;

/// The greatest length of a key in bytes: that of a word of 32 bytes at a selector of 255.
pub const LONGEST_KEY: usize = 289;

/// The greatest length of a word in a key.
pub const LONGEST_WORD: usize = 32;

/// A key of the pairs that represent a site, of 1 to 289 bytes.
#[derive(Debug, PartialEq, Eq, PartialOrd, Ord, Drop)]
pub struct Key {
    bytes: ArrayVec<u8, 289>,
}

impl Model for Key {
    ghost use Rattle.std.specs.Prelude.{List, ℕ, length, ◌≤◌, ◌<◌};
    ghost use Rattle.std.specs.Coded.{coded_list, coded_ℕ};

    ghost Value = { List ℕ };

    ghost coded = { coded_list coded_ℕ };

    ghost view = { λ k. k.bytes.items };

    ghost invariant = { λ k. (length k.bytes.items ≤ 289) × (0 < length k.bytes.items) };

    ghost inverse = { λ bytes. record { bytes = record { items = bytes } } };
}

/// Adds bytes for which there is room.
fn append(key: &mut ArrayVec<u8, 289>, bytes: &[u8])
    requires { length key.old.items + length bytes.now ≤ LONGEST_KEY }
    ensures { key.new.items ≡ key.old.items ++ bytes.now }
{
    let _ = key.try_extend_from_slice(bytes);
}

impl Key {
    /// The bytes of the key.
    pub fn as_bytes(&self) -> &[u8]
        ensures key { result.now ≡ self.now }
        ensures length { length result.now ≤ LONGEST_KEY }
        ensures some { 0 < length result.now }
    {
        let kept = &self.bytes;
        kept.as_slice()
    }
}

/// The key of an item's record.
pub fn item_key(selector: &Selector) -> Key
    ensures { result ≡ spec.item_key selector.now }
{
    let mut bytes = ArrayVec::new();
    append(&mut bytes, b"I");
    append(&mut bytes, selector.as_bytes());
    Key { bytes }
}

/// The key of a chunk of one of an item's parts, by the part's number and the chunk's.
pub fn chunk_key(selector: &Selector, part: u8, k: u16) -> Key
    ensures { result ≡ spec.chunk_key selector.now part k }
{
    let name = selector.as_bytes();
    let mut bytes = ArrayVec::new();
    append(&mut bytes, &[b'C', name.len() as u8]);
    append(&mut bytes, name);
    append(&mut bytes, &[part]);
    append(&mut bytes, &k.to_be_bytes());
    Key { bytes }
}

/// The key of one of an item's words.
pub fn word_key(word: &[u8], selector: &Selector) -> Key
    requires { length word.now ≤ LONGEST_WORD }
    ensures { result ≡ spec.word_key word.now selector.now }
{
    let mut bytes = ArrayVec::new();
    append(&mut bytes, &[b'W', word.len() as u8]);
    append(&mut bytes, word);
    append(&mut bytes, selector.as_bytes());
    Key { bytes }
}
