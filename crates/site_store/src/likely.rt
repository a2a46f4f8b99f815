// Where a key is likely to stand among pairs in the order of their keys: behind the one with the same beginning that was looked for last.
ghost use Rattle.std.specs.Prelude.{◌≡◌, ◌<◌, ◌+◌, ◌/◌, map, length, replicate, IfOk, IsTrue};
ghost use Rattle.page_store.specs.Keys.{rises};
ghost use Rattle.page_store.specs.Pages.{key_of};
ghost use Rattle.site_store.specs.LikelyPlaces.{fnv_1a, beginning_of};
ghost use Rattle.site_store.specs.Opening.{IsPlaceOf};

use common_types::are_same;
use page_store::Pair;
use std::alloc::{AllocError, Global};

/// How many pairs there are for one beginning of keys, on the average.
const PAIRS_OF_A_BEGINNING: usize = 2;

/// A place for each beginning of keys, by a hash. Where it is not the right one the key is searched for, so that it costs time and nothing else.
#[derive(Drop)]
pub struct LikelyPlaces {
    places: Vec<usize>,
    ghost some: { 0 < length places.items },
}

/// What the keys of one word have in common, and of other keys those of the same kind.
fn beginning(key: &[u8]) -> &[u8]
    ensures { result.now ≡ beginning_of key.now }
{
    match key {
        [b'W', size, word @ ..] => &word[..word.len().min(*size as usize)],
        _ => &key[..key.len().min(2)],
    }
}

/// A number made of all bytes, such that those of similar words lie far apart: by the algorithm FNV-1a, of 64 bits.
fn hash(bytes: &[u8]) -> usize
    ensures { result ≡ fnv_1a bytes.now }
{
    let mut made: usize = 0xcbf2_9ce4_8422_2325;
    for byte in bytes {
        made = (made ^ usize::from(*byte)).wrapping_mul(0x100_0000_01b3);
    }
    made
}

/// The place of a key. It is looked for at the likely place first.
fn place_at(pairs: &[Pair], key: &[u8], likely: usize) -> Option<usize>
    requires { IsTrue (rises (map key_of pairs.now)) }
    ensures { IsPlaceOf pairs.now key.now result }
{
    if likely < pairs.len() && are_same(pairs[likely].key(), key) {
        return Some(likely);
    }
    match pairs.binary_search_by(|pair| pair.key().cmp(key)) {
        Ok(place) => Some(place),
        Err(_) => None,
    }
}

impl LikelyPlaces {
    /// Places for so many pairs. They are likely only once keys were looked for.
    pub fn new(alloc: Global, count: usize) -> Result<Self, AllocError>
        ensures { IfOk result (λ p. p.places.items ≡ replicate (count / 2 + 1) 0) }
    {
        let places = vec![in alloc; 0; count / PAIRS_OF_A_BEGINNING + 1]?;
        Ok(LikelyPlaces { places })
    }

    /// The place of a key. Keys of the same beginning are found at once where they are looked for in their order.
    pub fn place_of(&mut self, pairs: &[Pair], key: &[u8]) -> Option<usize>
        requires { IsTrue (rises (map key_of pairs.now)) }
        ensures { IsPlaceOf pairs.now key.now result }
    {
        let slot = hash(beginning(key)) % self.places.len();
        let found = place_at(pairs, key, self.places[slot]);
        if let Some(place) = found {
            self.places[slot] = place + 1;
        }
        found
    }
}
