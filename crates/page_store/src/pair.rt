// A key and its value.
ghost use Rattle.std.specs.Prelude.{◌≡◌, map, IfOk};
ghost use Rattle.page_store.specs.Keys.{rises};
ghost use Rattle.page_store.specs.Pages.{key_of};

use common_types::{Bytes, compare_bytes};
use std::alloc::{AllocError, Global};
use std::cmp::Ordering;
use std::marker::Model;

/// A key and its value.
#[derive(Debug, Drop)]
pub struct Pair {
    key: Bytes,
    value: Bytes,
}

impl Model for Pair {
    ghost use Rattle.std.specs.Prelude.{List, ℕ};

    ghost Value = { List ℕ × List ℕ };

    ghost view = { λ p. (p.key, p.value) };
}

impl Pair {
    /// A pair of these bytes.
    pub fn new(key: Bytes, value: Bytes) -> Self
        ensures { result ≡ (key, value) }
    {
        Pair { key, value }
    }

    /// A pair of copies of these bytes.
    pub fn from_slices(alloc: Global, key: &[u8], value: &[u8]) -> Result<Self, AllocError>
        ensures { IfOk result (λ p. p ≡ (key.now, value.now)) }
    {
        let key = Bytes::from_slice(alloc, key)?;
        let value = Bytes::from_slice(alloc, value)?;
        Ok(Pair { key, value })
    }

    /// The bytes of its key.
    pub fn key(&self) -> &[u8]
        ensures { result.now ≡ self.now.0 }
    {
        self.key.as_slice()
    }

    /// The bytes of its value.
    pub fn value(&self) -> &[u8]
        ensures { result.now ≡ self.now.1 }
    {
        self.value.as_slice()
    }
}

impl Pair {
    /// With another value.
    pub(crate) fn set_value(&mut self, value: Bytes)
        ensures { self.new ≡ (self.old.0, value) }
    {
        self.value = value;
    }
}

impl Clone for Pair {
    ghost is_clone = { λ a b. b ≡ a };

    fn clone(&self) -> Result<Self, AllocError> {
        Ok(Pair {
            key: self.key.clone()?,
            value: self.value.clone()?,
        })
    }
}

/// Whether the keys of these pairs rise in byte order.
pub fn keys_rise(pairs: &[Pair]) -> bool
    ensures { result ≡ rises (map key_of pairs.now) }
{
    for place in 1..pairs.len() {
        match compare_bytes(pairs[place - 1].key(), pairs[place].key()) {
            Ordering::Less => {}
            Ordering::Equal | Ordering::Greater => return false,
        }
    }
    true
}
