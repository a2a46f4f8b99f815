// A value that a key-value store takes.
ghost use Rattle.std.specs.Prelude.{◌≡◌, ◌≤◌, length};
ghost use Rattle.page_store.specs.Sizes.{longest_value};

use host_types::Bytes;
use std::marker::Model;

/// A value of a pair, of at most 1,024 bytes.
#[derive(Debug, Drop)]
pub struct StoredValue {
    bytes: Bytes,
}

impl Model for StoredValue {
    ghost use Rattle.std.specs.Prelude.{List, ℕ, length, ◌≤◌};
    ghost use Rattle.page_store.specs.Sizes.{longest_value};

    ghost Value = { List ℕ };

    ghost view = { λ p. p.bytes };

    ghost invariant = { λ p. length p.bytes ≤ longest_value };
}

impl StoredValue {
    /// The value of these bytes.
    pub(crate) fn new(bytes: Bytes) -> Self
        requires { length bytes ≤ longest_value }
        ensures { result ≡ bytes }
    {
        StoredValue { bytes }
    }

    /// Its bytes.
    pub fn as_slice(&self) -> &[u8]
        ensures value { result.now ≡ self.now }
        ensures length { length result.now ≤ longest_value }
    {
        let bytes = &self.bytes;
        bytes.as_slice()
    }
}
