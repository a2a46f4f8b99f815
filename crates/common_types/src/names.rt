// Names of fixed capacity. To make one takes no memory.
ghost use Rattle.std.specs.Prelude.{◌≡◌, ◌≤◌, ◌↔◌, [], IsTrue, length};
ghost use Rattle.common_types.specs.Names.{is_forbidden, is_field, is_visible, is_word, has_scheme, is_url, is_reserved, name_of, stamp_of};

use crate::Refused;
use arrayvec::ArrayVec;
use std::alloc::AllocError;
use std::marker::Model;

/// The greatest stamp in seconds from the start of 1970: the last second of the year 9999.
pub const GREATEST_STAMP: u64 = 253_402_300_799;

/// Whether the byte ends a field or a line of a menu: TAB, CR, LF or NUL.
pub fn is_forbidden(byte: u8) -> bool
    ensures { result ≡ is_forbidden byte }
{
    byte == 0 || byte == b'\t' || byte == b'\n' || byte == b'\r'
}

/// Whether a menu line can hold the bytes in one field.
pub fn is_field(bytes: &[u8]) -> bool
    ensures { result ≡ is_field bytes.now }
{
    for byte in bytes {
        if is_forbidden(*byte) {
            return false;
        }
    }
    true
}

/// Whether there is a byte, and each is a printed character that is no space.
pub fn is_word(bytes: &[u8]) -> bool
    ensures { result ≡ is_word bytes.now }
{
    for byte in bytes {
        if *byte < 33 || *byte > 126 {
            return false;
        }
    }
    !bytes.is_empty()
}

fn has_scheme(bytes: &[u8]) -> bool
    ensures { result ≡ has_scheme bytes.now }
{
    bytes.starts_with(b"http://")
        || bytes.starts_with(b"https://")
        || bytes.starts_with(b"ftp://")
        || bytes.starts_with(b"gopher://")
}

/// Whether the bytes are a link that a browser may follow, of any length.
pub fn is_url(bytes: &[u8]) -> bool
    ensures { result ≡ is_url bytes.now }
{
    is_word(bytes) && has_scheme(bytes)
}

/// What an item is found by: 0 to 255 bytes without TAB, CR, LF and NUL.
///
/// RFC 1436, section 3.9, asks for no more than 255; that NUL is forbidden too is this project's profile. The empty one is the top menu's.
#[derive(Debug, PartialEq, Eq, PartialOrd, Ord, Drop)]
pub struct Selector {
    bytes: ArrayVec<u8, 255>,
}

impl Model for Selector {
    ghost use Rattle.std.specs.Prelude.{List, ℕ, length, ◌≤◌, IsTrue};
    ghost use Rattle.std.specs.Coded.{coded_list, coded_ℕ};
    ghost use Rattle.common_types.specs.Names.{is_field};

    ghost Value = { List ℕ };

    ghost coded = { coded_list coded_ℕ };

    ghost view = { λ n. n.bytes.items };

    ghost invariant = { λ n. (length n.bytes.items ≤ 255) × IsTrue (is_field n.bytes.items) };

    ghost inverse = { λ bytes. record { bytes = record { items = bytes } } };
}

impl Clone for Selector {
    ghost is_clone = { λ a b. b ≡ a };

    fn clone(&self) -> Result<Self, AllocError> {
        Ok(Selector {
            bytes: self.bytes.clone()?,
        })
    }
}

impl Selector {
    /// The selector of the top menu, which has no bytes.
    pub fn root() -> Self
        ensures { result ≡ [] }
    {
        Selector {
            bytes: ArrayVec::new(),
        }
    }

    /// The name of these bytes: `TooLong` where they are more than it may have, or else `BadName` where they are not valid. It takes no memory.
    pub fn new(bytes: &[u8]) -> Result<Self, Refused>
        ensures { result ≡ name_of is_field 255 bytes.now }
    {
        if bytes.len() > 255 {
            return Err(Refused::TooLong);
        }
        if !is_field(bytes) {
            return Err(Refused::BadName);
        }
        let mut kept = ArrayVec::new();
        if kept.try_extend_from_slice(bytes).is_err() {
            return Err(Refused::TooLong);
        }
        Ok(Selector { bytes: kept })
    }

    /// The bytes that it was made of.
    pub fn as_bytes(&self) -> &[u8]
        ensures bytes { result.now ≡ self.now }
        ensures valid { IsTrue (is_field self.now) }
        ensures length { length self.now ≤ 255 }
    {
        let kept = &self.bytes;
        kept.as_slice()
    }
}

impl Selector {
    /// Whether it begins as the selectors of posts and of links do, with `post/` or `URL:`. To put or move an item there is refused.
    pub fn is_reserved(&self) -> bool
        ensures { result ≡ is_reserved self.now }
    {
        let bytes = self.as_bytes();
        bytes.starts_with(b"URL:") || bytes.starts_with(b"post/")
    }
}

/// What a menu shows of an item: 0 to 69 bytes without TAB, CR, LF and NUL.
///
/// RFC 1436, section 3.9, asks for less than 70.
#[derive(Debug, PartialEq, Eq, PartialOrd, Ord, Drop)]
pub struct Title {
    bytes: ArrayVec<u8, 69>,
}

impl Model for Title {
    ghost use Rattle.std.specs.Prelude.{List, ℕ, length, ◌≤◌, IsTrue};
    ghost use Rattle.std.specs.Coded.{coded_list, coded_ℕ};
    ghost use Rattle.common_types.specs.Names.{is_field};

    ghost Value = { List ℕ };

    ghost coded = { coded_list coded_ℕ };

    ghost view = { λ n. n.bytes.items };

    ghost invariant = { λ n. (length n.bytes.items ≤ 69) × IsTrue (is_field n.bytes.items) };

    ghost inverse = { λ bytes. record { bytes = record { items = bytes } } };
}

impl Clone for Title {
    ghost is_clone = { λ a b. b ≡ a };

    fn clone(&self) -> Result<Self, AllocError> {
        Ok(Title {
            bytes: self.bytes.clone()?,
        })
    }
}

impl Title {
    /// The name of these bytes: `TooLong` where they are more than it may have, or else `BadName` where they are not valid. It takes no memory.
    pub fn new(bytes: &[u8]) -> Result<Self, Refused>
        ensures { result ≡ name_of is_field 69 bytes.now }
    {
        if bytes.len() > 69 {
            return Err(Refused::TooLong);
        }
        if !is_field(bytes) {
            return Err(Refused::BadName);
        }
        let mut kept = ArrayVec::new();
        if kept.try_extend_from_slice(bytes).is_err() {
            return Err(Refused::TooLong);
        }
        Ok(Title { bytes: kept })
    }

    /// The bytes that it was made of.
    pub fn as_bytes(&self) -> &[u8]
        ensures bytes { result.now ≡ self.now }
        ensures valid { IsTrue (is_field self.now) }
        ensures length { length self.now ≤ 69 }
    {
        let kept = &self.bytes;
        kept.as_slice()
    }
}

/// Who keeps the site, as a name and an address: 0 to 100 bytes without TAB, CR, LF and NUL.
#[derive(Debug, PartialEq, Eq, PartialOrd, Ord, Drop)]
pub struct Admin {
    bytes: ArrayVec<u8, 100>,
}

impl Model for Admin {
    ghost use Rattle.std.specs.Prelude.{List, ℕ, length, ◌≤◌, IsTrue};
    ghost use Rattle.std.specs.Coded.{coded_list, coded_ℕ};
    ghost use Rattle.common_types.specs.Names.{is_field};

    ghost Value = { List ℕ };

    ghost coded = { coded_list coded_ℕ };

    ghost view = { λ n. n.bytes.items };

    ghost invariant = { λ n. (length n.bytes.items ≤ 100) × IsTrue (is_field n.bytes.items) };

    ghost inverse = { λ bytes. record { bytes = record { items = bytes } } };
}

impl Clone for Admin {
    ghost is_clone = { λ a b. b ≡ a };

    fn clone(&self) -> Result<Self, AllocError> {
        Ok(Admin {
            bytes: self.bytes.clone()?,
        })
    }
}

impl Admin {
    /// The name of these bytes: `TooLong` where they are more than it may have, or else `BadName` where they are not valid. It takes no memory.
    pub fn new(bytes: &[u8]) -> Result<Self, Refused>
        ensures { result ≡ name_of is_field 100 bytes.now }
    {
        if bytes.len() > 100 {
            return Err(Refused::TooLong);
        }
        if !is_field(bytes) {
            return Err(Refused::BadName);
        }
        let mut kept = ArrayVec::new();
        if kept.try_extend_from_slice(bytes).is_err() {
            return Err(Refused::TooLong);
        }
        Ok(Admin { bytes: kept })
    }

    /// The bytes that it was made of.
    pub fn as_bytes(&self) -> &[u8]
        ensures bytes { result.now ≡ self.now }
        ensures valid { IsTrue (is_field self.now) }
        ensures length { length self.now ≤ 100 }
    {
        let kept = &self.bytes;
        kept.as_slice()
    }
}

/// A host's name, as clients look it up: 1 to 100 bytes of 33 to 126.
#[derive(Debug, PartialEq, Eq, PartialOrd, Ord, Drop)]
pub struct Host {
    bytes: ArrayVec<u8, 100>,
}

impl Model for Host {
    ghost use Rattle.std.specs.Prelude.{List, ℕ, length, ◌≤◌, IsTrue};
    ghost use Rattle.std.specs.Coded.{coded_list, coded_ℕ};
    ghost use Rattle.common_types.specs.Names.{is_word};

    ghost Value = { List ℕ };

    ghost coded = { coded_list coded_ℕ };

    ghost view = { λ n. n.bytes.items };

    ghost invariant = { λ n. (length n.bytes.items ≤ 100) × IsTrue (is_word n.bytes.items) };

    ghost inverse = { λ bytes. record { bytes = record { items = bytes } } };
}

impl Clone for Host {
    ghost is_clone = { λ a b. b ≡ a };

    fn clone(&self) -> Result<Self, AllocError> {
        Ok(Host {
            bytes: self.bytes.clone()?,
        })
    }
}

impl Host {
    /// The name of these bytes: `TooLong` where they are more than it may have, or else `BadName` where they are not valid. It takes no memory.
    pub fn new(bytes: &[u8]) -> Result<Self, Refused>
        ensures { result ≡ name_of is_word 100 bytes.now }
    {
        if bytes.len() > 100 {
            return Err(Refused::TooLong);
        }
        if !is_word(bytes) {
            return Err(Refused::BadName);
        }
        let mut kept = ArrayVec::new();
        if kept.try_extend_from_slice(bytes).is_err() {
            return Err(Refused::TooLong);
        }
        Ok(Host { bytes: kept })
    }

    /// The bytes that it was made of.
    pub fn as_bytes(&self) -> &[u8]
        ensures bytes { result.now ≡ self.now }
        ensures valid { IsTrue (is_word self.now) }
        ensures length { length self.now ≤ 100 }
    {
        let kept = &self.bytes;
        kept.as_slice()
    }
}

/// A link out of gopherspace: 1 to 251 bytes of 33 to 126, with a scheme that a browser knows.
#[derive(Debug, PartialEq, Eq, PartialOrd, Ord, Drop)]
pub struct Url {
    bytes: ArrayVec<u8, 251>,
}

impl Model for Url {
    ghost use Rattle.std.specs.Prelude.{List, ℕ, length, ◌≤◌, IsTrue};
    ghost use Rattle.std.specs.Coded.{coded_list, coded_ℕ};
    ghost use Rattle.common_types.specs.Names.{is_url};

    ghost Value = { List ℕ };

    ghost coded = { coded_list coded_ℕ };

    ghost view = { λ n. n.bytes.items };

    ghost invariant = { λ n. (length n.bytes.items ≤ 251) × IsTrue (is_url n.bytes.items) };

    ghost inverse = { λ bytes. record { bytes = record { items = bytes } } };
}

impl Clone for Url {
    ghost is_clone = { λ a b. b ≡ a };

    fn clone(&self) -> Result<Self, AllocError> {
        Ok(Url {
            bytes: self.bytes.clone()?,
        })
    }
}

impl Url {
    /// The name of these bytes: `TooLong` where they are more than it may have, or else `BadName` where they are not valid. It takes no memory.
    pub fn new(bytes: &[u8]) -> Result<Self, Refused>
        ensures { result ≡ name_of is_url 251 bytes.now }
    {
        if bytes.len() > 251 {
            return Err(Refused::TooLong);
        }
        if !is_url(bytes) {
            return Err(Refused::BadName);
        }
        let mut kept = ArrayVec::new();
        if kept.try_extend_from_slice(bytes).is_err() {
            return Err(Refused::TooLong);
        }
        Ok(Url { bytes: kept })
    }

    /// The bytes that it was made of.
    pub fn as_bytes(&self) -> &[u8]
        ensures bytes { result.now ≡ self.now }
        ensures valid { IsTrue (is_url self.now) }
        ensures length { length self.now ≤ 251 }
    {
        let kept = &self.bytes;
        kept.as_slice()
    }
}

/// Seconds from the start of 1970, to the end of the year 9999.
#[derive(Clone, Copy, Debug, PartialEq, Eq, PartialOrd, Ord)]
pub struct Stamp {
    seconds: u64,
}

impl Model for Stamp {
    ghost use Rattle.std.specs.Prelude.{ℕ, ◌≤◌};

    ghost Value = { ℕ };

    ghost view = { λ s. s.seconds };

    ghost invariant = { λ s. s.seconds ≤ 253402300799 };

    ghost inverse = { λ seconds. record { seconds = seconds } };
}

impl Stamp {
    /// The start of 1970.
    pub fn start() -> Self
        ensures { result ≡ 0 }
    {
        Stamp { seconds: 0 }
    }

    /// The stamp of so many seconds from the start of 1970: `TooLong` above `GREATEST_STAMP`.
    pub fn new(seconds: u64) -> Result<Self, Refused>
        ensures { result ≡ stamp_of seconds }
    {
        if seconds > GREATEST_STAMP {
            return Err(Refused::TooLong);
        }
        Ok(Stamp { seconds })
    }

    /// The seconds from the start of 1970.
    pub fn seconds(self) -> u64
        ensures value { result ≡ self }
        ensures range { result ≤ GREATEST_STAMP }
    {
        self.seconds
    }
}
