// The order of byte strings, of which eight bytes are compared at a time.
ghost use Rattle.std.specs.Prelude.{◌≡◌, ◌≤◌, length, take, drop, IfSome, MatchOption};
ghost use Rattle.std.specs.Ordering.{ordering_then};
ghost use Rattle.std.specs.Int.{w64, from_be_bytes};
ghost use Rattle.std.specs.Str.{bytes_eq};
ghost use Rattle.common_types.specs.ByteOrder.{byte_cmp};

use std::cmp::Ordering;

/// How many bytes a word has.
const WORD: usize = 8;

/// The first bytes as one number, where there are so many.
fn word_of(bytes: &[u8]) -> Option<u64>
    ensures { MatchOption result (length bytes.now ≤ 7) (λ n. (8 ≤ length bytes.now) × (n ≡ from_be_bytes w64 (take 8 bytes.now))) }
{
    if bytes.len() < WORD {
        return None;
    }
    let (front, _) = bytes.split_at(WORD);
    Some(u64::from_be_bytes([
        front[0], front[1], front[2], front[3], front[4], front[5], front[6], front[7],
    ]))
}

/// Which of the first words comes first; none where one of the two byte strings has none.
fn compare_words(one: &[u8], other: &[u8]) -> Option<Ordering>
    ensures { IfSome result (λ first. (8 ≤ length one.now) × (8 ≤ length other.now) × (byte_cmp one.now other.now ≡ ordering_then first (byte_cmp (drop 8 one.now) (drop 8 other.now)))) }
{
    match (word_of(one), word_of(other)) {
        (Some(word), Some(another)) => Some(word.cmp(&another)),
        _ => None,
    }
}

/// Byte by byte.
fn compare_each(one: &[u8], other: &[u8]) -> Ordering
    ensures { result ≡ byte_cmp one.now other.now }
{
    let (mut left, mut right) = (one, other);
    while let ([first, rest @ ..], [another, others @ ..]) = (left, right) {
        if first != another {
            return first.cmp(another);
        }
        left = rest;
        right = others;
    }
    left.len().cmp(&right.len())
}

/// Which of two byte strings comes first: byte by byte, and a beginning before what goes on from it.
pub fn compare_bytes(one: &[u8], other: &[u8]) -> Ordering
    ensures { result ≡ byte_cmp one.now other.now }
{
    let (mut left, mut right) = (one, other);
    while let Some(first) = compare_words(left, right) {
        if first != Ordering::Equal {
            return first;
        }
        left = &left[WORD..];
        right = &right[WORD..];
    }
    compare_each(left, right)
}

/// Whether two byte strings are the same. Short ones are told sooner than by `==`.
pub fn are_same(one: &[u8], other: &[u8]) -> bool
    ensures { result ≡ bytes_eq one.now other.now }
{
    compare_bytes(one, other).is_eq()
}
