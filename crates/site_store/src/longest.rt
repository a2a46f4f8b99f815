// The longest of some words.
ghost use Rattle.std.specs.Prelude.{◌≡◌, option_map};
ghost use Rattle.site_store.specs.Searching as spec;

use host_types::Bytes;

/// The longer of two words, the first where both are as long; with no first one the other.
fn longer<'a>(first: Option<&'a Bytes>, other: &'a Bytes) -> &'a Bytes
    ensures { result.now ≡ spec.longer (option_map (λ word. word.now) first.entry) other.now }
{
    match first {
        Some(first) if first.len() >= other.len() => first,
        _ => other,
    }
}

/// The first of the longest words, or none where there are no words.
pub fn longest(words: &[Bytes]) -> Option<&Bytes>
    ensures { spec.IsLongestIn words.now (option_map (λ word. word.now) result) }
{
    let mut longest = None;
    for word in words {
        longest = Some(longer(longest, word));
    }
    longest
}
