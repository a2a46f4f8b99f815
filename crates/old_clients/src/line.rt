// A request line and the sign in it that is rewritten.
ghost use Rattle.std.specs.Prelude.{◌≡◌, ◌≤◌, ◌==◌, length, IfSome, IfNone};
ghost use Rattle.std.specs.List.{position_or_len};
ghost use Rattle.old_clients.specs.AdaptedRequest.{is_words, is_search};
ghost use Rattle.old_clients.specs.Signs.{IsSign, HasNoSign};

use host_types::without_cr;
use memchr::memchr;

/// The place of the first such byte, or the length where there is none.
#[tactic(auto, using(crate::proofs::Places::place_of_first, crate::proofs::Places::place_of_none))]
pub fn first_of(byte: u8, bytes: &[u8]) -> usize
    ensures place { result ≡ position_or_len (λ b. b == byte) bytes.now }
    ensures within { result ≤ length bytes.now }
{
    match memchr(byte, bytes) {
        Some(at) => at,
        None => bytes.len(),
    }
}

/// Whether the field is search words: at least one byte, and no Gopher+ part.
fn is_words(field: &[u8]) -> bool
    ensures { result ≡ is_words field.now }
{
    match field {
        [] | [b'+', ..] | [b'!', ..] | [b'$', ..] => false,
        _ => true,
    }
}

/// Whether what stands behind a selector is search words and `$`.
fn is_search(part: &[u8]) -> bool
    ensures { result ≡ is_search part.now }
{
    let tab = first_of(b'\t', part);
    tab < part.len() && is_words(&part[..tab]) && &part[tab + 1..] == b"$".as_slice()
}

/// The place of the `$` that is rewritten, in a line without its LF.
pub fn sign_of(line: &[u8]) -> Option<usize>
    ensures found { IfSome result (λ at. IsSign line.now at) }
    ensures none { IfNone result (HasNoSign line.now) }
{
    let content = without_cr(line);
    let tab = first_of(b'\t', content);
    if tab == content.len() {
        return None;
    }
    let part = &content[tab + 1..];
    if part == b"$\t1".as_slice() {
        return Some(tab + 1);
    }
    if is_search(part) {
        return Some(content.len() - 1);
    }
    None
}
