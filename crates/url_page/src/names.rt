// The four bytes that HTML has names for (HTML 4.01, section 5.3.2).
ghost use Rattle.std.specs.Prelude.{◌≡◌, ◌∷◌, ◌++◌, ◌≤◌, ℕ, List, OnOk, IfOk, drop};
ghost use Rattle.url_page.specs.Page as spec;

use std::alloc::{AllocError, Global};

/// Adds a byte, or its name.
fn add_escaped(text: &mut Vec<u8>, byte: u8) -> Result<(), AllocError>
    ensures { OnOk result (text.new.items ≡ text.old.items ++ spec.escaped byte) }
{
    match byte {
        b'&' => text.extend_from_slice(b"&amp;"),
        b'<' => text.extend_from_slice(b"&lt;"),
        b'>' => text.extend_from_slice(b"&gt;"),
        b'"' => text.extend_from_slice(b"&quot;"),
        _ => Ok(text.push(byte)?),
    }
}

/// The bytes with `&`, `<`, `>` and `"` written by their names.
pub fn escape(alloc: Global, bytes: &[u8]) -> Result<Vec<u8>, AllocError>
    ensures { IfOk result (λ text. text.items ≡ spec.escape bytes.now) }
{
    let mut text = Vec::new(alloc);
    for byte in bytes {
        add_escaped(&mut text, *byte)?;
    }
    Ok(text)
}

/// A byte that some bytes begin with, or that is named there.
#[derive(Clone, Copy)]
pub struct FrontByte {
    byte: u8,
    /// How many more bytes its name takes.
    more: usize,
}

/// What the bytes begin with; the first of them is given beside.
fn named(first: u8, bytes: &[u8]) -> FrontByte
    ensures named { (rest : List ℕ) → bytes.now ≡ first ∷ rest → result ≡ spec.named first rest }
    ensures short { result.more ≤ 5 }
{
    let (byte, more) = if bytes.starts_with(b"&amp;") {
        (b'&', 4)
    } else if bytes.starts_with(b"&lt;") {
        (b'<', 3)
    } else if bytes.starts_with(b"&gt;") {
        (b'>', 3)
    } else if bytes.starts_with(b"&quot;") {
        (b'"', 5)
    } else {
        (first, 0)
    };
    FrontByte { byte, more }
}

/// What stands behind so many bytes.
fn behind(bytes: &[u8], count: usize) -> &[u8]
    ensures { result.now ≡ drop count bytes.now }
{
    if count < bytes.len() {
        &bytes[count..]
    } else {
        &[]
    }
}

/// The bytes with the four names read as what they name. All else stays, other names too.
#[tactic(auto, using(crate::proofs::Reading::goes_on))]
pub fn unescape(alloc: Global, bytes: &[u8]) -> Result<Vec<u8>, AllocError>
    ensures { IfOk result (λ text. text.items ≡ spec.unescape bytes.now) }
{
    let mut text = Vec::new(alloc);
    let mut left = bytes;
    while let [first, rest @ ..] = left {
        let named = named(*first, left);
        text.push(named.byte)?;
        left = behind(rest, named.more);
    }
    Ok(text)
}
