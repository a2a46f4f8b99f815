// Titles of posts.
ghost use Rattle.std.specs.Prelude.{◌≡◌, ◌≤◌, IfOk, length, map, take};
ghost use Rattle.ask_forms.specs.Post as spec;

use host_types::Title;
use std::alloc::{AllocError, Global};

/// The most bytes of a title.
const LONGEST_TITLE: usize = 69;

/// The byte, or a space in place of one that a title may not have.
fn title_byte(byte: u8) -> u8
    ensures { result ≡ spec.title_byte byte }
{
    match byte {
        0 | b'\t' | b'\n' | b'\r' => b' ',
        _ => byte,
    }
}

/// The bytes of a line that a title has room for.
#[tactic(auto, using(crate::proofs::Titles::all_fits))]
fn front_of(line: &[u8]) -> &[u8]
    ensures bytes { result.now ≡ take 69 line.now }
    ensures fits { length result.now ≤ 69 }
{
    if line.len() <= LONGEST_TITLE {
        line
    } else {
        &line[..LONGEST_TITLE]
    }
}

fn title_bytes(alloc: Global, line: &[u8]) -> Result<Vec<u8>, AllocError>
    ensures { IfOk result (λ bytes. bytes.items ≡ map spec.title_byte line.now) }
{
    line.iter().map(|byte| title_byte(*byte)).collect(alloc)
}

/// The title that a line makes.
#[tactic(auto, unfolding(crate::specs::Post::title_of))]
pub fn title_of(alloc: Global, line: &[u8]) -> Result<Title, AllocError>
    ensures { IfOk result (λ title. title ≡ spec.title_of line.now) }
{
    let front = front_of(line);
    if front.is_empty() {
        return Ok(Title::new(b"Untitled").unwrap());
    }
    let bytes = title_bytes(alloc, front)?;
    Ok(Title::new(&bytes).unwrap())
}
