// Lines of a stream.
ghost use Rattle.std.specs.Prelude.{◌≡◌, ◌≤◌, ◌==◌, length};
ghost use Rattle.std.specs.List.{position_or_len, list_any};
ghost use Rattle.request_reader.specs.Lines as lines;
ghost use Rattle.request_reader.specs.RequestLine.{is_forbidden};
ghost use Rattle.request_reader.specs.Seen.{cut_of};

use host_types::without_cr;
use memchr::{memchr, memchr2};

/// The greatest length of a line in bytes, a CR counted and the LF not.
const LONGEST_LINE: usize = 1024;

/// A stream's first line.
#[derive(Clone, Copy, Debug)]
pub enum Cut<'a> {
    /// Its LF has not come yet.
    NotYet,
    /// Its LF will come too late.
    TooLate,
    /// The line without LF and the CR before it, and what follows.
    Line(&'a [u8], &'a [u8]),
}

/// The place of the first such byte, or the length where there is none.
#[tactic(auto, using(crate::proofs::Places::place_of_first, crate::proofs::Places::place_of_none))]
pub fn first_of(byte: u8, bytes: &[u8]) -> usize
    ensures place { result ≡ position_or_len (λ b. b == byte) bytes.now }
    ensures within { result ≤ length bytes.now }
{
    match memchr(byte, bytes) {
        Some(at) => at,
        None => bytes.len(),
    }
}

/// Whether a NUL or a CR stands in the line.
#[tactic(auto, using(crate::proofs::Places::any_of_none))]
pub fn has_forbidden(line: &[u8]) -> bool
    ensures { result ≡ list_any is_forbidden line.now }
{
    match memchr2(0, b'\r', line) {
        Some(_) => true,
        None => false,
    }
}

/// The bytes among which the LF of the first line has to be.
#[tactic(auto, using(crate::proofs::GrowingStreams::front_whole), unfolding(crate::specs::Lines::front))]
fn front(stream: &[u8]) -> &[u8]
    ensures bytes { result.now ≡ lines.front stream.now }
    ensures within { length result.now ≤ length stream.now }
{
    if stream.len() <= LONGEST_LINE {
        stream
    } else {
        &stream[..LONGEST_LINE + 1]
    }
}

/// The first line of a stream, and what follows it.
#[tactic(auto, unfolding(crate::specs::Lines::first_line))]
pub fn first_line(stream: &[u8]) -> Cut<'_>
    ensures { cut_of result ≡ lines.first_line stream.now }
{
    let front = front(stream);
    let end = first_of(b'\n', front);
    if end < front.len() {
        return Cut::Line(without_cr(&front[..end]), &stream[end + 1..]);
    }
    if stream.len() > LONGEST_LINE {
        return Cut::TooLate;
    }
    Cut::NotYet
}
