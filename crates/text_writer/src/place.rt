// Where in a line a body is, and what its next byte gives.
ghost use Rattle.std.specs.Prelude.{◌≡◌, ◌<◌, ◌≤◌, ◌+◌, ◌++◌, ◌∷◌, [], length, take};
ghost use Rattle.std.specs.List.{position_or_len};
ghost use Rattle.arrayvec.specs.ArrayVec.{array_vec_len};
ghost use Rattle.host_types.specs.SiteState.{IsUnchangedBehind};
ghost use Rattle.text_writer.specs.Place as spec;

use arrayvec::ArrayVec;
use memchr::memchr2;

/// Whether no byte of the line has been given, and whether a CR is held back.
#[derive(Clone, Copy, Debug, PartialEq, Eq)]
pub struct LinePlace {
    pub at_start: bool,
    pub held: bool,
}

/// The place before a body's first byte.
pub const BODY_START: LinePlace = LinePlace {
    at_start: true,
    held: false,
};

/// The most bytes of the text that one byte of a body gives.
pub const MOST: usize = 2;

/// Bytes of the text that are ready: at most two for a byte of the body, and six for its end.
pub type ReadyText = ArrayVec<u8, 8>;

/// Puts a byte at a place of the buffer, and says which place is next.
fn put(byte: u8, out: &mut [u8], at: usize) -> usize
    requires { at < length out.old }
    ensures next { result ≡ at + 1 }
    ensures bytes { take result out.new ≡ take at out.old ++ byte ∷ [] }
    ensures behind { IsUnchangedBehind result out.old out.new }
{
    out[at] = byte;
    at + 1
}

/// Gives what one byte gives, from the place `at` on, and says how far: a held CR, a doubled period, a whole line end.
pub fn give_byte(place: LinePlace, byte: u8, out: &mut [u8], at: usize) -> usize
    requires { at + 2 ≤ length out.old }
    ensures onward { at ≤ result }
    ensures few { result ≤ at + 2 }
    ensures bytes { take result out.new ≡ take at out.old ++ spec.emitted place byte }
    ensures behind { IsUnchangedBehind result out.old out.new }
{
    match byte {
        b'\n' => {
            let end = put(b'\r', out, at);
            put(b'\n', out, end)
        }
        b'\r' if place.held => put(b'\r', out, at),
        b'\r' => at,
        _ => {
            let mut end = at;
            if place.held {
                end = put(b'\r', out, end);
            } else if place.at_start && byte == b'.' {
                end = put(b'.', out, end);
            }
            put(byte, out, end)
        }
    }
}

/// What one byte gives.
pub fn emitted(place: LinePlace, byte: u8) -> ReadyText
    ensures bytes { result.items ≡ spec.emitted place byte }
    ensures few { array_vec_len result ≤ 2 }
{
    let mut bytes = [0; MOST];
    let count = give_byte(place, byte, &mut bytes, 0);
    let mut ready = ReadyText::new();
    if ready.try_extend_from_slice(&bytes[..count]).is_err() {
        unreachable!();
    }
    ready
}

/// Where the line is after a byte.
pub fn after(place: LinePlace, byte: u8) -> LinePlace
    ensures { result ≡ spec.after place byte }
{
    match byte {
        b'\n' => LinePlace {
            at_start: true,
            held: false,
        },
        b'\r' => LinePlace {
            at_start: !place.held && place.at_start,
            held: true,
        },
        _ => LinePlace {
            at_start: false,
            held: false,
        },
    }
}

/// How many bytes stand before the first CR or LF.
#[tactic(auto, using(crate::proofs::Runs::place_of_first, crate::proofs::Runs::place_of_none))]
fn plain_length(bytes: &[u8]) -> usize
    ensures place { result ≡ position_or_len spec.may_end_line bytes.now }
    ensures within { result ≤ length bytes.now }
{
    match memchr2(b'\n', b'\r', bytes) {
        Some(at) => at,
        None => bytes.len(),
    }
}

/// How many of the next bytes are sent as they are.
pub fn run_length(place: LinePlace, bytes: &[u8]) -> usize
    ensures run { result ≡ spec.run_length place bytes.now }
    ensures within { result ≤ length bytes.now }
{
    if place.held || (place.at_start && bytes.first() == Some(&b'.')) {
        0
    } else {
        plain_length(bytes)
    }
}

/// Where the line is behind so many bytes that are sent as they are.
pub fn behind_run(place: LinePlace, run: usize) -> LinePlace
    ensures { result ≡ spec.behind_run place run }
{
    if run == 0 {
        place
    } else {
        LinePlace {
            at_start: false,
            held: false,
        }
    }
}

/// What the end of the body gives.
pub fn closing(place: LinePlace) -> ReadyText
    ensures bytes { result.items ≡ spec.closing place }
    ensures few { array_vec_len result ≤ 6 }
{
    let mut ready = ArrayVec::new();
    if place.held {
        ready.push(b'\r');
    }
    if place.held || !place.at_start {
        ready.push(b'\r');
        ready.push(b'\n');
    }
    ready.push(b'.');
    ready.push(b'\r');
    ready.push(b'\n');
    ready
}
