// Where in a reply a stream is, and what its next byte gives.
ghost use Rattle.std.specs.Prelude.{◌≡◌, ◌≤◌, ◌++◌, length};
ghost use Rattle.arrayvec.specs.ArrayVec.{array_vec_len};
ghost use Rattle.old_clients.specs.AdaptedReply.{info};
ghost use Rattle.old_clients.specs.Place as spec;
ghost use Rattle.old_clients.specs.declared.place.Place.TheVariants.{Head};

use crate::line::first_of;
use arrayvec::ArrayVec;

/// The head of a reply that ends with a line that is one period.
const HEAD_LINE: [u8; 5] = *b"+-1\r\n";

/// What stands in front of a line.
const INFO: &[u8] = b"+INFO: ";

/// Where in a reply the next byte is.
#[derive(Clone, Copy, Debug, PartialEq, Eq)]
pub enum Place {
    /// So many bytes of the head line have come.
    Head(usize),
    LineStart,
    /// Behind a period at the start of a line, which is held back.
    Period,
    /// Behind such a period and a CR, which are held back.
    PeriodCr,
    /// Inside a line of which a byte was given.
    Inside,
    /// All that comes is given as it is.
    Behind,
}

/// Bytes of a reply that are ready: at most ten for one byte, and nine for its end.
pub type Ready = ArrayVec<u8, 20>;

/// What stands in front of a line, and these bytes.
fn informed(bytes: &[u8]) -> Ready
    requires { length bytes.now ≤ 3 }
    ensures bytes { result.items ≡ info ++ bytes.now }
    ensures few { array_vec_len result ≤ 10 }
{
    let mut ready = ArrayVec::new();
    if ready.try_extend_from_slice(INFO).is_err() || ready.try_extend_from_slice(bytes).is_err() {
        unreachable!();
    }
    ready
}

/// These bytes alone.
fn plain(bytes: &[u8]) -> Ready
    requires { length bytes.now ≤ 3 }
    ensures bytes { result.items ≡ bytes.now }
    ensures few { array_vec_len result ≤ 10 }
{
    let mut ready = ArrayVec::new();
    if ready.try_extend_from_slice(bytes).is_err() {
        unreachable!();
    }
    ready
}

/// What one byte gives: itself, behind what was held back of its line and what stands in front of that.
pub fn emitted(place: Place, byte: u8) -> Ready
    ensures bytes { result.items ≡ spec.emitted place byte }
    ensures few { array_vec_len result ≤ 10 }
{
    match place {
        Place::LineStart if byte == b'.' => ArrayVec::new(),
        Place::LineStart => informed(&[byte]),
        Place::Period if byte == b'\r' => ArrayVec::new(),
        Place::Period => informed(&[b'.', byte]),
        Place::PeriodCr if byte == b'\n' => plain(b".\r\n"),
        Place::PeriodCr => informed(&[b'.', b'\r', byte]),
        Place::Head(_) | Place::Inside | Place::Behind => plain(&[byte]),
    }
}

fn after_byte(byte: u8) -> Place
    ensures { result ≡ spec.after_byte byte }
{
    if byte == b'\n' {
        Place::LineStart
    } else {
        Place::Inside
    }
}

/// The place behind a byte of the head line, or behind one that is another.
fn after_head(came: usize, byte: u8) -> Place
    ensures { result ≡ spec.after (Head came) byte }
{
    if came >= HEAD_LINE.len() || byte != HEAD_LINE[came] {
        return Place::Behind;
    }
    if came == HEAD_LINE.len() - 1 {
        Place::LineStart
    } else {
        Place::Head(came + 1)
    }
}

/// The place after a byte.
pub fn after(place: Place, byte: u8) -> Place
    ensures { result ≡ spec.after place byte }
{
    match place {
        Place::Head(came) => after_head(came, byte),
        Place::LineStart if byte == b'.' => Place::Period,
        Place::Period if byte == b'\r' => Place::PeriodCr,
        Place::PeriodCr if byte == b'\n' => Place::Behind,
        Place::LineStart | Place::Period | Place::PeriodCr | Place::Inside => after_byte(byte),
        Place::Behind => Place::Behind,
    }
}

/// How many of the next bytes are sent as they are and lead to no other place.
pub fn run_length(place: Place, bytes: &[u8]) -> usize
    ensures run { result ≡ spec.run_length place bytes.now }
    ensures within { result ≤ length bytes.now }
{
    match place {
        Place::Head(_) | Place::LineStart | Place::Period | Place::PeriodCr => 0,
        Place::Inside => first_of(b'\n', bytes),
        Place::Behind => bytes.len(),
    }
}

/// What the end of the reply gives: what was held back of a line.
pub fn closing(place: Place) -> Ready
    ensures bytes { result.items ≡ spec.closing place }
    ensures few { array_vec_len result ≤ 10 }
{
    match place {
        Place::Period => informed(b"."),
        Place::PeriodCr => informed(b".\r"),
        _ => ArrayVec::new(),
    }
}
