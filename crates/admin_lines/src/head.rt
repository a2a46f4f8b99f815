// The head of a request: written, and read from the first bytes of a connection.
ghost use Rattle.std.specs.Prelude.{◌≡◌, ◌≤◌, ◌<◌, true, IfOk, IfSome, length, position, take};
ghost use Rattle.std.specs.String.{string_bytes};
ghost use Rattle.common_types.specs.Digits.{is_number, number_of};
ghost use Rattle.admin_lines.specs.Heads as spec;

use crate::RequestFault;
use std::alloc::{AllocError, Global};

/// How many bytes a file of changes has here, at most: 64 MiB.
pub const MOST_BYTES: usize = 67_108_864;

/// How long a head is, at most.
pub const LONGEST_HEAD: usize = 26;

/// How many digits a length has, at most.
const MOST_DIGITS: usize = 19;

/// What a request asks for: that the changes of a file are made.
#[derive(Clone, Copy, Debug, PartialEq, Eq)]
pub struct RequestHead {
    /// Where the file begins.
    pub start: usize,
    /// How many bytes it has.
    pub count: usize,
}

/// The head for a file of changes of so many bytes, with its LF.
pub fn head_line(alloc: Global, count: u64) -> Result<String, AllocError>
    ensures { IfOk result (λ t. string_bytes t ≡ spec.apply_head count) }
{
    format!(in alloc; "apply {count}\n")
}

/// The number that up to 19 decimal digits write.
fn number_of(digits: &[u8]) -> u64
    requires { is_number 19 digits.now ≡ true }
    ensures { result ≡ number_of digits.now }
{
    let mut number = 0;
    for digit in digits {
        number = 10 * number + u64::from(*digit - b'0');
    }
    number
}

/// Whether these bytes are a length: decimal digits, with no 0 in front of others.
fn is_length(digits: &[u8]) -> bool
    ensures { result ≡ spec.is_length digits.now }
{
    common_types::is_number(MOST_DIGITS, digits) && (digits.len() == 1 || !digits.starts_with(b"0"))
}

/// How many bytes these digits say.
fn length_in(digits: &[u8]) -> Result<usize, RequestFault>
    ensures { result ≡ spec.length_in digits.now }
{
    if !is_length(digits) {
        return Err(RequestFault::NoLength);
    }
    let number = number_of(digits);
    if number > MOST_BYTES as u64 {
        return Err(RequestFault::TooMuch);
    }
    Ok(number as usize)
}

/// How many bytes follow a line, which is given without its LF.
fn line_asks(line: &[u8]) -> Result<usize, RequestFault>
    ensures { result ≡ spec.line_asks line.now }
{
    if line.starts_with(b"apply ") {
        length_in(&line[6..])
    } else {
        Err(RequestFault::NoRequest)
    }
}

/// As many of the first bytes as the longest head has.
fn front(bytes: &[u8]) -> &[u8]
    ensures value { result.now ≡ take spec.longest_head bytes.now }
    ensures within { length result.now ≤ length bytes.now }
{
    if bytes.len() < LONGEST_HEAD {
        bytes
    } else {
        &bytes[..LONGEST_HEAD]
    }
}

/// Where the first LF stands.
fn first_lf(bytes: &[u8]) -> Option<usize>
    ensures place { result ≡ position spec.is_lf bytes.now }
    ensures within { IfSome result (λ at. at < length bytes.now) }
{
    bytes.iter().position(|byte| *byte == b'\n')
}

/// The head of a request of which these bytes have come, or nothing where it is not whole.
pub fn read_head(bytes: &[u8]) -> Result<Option<RequestHead>, RequestFault>
    ensures read { result ≡ spec.head_in bytes.now }
    ensures within { IfOk result (λ head. IfSome head (λ head. head.start ≤ length bytes.now)) }
    ensures few { IfOk result (λ head. IfSome head (λ head. head.count ≤ spec.most_bytes)) }
{
    match first_lf(front(bytes)) {
        Some(at) => match line_asks(&bytes[..at]) {
            Ok(count) => Ok(Some(RequestHead {
                start: at + 1,
                count,
            })),
            Err(fault) => Err(fault),
        },
        None if bytes.len() < LONGEST_HEAD => Ok(None),
        None => Err(RequestFault::LongLine),
    }
}
