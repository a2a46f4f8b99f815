// Which change was refused, as the first line of a text tells it.
ghost use Rattle.std.specs.Prelude.{◌≡◌, ◌<◌, true, IfSome, length, position};
ghost use Rattle.common_types.specs.Digits.{is_number, number_of};
ghost use Rattle.change_flaws.specs.Told as spec;

use common_types::{Refused, is_number};

/// How many digits the number of a change has, at most.
const MOST_DIGITS: usize = 19;

/// Where the first LF stands.
fn first_lf(text: &[u8]) -> Option<usize>
    ensures place { result ≡ position spec.is_lf text.now }
    ensures within { IfSome result (λ at. at < length text.now) }
{
    text.iter().position(|byte| *byte == b'\n')
}

/// The first line of a text, without its LF.
fn first_line(text: &[u8]) -> &[u8]
    ensures { result.now ≡ spec.first_line text.now }
{
    match first_lf(text) {
        Some(at) => &text[..at],
        None => text,
    }
}

/// The refusal of a name.
fn refused_named(name: &[u8]) -> Option<Refused>
    ensures { result ≡ spec.refused_named name.now }
{
    if name == b"BadName".as_slice() {
        Some(Refused::BadName)
    } else if name == b"TooLong".as_slice() {
        Some(Refused::TooLong)
    } else if name == b"Reserved".as_slice() {
        Some(Refused::Reserved)
    } else if name == b"Missing".as_slice() {
        Some(Refused::Missing)
    } else if name == b"NotEmpty".as_slice() {
        Some(Refused::NotEmpty)
    } else if name == b"Root".as_slice() {
        Some(Refused::Root)
    } else if name == b"NotABoard".as_slice() {
        Some(Refused::NotABoard)
    } else if name == b"WrongAnswers".as_slice() {
        Some(Refused::WrongAnswers)
    } else if name == b"WrongWord".as_slice() {
        Some(Refused::WrongWord)
    } else if name == b"Spent".as_slice() {
        Some(Refused::Spent)
    } else {
        None
    }
}

/// The number that up to 19 decimal digits write.
fn number_of(digits: &[u8]) -> u64
    requires { is_number 19 digits.now ≡ true }
    ensures { result ≡ number_of digits.now }
{
    let mut number = 0;
    for digit in digits {
        number = 10 * number + u64::from(*digit - b'0');
    }
    number
}

fn number_in(digits: &[u8]) -> Option<u64>
    ensures { result ≡ spec.number_in digits.now }
{
    if is_number(MOST_DIGITS, digits) {
        Some(number_of(digits))
    } else {
        None
    }
}

/// The refusal whose name stands behind a colon and a space.
fn name_behind(text: &[u8]) -> Option<Refused>
    ensures { result ≡ spec.name_behind text.now }
{
    if text.starts_with(b": ") {
        refused_named(&text[2..])
    } else {
        None
    }
}

/// Where the first colon stands.
fn first_colon(text: &[u8]) -> Option<usize>
    ensures place { result ≡ position spec.is_colon text.now }
    ensures within { IfSome result (λ at. at < length text.now) }
{
    text.iter().position(|byte| *byte == b':')
}

/// A number and the name of a refusal, with a colon between them.
fn refusal_at(text: &[u8]) -> Option<(u64, Refused)>
    ensures { result ≡ spec.refusal_at (position spec.is_colon text.now) text.now }
{
    let at = first_colon(text)?;
    let number = number_in(&text[..at])?;
    let refused = name_behind(&text[at..])?;
    Some((number, refused))
}

/// The number of a change and why it was refused, where the first line of a text says them.
pub fn refusal_told(text: &[u8]) -> Option<(u64, Refused)>
    ensures { result ≡ spec.refusal_told text.now }
{
    let line = first_line(text);
    if line.starts_with(b"change ") {
        refusal_at(&line[7..])
    } else {
        None
    }
}
