// The head line of data.
ghost use Rattle.std.specs.Prelude.{◌≡◌};
ghost use Rattle.request_reader.specs.DataHead.{counted, extent_of};

use crate::Cause;
use common_types::{is_number, number_of};

/// The most bytes that may follow the head line.
pub const MOST_DATA: usize = 32_768;

/// The most digits of a count of data bytes.
const MOST_DIGITS: usize = 5;

/// How far data go.
#[derive(Clone, Copy, Debug, PartialEq, Eq)]
pub enum Extent {
    /// To a line that is one period.
    ToPeriod,
    /// To the end of the input.
    ToEnd,
    /// So many bytes, at most `MOST_DATA`.
    Count(usize),
}

#[tactic(auto, unfolding(crate::specs::DataHead::counted, crate::specs::DataHead::most_data))]
fn counted(digits: &[u8]) -> Result<Extent, Cause>
    ensures { result ≡ counted digits.now }
{
    if !is_number(MOST_DIGITS, digits) {
        return Err(Cause::NotUnderstood);
    }
    let count = number_of(digits);
    if count > MOST_DATA {
        return Err(Cause::TooLong);
    }
    Ok(Extent::Count(count))
}

/// How far the data go behind this head line.
#[tactic(auto, unfolding(crate::specs::DataHead::extent_of))]
pub fn extent_of(line: &[u8]) -> Result<Extent, Cause>
    ensures { result ≡ extent_of line.now }
{
    match line {
        b"+-1" => Ok(Extent::ToPeriod),
        b"+-2" => Ok(Extent::ToEnd),
        [b'+', digits @ ..] => counted(digits),
        _ => Err(Cause::NotUnderstood),
    }
}
