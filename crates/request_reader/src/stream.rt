// What a whole stream says.
ghost use Rattle.std.specs.Prelude.{◌≡◌, Ok};
ghost use Rattle.std.specs.Option.{option_copied};
ghost use Rattle.request_reader.specs.Lines.{first_line};
ghost use Rattle.request_reader.specs.DataLines as spec;
ghost use Rattle.request_reader.specs.DataLines.{is_too_much};
ghost use Rattle.request_reader.specs.Scanned.{IsScanned, IsScannedTo, IsScannedIn, data_to_period, of_extent, of_head};
ghost use Rattle.request_reader.specs.Verdict.{verdict, pending, data_verdict, head_verdict};
ghost use Rattle.request_reader.specs.Seen.{parsed_of, seen};
ghost use Rattle.request_reader.specs.declared.data_head.Extent.TheVariants.{ToPeriod};

use crate::data_head::{Extent, MOST_DATA, extent_of};
use crate::fields::parsed_line;
use crate::line::{Cut, first_line};
use crate::parsed::ParsedRequest;
use crate::period::scan;
use crate::{Cause, Data, StreamVerdict};

/// What is not whole yet.
fn pending<'a>(ended: bool) -> StreamVerdict<'a>
    ensures { seen result ≡ pending ended }
{
    if ended {
        StreamVerdict::Early
    } else {
        StreamVerdict::More
    }
}

/// All that may follow the head line of data.
#[tactic(auto, using(crate::proofs::GrowingStreams::room_whole), unfolding(crate::specs::DataLines::room, crate::specs::DataHead::most_data))]
fn room(stream: &[u8]) -> &[u8]
    ensures { result.now ≡ spec.room stream.now }
{
    if stream.len() <= MOST_DATA {
        stream
    } else {
        &stream[..MOST_DATA]
    }
}

#[tactic(auto, unfolding(crate::specs::DataLines::is_too_much, crate::specs::DataHead::most_data))]
fn is_too_much(stream: &[u8]) -> bool
    ensures { result ≡ is_too_much stream.now }
{
    stream.len() > MOST_DATA
}

/// What data say that end with a line that is one period.
fn period_answer<'a>(
    parsed: ParsedRequest<'a>,
    stream: &'a [u8],
    ended: bool,
    scanned: usize,
) -> StreamVerdict<'a>
    requires { IsScannedTo (spec.room stream.now) scanned }
    ensures { seen result ≡ data_verdict (parsed_of parsed.entry) ToPeriod stream.now ended }
{
    let bytes = room(stream);
    let period = scan(bytes, scanned);
    if period.is_found {
        return StreamVerdict::Whole(parsed.with_data(Data::stuffed(&bytes[..period.at])));
    }
    if is_too_much(stream) {
        StreamVerdict::Bad(Cause::TooLong)
    } else {
        pending(ended)
    }
}

/// What the bytes behind the head line of data say.
fn data_answer<'a>(
    parsed: ParsedRequest<'a>,
    extent: Extent,
    stream: &'a [u8],
    ended: bool,
    scanned: usize,
) -> StreamVerdict<'a>
    requires { IsScannedIn (of_extent (Ok extent) stream.now) scanned }
    ensures { seen result ≡ data_verdict (parsed_of parsed.entry) extent stream.now ended }
{
    match extent {
        Extent::ToPeriod => period_answer(parsed, stream, ended, scanned),
        Extent::ToEnd => {
            if is_too_much(stream) {
                StreamVerdict::Bad(Cause::TooLong)
            } else if ended {
                StreamVerdict::Whole(parsed.with_data(Data::plain(stream)))
            } else {
                StreamVerdict::More
            }
        }
        Extent::Count(count) => {
            if count <= stream.len() {
                StreamVerdict::Whole(parsed.with_data(Data::plain(&stream[..count])))
            } else {
                pending(ended)
            }
        }
    }
}

/// What the bytes behind a request line that data follow say.
fn head_answer<'a>(
    parsed: ParsedRequest<'a>,
    stream: &'a [u8],
    ended: bool,
    scanned: usize,
) -> StreamVerdict<'a>
    requires { IsScannedIn (of_head (first_line stream.now)) scanned }
    ensures { seen result ≡ head_verdict (parsed_of parsed.entry) (first_line stream.now) ended }
{
    match first_line(stream) {
        Cut::NotYet => pending(ended),
        Cut::TooLate => StreamVerdict::Bad(Cause::TooLong),
        Cut::Line(line, rest) => match extent_of(line) {
            Ok(extent) => data_answer(parsed, extent, rest, ended, scanned),
            Err(cause) => StreamVerdict::Bad(cause),
        },
    }
}

/// What a stream says, with a mark whether the input ended there, where so many bytes of its data
/// were scanned already.
#[tactic(auto, using(crate::proofs::CleanLines::clean_line), unfolding(crate::specs::Verdict::verdict, crate::specs::Scanned::data_to_period))]
pub fn answer_from(stream: &[u8], ended: bool, scanned: usize) -> StreamVerdict<'_>
    requires { IsScanned stream.now scanned }
    ensures { seen result ≡ verdict stream.now ended }
{
    match first_line(stream) {
        Cut::NotYet => pending(ended),
        Cut::TooLate => StreamVerdict::Bad(Cause::TooLong),
        Cut::Line(line, rest) => match parsed_line(line) {
            Ok(parsed) if parsed.has_data => head_answer(parsed, rest, ended, scanned),
            Ok(parsed) => StreamVerdict::Whole(parsed.without_data()),
            Err(cause) => StreamVerdict::Bad(cause),
        },
    }
}

/// What a stream says, with a mark whether the input ended there.
#[tactic(auto, using(crate::proofs::Periods::not_scanned))]
pub fn answer_to(stream: &[u8], ended: bool) -> StreamVerdict<'_>
    ensures { seen result ≡ verdict stream.now ended }
{
    answer_from(stream, ended, 0)
}

/// The data that a line with one period is to end, where their head line has come.
#[tactic(auto, using(crate::proofs::CleanLines::clean_line), unfolding(crate::specs::Scanned::data_to_period))]
fn data_to_period(stream: &[u8]) -> Option<&[u8]>
    ensures { option_copied result ≡ data_to_period stream.now }
{
    let Cut::Line(line, rest) = first_line(stream) else {
        return None;
    };
    let parsed = parsed_line(line).ok()?;
    if !parsed.has_data {
        return None;
    }
    let Cut::Line(head, bytes) = first_line(rest) else {
        return None;
    };
    match extent_of(head) {
        Ok(Extent::ToPeriod) => Some(room(bytes)),
        _ => None,
    }
}

/// How many bytes of the stream's data are scanned once each is.
pub fn scan_data(stream: &[u8], scanned: usize) -> usize
    requires { IsScanned stream.now scanned }
    ensures { IsScanned stream.now result }
{
    match data_to_period(stream) {
        Some(bytes) => scan(bytes, scanned).at,
        None => scanned,
    }
}
