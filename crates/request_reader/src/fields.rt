// The fields of a request line, parted by TABs.
ghost use Rattle.std.specs.Prelude.{◌≡◌, ◌∷◌, [], IsTrue, false, unwrap_or};
ghost use Rattle.std.specs.List.{slice_split, before_first, after_first, list_any};
ghost use Rattle.std.specs.Option.{option_copied};
ghost use Rattle.host_types.specs.Items.{is_selector};
ghost use Rattle.request_reader.specs.Lines.{is_lf};
ghost use Rattle.request_reader.specs.RequestLine as spec;
ghost use Rattle.request_reader.specs.RequestLine.{is_tab, fields, parsed_line};
ghost use Rattle.request_reader.specs.Seen.{parsed_result};

use crate::Cause;
use crate::line::{first_of, has_forbidden};
use crate::parsed::ParsedRequest;
use crate::plus::{data_flag, is_plus_field, plus_of};

/// The greatest length of a selector in bytes.
const LONGEST_SELECTOR: usize = 255;

/// The first field, and what follows its TAB, where there is one.
#[tactic(auto, using(crate::proofs::LastBytes::first_ends, crate::proofs::LastBytes::one_field))]
fn first_field(line: &[u8]) -> (&[u8], Option<&[u8]>)
    ensures first { result.0.now ≡ before_first is_tab line.now }
    ensures rest { unwrap_or (option_copied result.1) [] ≡ after_first is_tab line.now }
    ensures parts { slice_split is_tab line.now ≡ result.0.now ∷ fields (option_copied result.1) }
{
    let tab = first_of(b'\t', line);
    if tab < line.len() {
        (&line[..tab], Some(&line[tab + 1..]))
    } else {
        (line, None)
    }
}

/// What is left without the empty fields at its end.
#[tactic(auto, using(crate::proofs::LastBytes::tab_goes, crate::proofs::LastBytes::fields_stay))]
fn without_empty_end(line: &[u8]) -> Option<&[u8]>
    ensures { fields (option_copied result) ≡ spec.without_empty_end (slice_split is_tab line.now) }
{
    let mut left = line;
    while let [front @ .., b'\t'] = left {
        left = front;
    }
    if left.is_empty() { None } else { Some(left) }
}

/// What is left without an empty field at its front.
fn without_empty_front(left: Option<&[u8]>) -> Option<&[u8]>
    ensures { fields (option_copied result) ≡ spec.without_empty_front (fields (option_copied left.entry)) }
{
    let line = left?;
    let (first, rest) = first_field(line);
    if first.is_empty() { rest } else { left }
}

/// What is asked for by a Gopher+ part and what is left behind it.
fn with_plus<'a>(
    selector: &'a [u8],
    search: Option<&'a [u8]>,
    plus: &'a [u8],
    left: Option<&'a [u8]>,
) -> Result<ParsedRequest<'a>, Cause>
    requires valid { IsTrue (is_selector selector.now) }
    ensures { parsed_result result
        ≡ spec.with_plus selector.now (option_copied search.entry) plus.now
        (spec.data_flag plus.now (fields (option_copied left.entry))) }
{
    let has_data = data_flag(plus, left)?;
    let plus = plus_of(plus)?;
    Ok(ParsedRequest {
        selector,
        search,
        plus: Some(plus),
        has_data,
    })
}

/// What is asked for by search words and what is left behind them.
fn behind_words<'a>(
    selector: &'a [u8],
    words: &'a [u8],
    left: Option<&'a [u8]>,
) -> Result<ParsedRequest<'a>, Cause>
    requires valid { IsTrue (is_selector selector.now) }
    ensures { parsed_result result ≡ spec.behind_words selector.now words.now (fields (option_copied left.entry)) }
{
    let Some(line) = left else {
        return Ok(ParsedRequest {
            selector,
            search: Some(words),
            plus: None,
            has_data: false,
        });
    };
    let (field, others) = first_field(line);
    if !is_plus_field(field) {
        return Err(Cause::NotUnderstood);
    }
    with_plus(selector, Some(words), field, others)
}

/// What is asked for by a selector and what is left behind it.
fn behind_selector<'a>(
    selector: &'a [u8],
    left: Option<&'a [u8]>,
) -> Result<ParsedRequest<'a>, Cause>
    requires valid { IsTrue (is_selector selector.now) }
    ensures { parsed_result result ≡ spec.behind_selector selector.now (fields (option_copied left.entry)) }
{
    let Some(line) = left else {
        return Ok(ParsedRequest {
            selector,
            search: None,
            plus: None,
            has_data: false,
        });
    };
    let (field, others) = first_field(line);
    if is_plus_field(field) {
        with_plus(selector, None, field, others)
    } else {
        behind_words(selector, field, others)
    }
}

/// What a request line says, without its LF and the CR before it.
#[tactic(auto, using(crate::proofs::CleanLines::first_valid), unfolding(crate::specs::RequestLine::parsed_line))]
pub fn parsed_line(line: &[u8]) -> Result<ParsedRequest<'_>, Cause>
    requires line { list_any is_lf line.now ≡ false }
    ensures { parsed_result result ≡ parsed_line line.now }
{
    if has_forbidden(line) {
        return Err(Cause::NotUnderstood);
    }
    let (selector, rest) = first_field(line);
    if selector.len() > LONGEST_SELECTOR {
        return Err(Cause::TooLong);
    }
    let left = without_empty_end(rest.unwrap_or(&[]));
    behind_selector(selector, without_empty_front(left))
}
