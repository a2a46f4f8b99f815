// The Gopher+ part of a request line, and the data flag behind it.
ghost use Rattle.std.specs.Prelude.{◌≡◌};
ghost use Rattle.std.specs.Option.{option_copied};
ghost use Rattle.request_reader.specs.RequestLine as spec;
ghost use Rattle.request_reader.specs.RequestLine.{fields};
ghost use Rattle.request_reader.specs.Seen.{plus_result, requested_result};

use crate::line::first_of;
use crate::{Cause, Names, Plus, RequestedView};

/// Whether the field begins as a Gopher+ part does.
pub fn is_plus_field(field: &[u8]) -> bool
    ensures { result ≡ spec.is_plus_field field.now }
{
    match field {
        [b'+' | b'!' | b'$', ..] => true,
        _ => false,
    }
}

/// A language that may be none.
fn language_of(bytes: &[u8]) -> Option<&[u8]>
    ensures { option_copied result ≡ spec.language_of bytes.now }
{
    if bytes.is_empty() { None } else { Some(bytes) }
}

/// The view that is named behind a `+`, where one is.
fn requested_of(bytes: &[u8]) -> Result<Option<RequestedView<'_>>, Cause>
    ensures { requested_result result ≡ spec.requested_of bytes.now }
{
    if bytes.is_empty() {
        return Ok(None);
    }
    let space = first_of(b' ', bytes);
    if space == 0 {
        return Err(Cause::NotUnderstood);
    }
    let language = if space < bytes.len() {
        language_of(&bytes[space + 1..])
    } else {
        None
    };
    Ok(Some(RequestedView {
        name: &bytes[..space],
        language,
    }))
}

/// What the Gopher+ part asks for.
pub fn plus_of(field: &[u8]) -> Result<Plus<'_>, Cause>
    ensures { plus_result result ≡ spec.plus_of field.now }
{
    match field {
        [] => Err(Cause::NotUnderstood),
        [b'+', bytes @ ..] => Ok(Plus::Fetch(requested_of(bytes)?)),
        [b'!', bytes @ ..] => Ok(Plus::Attributes(Names::of(bytes))),
        [_, bytes @ ..] => Ok(Plus::EntryAttributes(Names::of(bytes))),
    }
}

fn is_fetch(plus: &[u8]) -> bool
    ensures { result ≡ spec.is_fetch plus.now }
{
    match plus {
        [b'+', ..] => true,
        _ => false,
    }
}

/// Whether data follow, by what is left behind the Gopher+ part.
#[tactic(auto, using(crate::proofs::LastBytes::no_data_flag, crate::proofs::LastBytes::data_flag_set, crate::proofs::LastBytes::other_flag))]
pub fn data_flag(plus: &[u8], left: Option<&[u8]>) -> Result<bool, Cause>
    ensures { result ≡ spec.data_flag plus.now (fields (option_copied left.entry)) }
{
    let Some(flag) = left else {
        return Ok(false);
    };
    if flag == b"0".as_slice() {
        return Ok(false);
    }
    if flag == b"1".as_slice() && is_fetch(plus) {
        return Ok(true);
    }
    Err(Cause::NotUnderstood)
}
