// Documents as they are sent.
ghost use Rattle.std.specs.Prelude.{◌≡◌, IfOk};
ghost use Rattle.std.specs.List.{position};
ghost use Rattle.std.specs.Option.{option_map};
ghost use Rattle.request_reader.specs.Seen.{plus_of, requested_of};
ghost use Rattle.site_replies.specs.Reply as spec;

use host_types::{Bytes, CardView, Kind};
use plus_blocks::head;
use request_reader::{Plus, RequestedView};
use std::alloc::{AllocError, Global};
use text_writer::text;

/// Whether such a document is sent as lines and a period.
pub fn is_sent_as_text(kind: Kind) -> bool
    ensures { result ≡ spec.is_sent_as_text kind }
{
    matches!(kind, Kind::Text | Kind::BinHex | Kind::Uuencoded)
}

/// A text or a menu, behind its head where Gopher+ asked for it.
pub fn as_text(alloc: Global, is_plus: bool, body: Bytes) -> Result<Bytes, AllocError>
    ensures { IfOk result (λ reply. reply ≡ spec.as_text is_plus body) }
{
    if !is_plus {
        return Ok(body);
    }
    let mut reply = Vec::new(alloc);
    reply.extend_from_slice(head(alloc, None)?.as_slice())?;
    reply.extend_from_slice(body.as_slice())?;
    Ok(Bytes::from(reply))
}

/// Bytes, behind their length where Gopher+ asked for them.
pub fn as_bytes(alloc: Global, is_plus: bool, body: Bytes) -> Result<Bytes, AllocError>
    ensures { IfOk result (λ reply. reply ≡ spec.as_bytes is_plus body) }
{
    if !is_plus {
        return Ok(body);
    }
    let mut reply = Vec::new(alloc);
    reply.extend_from_slice(head(alloc, Some(body.len()))?.as_slice())?;
    reply.extend_from_slice(body.as_slice())?;
    Ok(Bytes::from(reply))
}

/// A document as it is sent.
pub fn sent(alloc: Global, is_plus: bool, kind: Kind, bytes: Vec<u8>) -> Result<Bytes, AllocError>
    ensures { IfOk result (λ reply. reply ≡ spec.sent is_plus kind bytes.items) }
{
    if is_sent_as_text(kind) {
        as_text(alloc, is_plus, text(alloc, &bytes)?)
    } else {
        as_bytes(alloc, is_plus, Bytes::from(bytes))
    }
}

/// Whether a view is the one that is asked for.
fn is_requested(requested: Option<RequestedView<'_>>, view: &CardView) -> bool
    ensures { result ≡ spec.is_requested (option_map requested_of requested.entry) view.now }
{
    let Some(requested) = requested else {
        return true;
    };
    if view.name.as_slice() != requested.name {
        return false;
    }
    match requested.language {
        Some(language) => view.language.as_slice() == language,
        None => true,
    }
}

/// The place of the first view that is asked for.
pub fn requested_place(requested: Option<RequestedView<'_>>, views: &[CardView]) -> Option<usize>
    ensures { result ≡ position (spec.is_requested (option_map requested_of requested.entry)) views.now }
{
    views.iter().position(|view| is_requested(requested, view))
}

/// The view that a fetch names.
pub fn requested_by(plus: Option<Plus<'_>>) -> Option<RequestedView<'_>>
    ensures { option_map requested_of result ≡ spec.requested_of (option_map plus_of plus.entry) }
{
    match plus {
        Some(Plus::Fetch(requested)) => requested,
        _ => None,
    }
}
