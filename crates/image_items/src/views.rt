// The view of a document that is wanted.
ghost use Rattle.std.specs.Prelude.{◌≡◌, ◌≤◌, ◌==◌, ℕ, List, Ok, Err, IfOk, IfErr, length};
ghost use Rattle.std.specs.List.{position, position_or_len};
ghost use Rattle.std.specs.Option.{option_copied, option_map};
ghost use Rattle.request_reader.specs.RequestLine as line;
ghost use Rattle.request_reader.specs.Seen.{requested_of};
ghost use Rattle.site_replies.specs.Lengths.{AreLengths, HasLengths};
ghost use Rattle.site_replies.specs.Reply.{is_requested};
ghost use Rattle.image_items.specs.Documents as spec;

use crate::ItemFault;
use host_types::{CardBody, CardView};
use memchr::memchr;
use request_reader::RequestedView;

/// The place of the first such byte, or the length where there is none.
#[tactic(auto, using(crate::proofs::Places::place_of_first, crate::proofs::Places::place_of_none))]
fn first_of(byte: u8, bytes: &[u8]) -> usize
    ensures place { result ≡ position_or_len (λ b. b == byte) bytes.now }
    ensures within { result ≤ length bytes.now }
{
    match memchr(byte, bytes) {
        Some(at) => at,
        None => bytes.len(),
    }
}

/// A language that may be none.
fn language_of(bytes: &[u8]) -> Option<&[u8]>
    ensures { option_copied result ≡ line.language_of bytes.now }
{
    if bytes.is_empty() { None } else { Some(bytes) }
}

/// A view by its name, and behind the first space its language.
fn named(text: &[u8]) -> RequestedView<'_>
    ensures { requested_of result ≡ spec.named text.now }
{
    let space = first_of(b' ', text);
    let language = if space < text.len() {
        language_of(&text[space + 1..])
    } else {
        None
    };
    RequestedView {
        name: &text[..space],
        language,
    }
}

/// The view that is named; where none is, the first one.
fn wanted(view: Option<&[u8]>) -> Option<RequestedView<'_>>
    ensures { option_map requested_of result ≡ spec.wanted (option_copied view.entry) }
{
    match view {
        Some(text) => Some(named(text)),
        None => None,
    }
}

/// Whether a view is the one that is wanted.
fn is_wanted(wanted: Option<RequestedView<'_>>, view: &CardView) -> bool
    ensures { result ≡ is_requested (option_map requested_of wanted.entry) view.now }
{
    let Some(wanted) = wanted else {
        return true;
    };
    if view.name.as_slice() != wanted.name {
        return false;
    }
    match wanted.language {
        Some(language) => view.language.as_slice() == language,
        None => true,
    }
}

/// The place of the first view that is wanted.
fn first_wanted(wanted: Option<RequestedView<'_>>, views: &[CardView]) -> Option<usize>
    ensures { result ≡ position (is_requested (option_map requested_of wanted.entry)) views.now }
{
    views.iter().position(|view| is_wanted(wanted, view))
}

/// The place of the first view that is wanted among these, and how many bytes it has.
fn chosen_of(views: &[CardView], view: Option<&[u8]>) -> Result<(usize, u32), ItemFault>
    ensures place { IfOk result (λ r. spec.first_place (position (is_requested (spec.wanted (option_copied view.entry))) views.now) ≡ Ok r.0) }
    ensures size { (bytes : ℕ → List ℕ) → AreLengths views.now bytes → IfOk result (λ r. length (bytes r.0) ≡ r.1) }
    ensures fault { IfErr result (λ e. spec.first_place (position (is_requested (spec.wanted (option_copied view.entry))) views.now) ≡ Err e) }
{
    match first_wanted(wanted(view), views) {
        Some(place) => Ok((place, views[place].length)),
        None => Err(ItemFault::NoView),
    }
}

/// The place of the first view of a document that is wanted, and how many bytes it has.
pub fn chosen(body: &CardBody, view: Option<&[u8]>) -> Result<(usize, u32), ItemFault>
    ensures place { IfOk result (λ r. spec.place_of body.now (option_copied view.entry) ≡ Ok r.0) }
    ensures size { (bytes : ℕ → List ℕ) → HasLengths body.now bytes → IfOk result (λ r. length (bytes r.0) ≡ r.1) }
    ensures fault { IfErr result (λ e. spec.place_of body.now (option_copied view.entry) ≡ Err e) }
{
    match body {
        CardBody::Views(_, views) => chosen_of(views.as_slice(), view),
        _ => Err(ItemFault::NoDocument),
    }
}
