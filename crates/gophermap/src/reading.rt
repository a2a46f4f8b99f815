// What a line of a gophermap says.
ghost use Rattle.std.specs.Prelude.{◌≡◌};
ghost use Rattle.std.specs.List.{slice_split};
ghost use Rattle.gophermap.specs.Line as spec;
ghost use Rattle.gophermap.specs.Seen.{seen};

use crate::fields::first_field;
use crate::names::{place_of, selector_of, title_of, url_of};
use crate::{Line, LineFault};
use host_types::{LinkKind, without_cr};

fn kind_of(letter: u8) -> Result<LinkKind, LineFault>
    ensures { result ≡ spec.kind_of letter }
{
    match letter {
        b'0' => Ok(LinkKind::Text),
        b'1' => Ok(LinkKind::Menu),
        b'2' => Ok(LinkKind::PhoneBook),
        b'4' => Ok(LinkKind::BinHex),
        b'5' => Ok(LinkKind::DosArchive),
        b'6' => Ok(LinkKind::Uuencoded),
        b'7' => Ok(LinkKind::Search),
        b'8' => Ok(LinkKind::Telnet),
        b'9' => Ok(LinkKind::Binary),
        b'+' => Ok(LinkKind::Mirror),
        b'T' => Ok(LinkKind::Tn3270),
        b'g' => Ok(LinkKind::Gif),
        b'I' => Ok(LinkKind::Image),
        b'h' => Ok(LinkKind::Html),
        _ => Err(LineFault::Kind),
    }
}

fn info(title: &[u8]) -> Result<Line<'_>, LineFault>
    ensures { seen result ≡ spec.info title.now }
{
    Ok(Line::Info(title_of(title)?))
}

fn titled(title: &[u8]) -> Result<Line<'_>, LineFault>
    ensures { seen result ≡ spec.titled title.now }
{
    Ok(Line::Title(title_of(title)?))
}

fn link<'a>(title: &'a [u8], url: &'a [u8]) -> Result<Line<'a>, LineFault>
    ensures { seen result ≡ spec.link title.now url.now }
{
    Ok(Line::Link {
        title: title_of(title)?,
        url: url_of(url)?,
    })
}

/// The selector, which is the title where it is left out.
fn selector_or<'a>(title: &'a [u8], selector: &'a [u8]) -> &'a [u8]
    ensures { result.now ≡ spec.selector_or title.now selector.now }
{
    if selector.is_empty() { title } else { selector }
}

fn entry<'a>(
    kind: LinkKind,
    title: &'a [u8],
    selector: &'a [u8],
    host: &'a [u8],
    port: &'a [u8],
) -> Result<Line<'a>, LineFault>
    ensures { seen result ≡ spec.entry kind title.now selector.now host.now port.now }
{
    Ok(Line::Entry {
        kind,
        title: title_of(title)?,
        selector: selector_of(selector_or(title, selector))?,
        place: place_of(host, port)?,
    })
}

/// An item by its type and its fields.
fn typed<'a>(
    letter: u8,
    title: &'a [u8],
    selector: &'a [u8],
    host: &'a [u8],
    port: &'a [u8],
) -> Result<Line<'a>, LineFault>
    ensures { seen result ≡ spec.typed letter title.now selector.now host.now port.now }
{
    if letter == b'i' {
        return info(title);
    }
    if letter == b'h' && selector.starts_with(b"URL:") {
        return link(title, &selector[4..]);
    }
    entry(kind_of(letter)?, title, selector, host, port)
}

/// An item whose type is the first byte of its first field.
fn item<'a>(
    front: &'a [u8],
    selector: &'a [u8],
    host: &'a [u8],
    port: &'a [u8],
) -> Result<Line<'a>, LineFault>
    ensures { seen result ≡ spec.item front.now selector.now host.now port.now }
{
    match front {
        [] => Err(LineFault::Kind),
        [letter, title @ ..] => typed(*letter, title, selector, host, port),
    }
}

/// Whether one of the servers takes the line for an order.
fn is_order(text: &[u8]) -> bool
    ensures { result ≡ spec.is_order text.now }
{
    matches!(text, [b'-' | b':' | b'~' | b'%' | b'=' | b'*' | b'.', ..])
}

/// A line without a TAB.
fn alone(text: &[u8]) -> Result<Line<'_>, LineFault>
    ensures { seen result ≡ spec.alone text.now }
{
    if text == b"*".as_slice() {
        return Ok(Line::Listing);
    }
    if text == b".".as_slice() {
        return Ok(Line::End);
    }
    if is_order(text) {
        return Err(LineFault::Order);
    }
    info(text)
}

/// A line by its fields: at most four.
#[tactic(auto, using(crate::proofs::Parts::too_many))]
fn by_fields(text: &[u8]) -> Result<Line<'_>, LineFault>
    ensures { seen result ≡ spec.of_fields (slice_split spec.is_tab text.now) }
{
    let (front, rest) = first_field(text);
    let Some(rest) = rest else {
        return alone(front);
    };
    let (selector, rest) = first_field(rest);
    let Some(rest) = rest else {
        return item(front, selector, &[], &[]);
    };
    let (host, rest) = first_field(rest);
    let Some(rest) = rest else {
        return item(front, selector, host, &[]);
    };
    let (port, rest) = first_field(rest);
    if rest.is_some() {
        return Err(LineFault::Fields);
    }
    item(front, selector, host, port)
}

/// What a line without its LF says; one CR at its end is dropped. The answer borrows from the line, and takes no memory.
pub fn read_line(line: &[u8]) -> Result<Line<'_>, LineFault>
    ensures { seen result ≡ spec.line_of line.now }
{
    let text = without_cr(line);
    match text {
        [] => Ok(Line::Info(text)),
        [b'#', ..] => Ok(Line::Comment),
        [b'!', title @ ..] => titled(title),
        _ => by_fields(text),
    }
}
