// What comes of what is found in a folder.
ghost use Rattle.std.specs.Prelude.{◌≡◌, IfOk, map};
ghost use Rattle.std.specs.Str.{is_utf8};
ghost use Rattle.common_types.specs.Names.{name_of, is_field};
ghost use Rattle.folder_import.specs.Found as found_spec;
ghost use Rattle.folder_import.specs.Parts as spec;
ghost use Rattle.folder_import.specs.Selectors as selectors;

use crate::found::{Content, Folder, Found, Part, Reason};
use crate::{ImportFault, child, document};
use common_types::{Refused, is_number};
use host_types::{Bytes, Selector, Title};
use std::alloc::{AllocError, Global};

/// The most digits of the number of a page.
const MOST_DIGITS: usize = 20;

/// Whether bytes are UTF-8.
#[tactic(auto, using(crate::proofs::Texts::is_text, crate::proofs::Texts::is_none))]
pub fn is_utf8(bytes: &[u8]) -> bool
    ensures { result ≡ is_utf8 bytes.now }
{
    str::from_utf8(bytes).is_ok()
}

/// Whether a further page of a menu may stand under a name.
fn is_page_name(name: &[u8]) -> bool
    ensures { result ≡ found_spec.is_page_name name.now }
{
    name.starts_with(b"page-") && is_number(MOST_DIGITS, &name[5..])
}

/// The title that is said of a selector, and that it is; or else the name.
fn title_in<'a>(
    titles: &'a [(Selector, Bytes)],
    selector: &Selector,
    name: &'a [u8],
) -> (&'a [u8], bool)
    ensures { (result.0.now, result.1) ≡ spec.title_in titles.now selector.now name.now }
{
    for one in titles {
        if one.0.as_bytes() == selector.as_bytes() {
            return (one.1.as_slice(), true);
        }
    }
    (name, false)
}

/// What comes of something with a title.
fn with_content(
    alloc: Global,
    selector: Selector,
    title: Title,
    is_titled: bool,
    content: &Content,
) -> Result<Part, AllocError>
    ensures { IfOk result (λ part. part ≡ spec.with_content selector title is_titled content.now) }
{
    match content {
        Content::Folder => Ok(Part::Below(Folder {
            at: selector,
            title,
            is_titled,
        })),
        Content::File(sort, bytes) => {
            let item = document(alloc, title, *sort, bytes.clone()?)?;
            if item.is_long(&selector) {
                return Ok(Part::LeftOut(Reason::Refused(Refused::TooLong)));
            }
            Ok(Part::Document(selector, item))
        }
        Content::Other => Ok(Part::LeftOut(Reason::Kind)),
        Content::Unread => Ok(Part::LeftOut(Reason::Unread)),
    }
}

/// What comes of something that has a place.
fn placed(
    alloc: Global,
    titles: &[(Selector, Bytes)],
    found: &Found,
    selector: Selector,
) -> Result<Part, AllocError>
    ensures { IfOk result (λ part. part ≡ spec.placed titles.now found.now (Ok selector)) }
{
    if selector.is_reserved() {
        return Ok(Part::LeftOut(Reason::Refused(Refused::Reserved)));
    }
    let (title, is_titled) = title_in(titles, &selector, found.name.as_slice());
    match Title::new(title) {
        Ok(title) => with_content(alloc, selector, title, is_titled, &found.content),
        Err(refused) => Ok(Part::LeftOut(Reason::Refused(refused))),
    }
}

/// What comes of something that has the name of a gophermap.
fn map_part(content: &Content) -> Part
    ensures { result ≡ spec.map_part content.now }
{
    match content {
        Content::File(..) => Part::Passed,
        Content::Unread => Part::LeftOut(Reason::Unread),
        Content::Folder | Content::Other => Part::LeftOut(Reason::Kind),
    }
}

/// What comes of what is found in a folder.
pub fn part_of(
    alloc: Global,
    titles: &[(Selector, Bytes)],
    folder: &Selector,
    found: &Found,
) -> Result<Part, AllocError>
    ensures { IfOk result (λ part. part ≡ spec.part_of titles.now folder.now found.now) }
{
    let name = found.name.as_slice();
    if found.is_hidden() {
        return Ok(Part::Passed);
    }
    if found.is_map() {
        return Ok(map_part(&found.content));
    }
    if is_page_name(name) {
        return Ok(Part::LeftOut(Reason::Refused(Refused::Reserved)));
    }
    if !is_utf8(name) {
        return Ok(Part::LeftOut(Reason::Unsaid));
    }
    match child(alloc, folder, name) {
        Ok(selector) => placed(alloc, titles, found, selector),
        Err(ImportFault::Name(refused)) => Ok(Part::LeftOut(Reason::Refused(refused))),
        Err(_) => Err(AllocError),
    }
}
