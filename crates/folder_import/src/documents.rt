// What sort of document a file is.
ghost use Rattle.std.specs.Prelude.{◌≡◌, true, false, IfOk};
ghost use Rattle.folder_import.specs.Formats.{IsText, Sorts};
ghost use Rattle.folder_import.specs.Formats as spec;

use host_types::{Body, Bytes, Item, Kind, Stamp, Title, View, ViewList};
use std::alloc::{AllocError, Global};

/// The sorts of files that are told apart.
#[derive(Clone, Copy, Debug, PartialEq, Eq)]
pub enum Sort {
    Text,
    Gif,
    Png,
    Jpeg,
    Html,
    BinHex,
    Zip,
    Uuencoded,
    /// Any other bytes.
    Binary,
}

impl Sort {
    /// The letter of its documents.
    pub fn kind(self) -> Kind
        ensures { result ≡ spec.kind_of self }
    {
        match self {
            Sort::Text => Kind::Text,
            Sort::Gif => Kind::Gif,
            Sort::Png | Sort::Jpeg => Kind::Image,
            Sort::Html => Kind::Html,
            Sort::BinHex => Kind::BinHex,
            Sort::Zip => Kind::DosArchive,
            Sort::Uuencoded => Kind::Uuencoded,
            Sort::Binary => Kind::Binary,
        }
    }

    /// The content type of its documents, as a view is named.
    pub fn content_type(self) -> &'static [u8]
        ensures { result.now ≡ spec.content_type self }
    {
        match self {
            Sort::Text => b"Text/plain",
            Sort::Gif => b"Image/gif",
            Sort::Png => b"Image/png",
            Sort::Jpeg => b"Image/jpeg",
            Sort::Html => b"Text/html",
            Sort::BinHex => b"Application/mac-binhex40",
            Sort::Zip => b"Application/zip",
            Sort::Uuencoded => b"Text/x-uuencode",
            Sort::Binary => b"Application/octet-stream",
        }
    }
}

/// What stands behind the last period of a name, or nothing where there is none.
#[tactic(auto, using(crate::proofs::Parts::step, crate::proofs::Parts::whole))]
fn ending(name: &[u8]) -> &[u8]
    ensures { result.now ≡ spec.ending name.now }
{
    let mut ending: &[u8] = &[];
    let mut left = name;
    while let [first, others @ ..] = left {
        if *first == b'.' {
            ending = others;
        }
        left = others;
    }
    ending
}

/// The sort that an ending tells, in either case.
fn known(ending: &[u8]) -> Option<Sort>
    ensures { result ≡ spec.known_in spec.endings ending.now }
{
    if ending.eq_ignore_ascii_case(b"txt") {
        Some(Sort::Text)
    } else if ending.eq_ignore_ascii_case(b"gif") {
        Some(Sort::Gif)
    } else if ending.eq_ignore_ascii_case(b"png") {
        Some(Sort::Png)
    } else if ending.eq_ignore_ascii_case(b"jpg") || ending.eq_ignore_ascii_case(b"jpeg") {
        Some(Sort::Jpeg)
    } else if ending.eq_ignore_ascii_case(b"htm") || ending.eq_ignore_ascii_case(b"html") {
        Some(Sort::Html)
    } else if ending.eq_ignore_ascii_case(b"hqx") {
        Some(Sort::BinHex)
    } else if ending.eq_ignore_ascii_case(b"zip") {
        Some(Sort::Zip)
    } else if ending.eq_ignore_ascii_case(b"uu") {
        Some(Sort::Uuencoded)
    } else {
        None
    }
}

/// Whether bytes are a text: UTF-8 without a NUL.
fn is_text(bytes: &[u8]) -> bool
    ensures text { result ≡ true → IsText bytes.now }
    ensures other { result ≡ false → ¬ (IsText bytes.now) }
{
    match str::from_utf8(bytes) {
        Ok(_) => !bytes.contains(&0),
        Err(_) => false,
    }
}

/// What sort of document a file of this name and these bytes is.
pub fn sort_of(name: &[u8], bytes: &[u8]) -> Sort
    ensures { Sorts name.now bytes.now result }
{
    match known(ending(name)) {
        Some(sort) => sort,
        None if is_text(bytes) => Sort::Text,
        None => Sort::Binary,
    }
}

/// The document of a file, as one view of all its bytes.
pub fn document(alloc: Global, title: Title, sort: Sort, bytes: Bytes) -> Result<Item, AllocError>
    ensures { IfOk result (λ item. item ≡ spec.document title sort bytes) }
{
    let view = View {
        name: Bytes::from_slice(alloc, sort.content_type())?,
        language: Bytes::new(alloc),
        bytes,
    };
    let mut views = ViewList::new(alloc);
    views.push(view)?;
    Ok(Item {
        title,
        stamp: Stamp::start(),
        until: None,
        summary: Bytes::new(alloc),
        body: Body::Views(sort.kind(), views),
    })
}
