// Fields of a line, and what they represent.
use crate::fault::RowFault;
use bstr::ByteVec;
use host_types::{Bytes, Kind, LinkKind, Selector, Title};
use std::alloc::Global;
use std::str::FromStr;

/// A number in decimal digits.
pub fn number<N: FromStr>(field: &str) -> Result<N, RowFault>
where
    N::Err: Drop,
{
    match field.parse::<N>() {
        Ok(number) => Ok(number),
        Err(_) => Err(RowFault::Line),
    }
}

/// How often a field's text stands: `*N*TEXT` is N times TEXT, and all else stands once.
fn repeated(field: &str) -> Result<(usize, &str), RowFault> {
    let Some(rest) = field.strip_prefix('*') else {
        return Ok((1, field));
    };
    let Some((count, text)) = rest.split_once('*') else {
        return Err(RowFault::Line);
    };
    Ok((number(count)?, text))
}

/// The bytes of some fields, one behind the other, with their escapes undone.
pub fn bytes(alloc: Global, fields: &[&str]) -> Result<Bytes, RowFault> {
    let mut all = Vec::new(alloc);
    for field in fields {
        let (count, text) = repeated(field)?;
        let piece = Vec::unescape_bytes(alloc, text)?;
        for _ in 0..count {
            all.extend_from_slice(&piece)?;
        }
    }
    Ok(Bytes::from(all))
}

pub fn selector(alloc: Global, field: &str) -> Result<Selector, RowFault> {
    Ok(Selector::new(bytes(alloc, &[field])?.as_slice())?)
}

pub fn title(alloc: Global, field: &str) -> Result<Title, RowFault> {
    Ok(Title::new(bytes(alloc, &[field])?.as_slice())?)
}

/// The kind of document that a menu's letter tells.
pub fn kind(letter: &str) -> Result<Kind, RowFault> {
    Ok(match letter {
        "0" => Kind::Text,
        "4" => Kind::BinHex,
        "5" => Kind::DosArchive,
        "6" => Kind::Uuencoded,
        "9" => Kind::Binary,
        "g" => Kind::Gif,
        "I" => Kind::Image,
        "h" => Kind::Html,
        _ => return Err(RowFault::Line),
    })
}

/// The kind of link that a menu's letter tells.
pub fn link_kind(letter: &str) -> Result<LinkKind, RowFault> {
    Ok(match letter {
        "0" => LinkKind::Text,
        "1" => LinkKind::Menu,
        "2" => LinkKind::PhoneBook,
        "4" => LinkKind::BinHex,
        "5" => LinkKind::DosArchive,
        "6" => LinkKind::Uuencoded,
        "7" => LinkKind::Search,
        "8" => LinkKind::Telnet,
        "9" => LinkKind::Binary,
        "+" => LinkKind::Mirror,
        "T" => LinkKind::Tn3270,
        "g" => LinkKind::Gif,
        "I" => LinkKind::Image,
        "h" => LinkKind::Html,
        _ => return Err(RowFault::Line),
    })
}
