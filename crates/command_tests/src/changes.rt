// Changes of a site, by words.
use crate::trouble::Trouble;
use bstr::ByteVec;
use host_types::{Body, Bytes, Change, Entry, EntryList, Item, Selector, Stamp, Title};
use std::alloc::{AllocError, Global};

/// The bytes that the escapes of a field represent.
pub fn unescaped(alloc: Global, field: &str) -> Result<Vec<u8>, AllocError> {
    Vec::unescape_bytes(alloc, field)
}

fn selector(alloc: Global, field: &str) -> Result<Selector, Trouble> {
    Ok(Selector::new(&unescaped(alloc, field)?)?)
}

fn title(alloc: Global, field: &str) -> Result<Title, Trouble> {
    Ok(Title::new(&unescaped(alloc, field)?)?)
}

/// A menu of two entries: what stands at a selector, and a line to read.
fn menu(alloc: Global, local: &str, info: &str) -> Result<EntryList, Trouble> {
    let mut entries = EntryList::new(alloc);
    entries.push(Entry::Local(selector(alloc, local)?))?;
    entries.push(Entry::Info(title(alloc, info)?))?;
    Ok(entries)
}

/// The change that a line asks for.
pub fn change_of(alloc: Global, now: Stamp, fields: &[&str]) -> Result<Change, Trouble> {
    match fields {
        ["text", name, shown, body] => {
            let bytes = Bytes::from(unescaped(alloc, body)?);
            let item = Item::text(alloc, title(alloc, shown)?, now, bytes)?;
            Ok(Change::Put(selector(alloc, name)?, item))
        }
        ["menu", shown, local, info] => {
            let item = Item {
                title: title(alloc, shown)?,
                stamp: now,
                until: None,
                summary: Bytes::new(alloc),
                body: Body::Menu(menu(alloc, local, info)?),
            };
            Ok(Change::Put(Selector::root(), item))
        }
        ["move", from, to] => Ok(Change::Move {
            from: selector(alloc, from)?,
            to: selector(alloc, to)?,
        }),
        _ => Err(Trouble::Line),
    }
}
