// The menu of a folder, by its gophermap.
ghost use Rattle.std.specs.Prelude.{◌≡◌, ◌++◌, IfOk, OnOk, map, string_bytes};
ghost use Rattle.std.specs.Option.{option_copied, option_map};
ghost use Rattle.folder_import.specs.Menus as spec;
ghost use Rattle.gophermap.specs.Line.{lines_of};
ghost use Rattle.gophermap.specs.Seen.{line_seen, seen};

use crate::found::{Content, Folder, Found};
use crate::found_parts::is_utf8;
use crate::left_out::{at_line, import_why, line_why, note};
use crate::selectors::path_of;
use crate::{ImportFault, entry_of, resolved};
use gophermap::{Line, LineFault, Lines};
use host_types::{Bytes, Entry, Selector, Title};
use std::alloc::{AllocError, Global};

/// The bytes of a folder's gophermap, where it has one.
pub fn map_in(found: &[Found]) -> Option<&[u8]>
    ensures { option_copied result ≡ spec.map_in found.now }
{
    for one in found {
        if one.is_map() {
            if let Content::File(_, bytes) = &one.content {
                return Some(bytes.as_slice());
            }
        }
    }
    None
}

/// Whether a file of changes can say the texts of a line.
fn is_said(line: &Line<'_>) -> bool
    ensures { result ≡ spec.is_said (line_seen line.now) }
{
    match line {
        Line::Info(title) | Line::Title(title) | Line::Link { title, .. } => is_utf8(title),
        Line::Entry {
            title,
            selector,
            ..
        } => is_utf8(title) && is_utf8(selector),
        Line::Comment | Line::Listing | Line::End => true,
    }
}

/// Adds the title that a line says of an item of this site.
fn add_title(
    alloc: Global,
    titles: &mut Vec<(Selector, Bytes)>,
    top: &Selector,
    folder: &Selector,
    line: &Line<'_>,
) -> Result<(), AllocError>
    ensures { OnOk result (titles.new.items ≡ titles.old.items ++ spec.title_of_line top.now folder.now (line_seen line.now)) }
{
    match line {
        Line::Entry {
            title,
            selector,
            place,
            ..
        } => match (place.host, place.port) {
            (None, None) => match resolved(alloc, top, folder, selector) {
                Ok(selector) => Ok(titles.push((selector, Bytes::from_slice(alloc, title)?))?),
                Err(ImportFault::Name(_)) => Ok(()),
                Err(_) => Err(AllocError),
            },
            _ => Ok(()),
        },
        _ => Ok(()),
    }
}

/// The titles that the lines of a gophermap say of items of this site.
pub fn titles_in(
    alloc: Global,
    top: &Selector,
    folder: &Selector,
    map: Option<&[u8]>,
) -> Result<Vec<(Selector, Bytes)>, AllocError>
    ensures { IfOk result (λ titles. titles.items ≡ spec.titles_in top.now folder.now (spec.lines_in (option_copied map.entry))) }
{
    let mut titles = Vec::new(alloc);
    let Some(bytes) = map else {
        return Ok(titles);
    };
    let mut lines = Lines::of(bytes);
    while let Some(line) = lines.next() {
        if let Ok(line) = line {
            if is_said(&line) {
                add_title(alloc, &mut titles, top, folder, &line)?;
            }
        }
    }
    Ok(titles)
}

/// The title of a menu that its gophermap says.
fn heading_in<'a>(bytes: &'a [u8]) -> Option<&'a [u8]>
    ensures { option_copied result ≡ spec.heading_in (lines_of bytes.now) }
{
    let mut lines = Lines::of(bytes);
    while let Some(line) = lines.next() {
        if let Ok(Line::Title(title)) = line {
            if is_utf8(title) {
                return Some(title);
            }
        }
    }
    None
}

/// The title of a folder's menu.
pub fn menu_title(folder: &Folder, map: Option<&[u8]>) -> Result<Title, AllocError>
    ensures { IfOk result (λ title. title ≡ spec.menu_title folder.now (spec.lines_in (option_copied map.entry))) }
{
    if folder.is_titled {
        return folder.title.clone();
    }
    let Some(bytes) = map else {
        return folder.title.clone();
    };
    match heading_in(bytes) {
        Some(heading) => match Title::new(heading) {
            Ok(title) => Ok(title),
            Err(_) => folder.title.clone(),
        },
        None => folder.title.clone(),
    }
}

/// Tells that a line is left out, and why.
fn note_line(
    alloc: Global,
    left_out: &mut String,
    folder: &Selector,
    number: u64,
    why: &str,
) -> Result<(), AllocError>
    ensures { OnOk result (string_bytes left_out.new ≡ string_bytes left_out.old ++ spec.line_left_out folder.now number why.now) }
{
    let path = path_of(alloc, folder, b"gophermap")?;
    let why = at_line(alloc, number, why)?;
    note(alloc, left_out, &path, &why)
}

/// Adds all that is listed, where a line says so.
fn add_listed(
    entries: &mut Vec<Entry>,
    listing: &[Entry],
    line: &Line<'_>,
) -> Result<(), AllocError>
    ensures { OnOk result (entries.new.items ≡ entries.old.items ++ spec.all_listed listing.now (line_seen line.now)) }
{
    match line {
        Line::Listing => entries.extend_from_slice(listing),
        _ => Ok(()),
    }
}

/// Adds the entries that a line gives.
fn add_entry(
    alloc: Global,
    top: &Selector,
    folder: &Selector,
    listing: &[Entry],
    line: &Line<'_>,
    number: u64,
    entries: &mut Vec<Entry>,
    left_out: &mut String,
) -> Result<(), AllocError>
    ensures entries { OnOk result (entries.new.items ≡ entries.old.items ++ spec.entries_of_line top.now folder.now listing.now (line_seen line.now)) }
    ensures told { OnOk result (string_bytes left_out.new ≡ string_bytes left_out.old ++ spec.told_of_line top.now folder.now number (line_seen line.now)) }
{
    add_listed(entries, listing, line)?;
    match entry_of(alloc, top, folder, line) {
        Ok(Some(entry)) => Ok(entries.push(entry)?),
        Ok(None) => Ok(()),
        Err(ImportFault::Memory) => Err(AllocError),
        Err(fault) => note_line(alloc, left_out, folder, number, import_why(fault)),
    }
}

/// Adds what a line gives that was read or refused.
fn add_line(
    alloc: Global,
    top: &Selector,
    folder: &Selector,
    listing: &[Entry],
    line: Result<Line<'_>, LineFault>,
    number: u64,
    entries: &mut Vec<Entry>,
    left_out: &mut String,
) -> Result<(), AllocError>
    ensures entries { OnOk result (entries.new.items ≡ entries.old.items ++ spec.entries_of_read top.now folder.now listing.now (seen line.entry)) }
    ensures told { OnOk result (string_bytes left_out.new ≡ string_bytes left_out.old ++ spec.told_of_read top.now folder.now number (seen line.entry)) }
{
    match line {
        Ok(line) if is_said(&line) => {
            add_entry(
                alloc, top, folder, listing, &line, number, entries, left_out,
            )
        },
        Ok(_) => note_line(alloc, left_out, folder, number, "not UTF-8"),
        Err(fault) => {
            let why = line_why(alloc, fault)?;
            note_line(alloc, left_out, folder, number, &why)
        }
    }
}

/// The entries of a folder's menu; the lines that give none for a fault are told.
pub fn menu_entries(
    alloc: Global,
    top: &Selector,
    folder: &Selector,
    map: Option<&[u8]>,
    listing: Vec<Entry>,
    left_out: &mut String,
) -> Result<Vec<Entry>, AllocError>
    ensures entries { IfOk result (λ es. es.items ≡ spec.menu_entries top.now folder.now listing.items (option_copied map.entry)) }
    ensures told { OnOk result (string_bytes left_out.new ≡ string_bytes left_out.old ++ spec.told_in top.now folder.now 1 (spec.lines_in (option_copied map.entry))) }
{
    let Some(bytes) = map else {
        return Ok(listing);
    };
    let mut entries = Vec::new(alloc);
    let mut lines = Lines::of(bytes);
    for number in 0..u64::MAX {
        let Some(line) = lines.next() else {
            return Ok(entries);
        };
        add_line(
            alloc,
            top,
            folder,
            &listing,
            line,
            number + 1,
            &mut entries,
            left_out,
        )?;
    }
    // No memory that can be had holds so many lines.
    Err(AllocError)
}
