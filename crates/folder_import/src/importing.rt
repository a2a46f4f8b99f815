// A folder as changes of a site.
ghost use Rattle.std.specs.Prelude.{◌≡◌, ◌++◌, [], IfOk, OnOk, string_bytes};
ghost use Rattle.folder_import.specs.Folders as spec;
ghost use Rattle.folder_import.specs.Parts as parts;
ghost use Rattle.folder_import.specs.Folders.{IsImported};
ghost use Rattle.folder_import.specs.LeftOut.{left_out, why_of};

use crate::found::{Folder, Found, Part, Reason};
use crate::found_parts::part_of;
use crate::left_out::{import_why, note, why_of};
use crate::menus::{map_in, menu_entries, menu_title, titles_in};
use crate::selectors::path_of;
use crate::{ImportFault, put_menu};
use change_writer::ChangeWriter;
use host_types::{Bytes, Change, Entry, Selector, Title};
use std::alloc::{AllocError, Global};

/// A file of changes that is being made of folders, and a line for each part of them that is left out.
#[derive(Drop)]
pub struct Import {
    pub file: ChangeWriter,
    pub left_out: String,
}

impl Import {
    /// Without any change.
    pub fn new(alloc: Global) -> Self
        ensures changes { result.file ≡ [] }
        ensures left_out { string_bytes result.left_out ≡ [] }
    {
        Import {
            file: ChangeWriter::new(alloc),
            left_out: String::new(alloc),
        }
    }

    /// Tells that what stands at a path is left out, and why.
    pub fn leave_out(
        &mut self,
        alloc: Global,
        path: &[u8],
        reason: Reason,
    ) -> Result<(), AllocError>
        ensures told { OnOk result (string_bytes self.new.left_out ≡ string_bytes self.old.left_out ++ left_out path.now (why_of reason)) }
        ensures changes { self.new.file ≡ self.old.file }
    {
        note(alloc, &mut self.left_out, path, why_of(reason))
    }
}

/// What a folder gives to its menu, and the folders below it.
#[derive(Drop)]
struct Listing {
    entries: Vec<Entry>,
    below: Vec<Folder>,
}

/// Adds what a part gives.
fn add_part(
    alloc: Global,
    out: &mut Import,
    listing: &mut Listing,
    folder: &Selector,
    found: &Found,
    part: Part,
) -> Result<(), ImportFault>
    ensures changes { OnOk result (out.new.file ≡ out.old.file ++ spec.in_file (parts.changes_of part)) }
    ensures told { OnOk result (string_bytes out.new.left_out ≡ string_bytes out.old.left_out ++ spec.told_of folder.now found.now.name part) }
    ensures entries { OnOk result (listing.new.entries.items ≡ listing.old.entries.items ++ parts.entries_of part) }
    ensures below { OnOk result (listing.new.below.items ≡ listing.old.below.items ++ parts.folders_of part) }
{
    match part {
        Part::Passed => {}
        Part::Document(selector, item) => {
            let entry = Entry::Local(selector.clone()?);
            out.file.add(&Change::Put(selector, item))?;
            listing.entries.push(entry)?;
        }
        Part::Below(folder) => {
            listing.entries.push(Entry::Local(folder.at.clone()?))?;
            listing.below.push(folder)?;
        }
        Part::LeftOut(reason) => {
            let path = path_of(alloc, folder, found.name.as_slice())?;
            out.leave_out(alloc, &path, reason)?;
        }
    }
    Ok(())
}

/// Puts the documents of a folder, and gives what its menu may list.
fn put_documents(
    alloc: Global,
    out: &mut Import,
    folder: &Selector,
    titles: &[(Selector, Bytes)],
    found: &[Found],
) -> Result<Listing, ImportFault>
    ensures changes { OnOk result (out.new.file ≡ out.old.file ++ spec.documents titles.now folder.now found.now) }
    ensures told { OnOk result (string_bytes out.new.left_out ≡ string_bytes out.old.left_out ++ spec.lines_told titles.now folder.now found.now) }
    ensures entries { IfOk result (λ l. l.entries.items ≡ spec.listing titles.now folder.now found.now) }
    ensures below { IfOk result (λ l. l.below.items ≡ spec.folders titles.now folder.now found.now) }
{
    let mut listing = Listing {
        entries: Vec::new(alloc),
        below: Vec::new(alloc),
    };
    for one in found {
        let part = part_of(alloc, titles, folder, one)?;
        add_part(alloc, out, &mut listing, folder, one, part)?;
    }
    Ok(listing)
}

/// Puts a menu, or tells why it can't be put.
fn put_or_tell(
    alloc: Global,
    out: &mut Import,
    at: &Selector,
    title: &Title,
    entries: &[Entry],
) -> Result<(), ImportFault>
    ensures { OnOk result (spec.PutsMenu at.now title.now entries.now out.old out.new) }
{
    match put_menu(alloc, &mut out.file, at, title, entries) {
        Ok(()) => Ok(()),
        Err(ImportFault::Memory) => Err(ImportFault::Memory),
        Err(fault) => Ok(note(alloc, &mut out.left_out, at.as_bytes(), import_why(fault))?),
    }
}

/// Puts the documents and the menu of a folder, tells what is left out, and gives the folders below it. All lies below `top`.
pub fn import_folder(
    alloc: Global,
    out: &mut Import,
    top: &Selector,
    folder: &Folder,
    found: &[Found],
) -> Result<Vec<Folder>, ImportFault>
    ensures { IfOk result (λ below. IsImported top.now folder.now found.now out.old out.new below.items) }
{
    let map = map_in(found);
    let titles = titles_in(alloc, top, &folder.at, map)?;
    let Listing { entries, below } = put_documents(alloc, out, &folder.at, &titles, found)?;
    let title = menu_title(folder, map)?;
    let entries = menu_entries(alloc, top, &folder.at, map, entries, &mut out.left_out)?;
    put_or_tell(alloc, out, &folder.at, &title, &entries)?;
    Ok(below)
}
