// What is found in a folder, and what comes of each file.
ghost use Rattle.std.specs.Prelude.{◌≡◌, IfOk, OnOk};
ghost use Rattle.std.specs.List.Sorted.{IsPermutation};
ghost use Rattle.folder_import.specs.Found as spec;
ghost use Rattle.folder_import.specs.Parts as parts;
ghost use Rattle.folder_import.specs.Formats.{Sorts};
ghost use Rattle.folder_import.specs.declared.found.Content.TheVariants.{File};

use crate::{Sort, sort_of};
use common_types::Refused;
use host_types::{Bytes, Item, Selector, Title};
use std::alloc::{AllocError, Global};

/// What has a name in a folder.
#[derive(Debug, Drop)]
pub enum Content {
    /// A folder.
    Folder,
    /// A file, its sort and all its bytes.
    File(Sort, Bytes),
    /// Neither, as a pipe, a device, or a link to a folder.
    Other,
    /// A file that can't be read.
    Unread,
}

/// What is found in a folder: its name there, and when it was changed last, in seconds since 1970-01-01.
#[derive(Debug, Drop)]
pub struct Found {
    pub name: Bytes,
    pub time: u64,
    pub content: Content,
}

/// A folder as a menu of the site.
#[derive(Debug, Drop)]
pub struct Folder {
    /// Where its menu stands.
    pub at: Selector,
    pub title: Title,
    /// Whether a line of another gophermap says this title, and not its name alone.
    pub is_titled: bool,
}

/// Why what is found in a folder is left out.
#[derive(Clone, Copy, Debug, PartialEq, Eq)]
pub enum Reason {
    /// No site takes it.
    Refused(Refused),
    /// It is no file and no folder.
    Kind,
    /// It can't be read.
    Unread,
    /// No file of changes can say its name.
    Unsaid,
}

/// What comes of what is found.
#[derive(Debug, Drop)]
pub enum Part {
    /// Nothing: it is hidden, or it says what the menu is.
    Passed,
    /// A document of the site.
    Document(Selector, Item),
    /// A menu below that of the folder.
    Below(Folder),
    LeftOut(Reason),
}

impl Found {
    /// A file with these bytes.
    pub fn of_file(
        alloc: Global,
        name: &[u8],
        time: u64,
        bytes: Vec<u8>,
    ) -> Result<Self, AllocError>
        ensures named { IfOk result (λ f. (f.name ≡ name.now) × (f.time ≡ time)) }
        ensures content { IfOk result (λ f. (sort : Sort) × Sorts name.now bytes.items sort × (f.content ≡ File sort bytes.items)) }
    {
        let sort = sort_of(name, &bytes);
        Ok(Found {
            name: Bytes::from_slice(alloc, name)?,
            time,
            content: Content::File(sort, Bytes::from(bytes)),
        })
    }

    /// Whether no site shows it.
    pub(crate) fn is_hidden(&self) -> bool
        ensures { result ≡ spec.is_hidden self.now.name }
    {
        self.name.as_slice().starts_with(b".")
    }

    /// Whether it has the name of a file that says what the menu is.
    pub(crate) fn is_map(&self) -> bool
        ensures { result ≡ spec.is_map self.now.name }
    {
        self.name.as_slice() == b"gophermap".as_slice()
    }
}

/// Puts what is found in the order in which it is listed: what was changed last comes first, and of the same moment by name.
pub fn newest_first(found: &mut Vec<Found>) -> Result<(), AllocError>
    ensures same { IsPermutation found.old.items found.new.items }
    ensures newest { OnOk result (spec.IsNewestFirst found.new.items) }
{
    found.sort_by(|one, other| other.name.as_slice().cmp(one.name.as_slice()))?;
    found.sort_by_key(|one| one.time)?;
    found.reverse();
    Ok(())
}
