// The folders of the system that were read. That a folder was read which is noted, and that it holds what is noted, no clause can say: tests on real folders hold it.
ghost use Rattle.std.specs.Prelude.{◌≡◌, List, [], ◌∷◌, ◌++◌, IfOk, Some};
ghost use Rattle.std.specs.Borrow.{ftrue};
ghost use Rattle.std.specs.Option.{option_map};
ghost use Rattle.folder_import.specs.Found.{IsNewestFirst};
ghost use Rattle.folder_reader.specs.Walked.{FolderReading, reading_of};
ghost use Rattle.folder_reader.specs.Noted.{noted};

use crate::reading::read_folder;
use folder_import::{Found, newest_first};
use host_types::Bytes;
use std::alloc::AllocError;
use std::io::ErrorKind;
use std::marker::Model;

/// A folder that was read, and what was found there, or that it could not be read.
#[derive(Drop)]
pub(crate) struct ReadFolder {
    path: Bytes,
    found: Option<Vec<Found>>,
}

/// The folders that were read, in order, with what was found in each. Only clauses read it, and it takes no memory.
#[derive(Drop)]
pub struct FolderLog {
    pub ghost folders: { List FolderReading },
}

impl Model for FolderLog {
    ghost also_owns = { λ _. ftrue };
}

impl FolderLog {
    /// None.
    pub fn new() -> FolderLog
        ensures { result.folders ≡ [] }
    {
        FolderLog {}
    }

    /// One folder more.
    fn with(_before: &FolderLog, _read: &ReadFolder) -> FolderLog
        ensures { result.folders ≡ _before.now.folders ++ noted _read.now ∷ [] }
    {
        FolderLog {}
    }

    /// Notes a folder that was read.
    fn note(&mut self, read: &ReadFolder)
        ensures { self.new.folders ≡ self.old.folders ++ noted read.now ∷ [] }
    {
        *self = FolderLog::with(self, read);
    }
}

/// What is found in a folder, the newest first, or nothing where it can't be read.
fn found_in(rt: &HostRuntime, path: &[u8]) -> Result<Option<Vec<Found>>, AllocError>
    ensures { IfOk result (λ found. (all : _) → found ≡ Some all → IsNewestFirst all.items) }
{
    let Ok(path) = str::from_utf8(path) else {
        return Ok(None);
    };
    match read_folder(rt, path) {
        Ok(mut found) => {
            newest_first(&mut found)?;
            Ok(Some(found))
        }
        Err(error) if error.kind() == ErrorKind::OutOfMemory => Err(AllocError),
        Err(_) => Ok(None),
    }
}

/// Reads a folder.
pub fn read_noted(
    rt: &HostRuntime,
    log: &mut FolderLog,
    path: &[u8],
) -> Result<Option<Vec<Found>>, AllocError>
    ensures noted { IfOk result (λ found. log.new.folders ≡ log.old.folders ++ reading_of path.now (option_map (λ all. all.items) found) ∷ []) }
    ensures newest { IfOk result (λ found. (all : _) → found ≡ Some all → IsNewestFirst all.items) }
{
    let read = ReadFolder {
        path: Bytes::from_slice(rt.alloc(), path)?,
        found: found_in(rt, path)?,
    };
    log.note(&read);
    Ok(read.found)
}
