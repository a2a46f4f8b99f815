// A folder and all below it.
ghost use Rattle.std.specs.Prelude.{◌≡◌, ◌⊎◌, ◌++◌, ◌∷◌, [], List, Err, IfOk, IfErr, OnOk};
ghost use Rattle.std.specs.Option.{option_map};
ghost use Rattle.common_types.specs.Names.{name_of, is_field};
ghost use Rattle.common_types.specs.declared.refused.Refused.{Refused as Refusal};
ghost use Rattle.folder_import.specs.declared.importing.Import.{Import as Imported};
ghost use Rattle.folder_reader.specs.Walked as spec;
ghost use Rattle.folder_reader.specs.Walked.{IsFolderWalked, FolderReading, reading_of};
ghost use Rattle.folder_reader.specs.declared.walking.WalkFault.TheVariants as faults;

use crate::folder_log::{FolderLog, read_noted};
use common_types::Refused;
use folder_import::{Folder, Found, Import, ImportFault, Reason, import_folder};
use host_types::{Selector, Title};
use std::alloc::{AllocError, AllocFailed, Global};
use std::collections::VecDeque;

/// Why a folder is not imported.
#[derive(Clone, Copy, Debug, PartialEq, Eq)]
pub enum WalkFault {
    /// It is no folder, or can't be read.
    NoFolder,
    /// The last part of the selector is no title.
    Title(Refused),
    /// Out of memory.
    Memory,
}

impl From<Refused> for WalkFault {
    ghost from_gives = { λ refused fault. fault ≡ faults.Title refused };

    fn from(refused: Refused) -> Self {
        WalkFault::Title(refused)
    }
}

impl From<AllocError> for WalkFault {
    ghost from_gives = { λ _ fault. fault ≡ faults.Memory };

    fn from(_: AllocError) -> Self {
        WalkFault::Memory
    }
}

impl<T: Drop> From<AllocFailed<T>> for WalkFault {
    ghost from_gives = { λ _ fault. fault ≡ faults.Memory };

    fn from(_: AllocFailed<T>) -> Self {
        WalkFault::Memory
    }
}

impl From<ImportFault> for WalkFault {
    ghost from_gives = { λ _ fault. fault ≡ faults.Memory };

    fn from(_: ImportFault) -> Self {
        WalkFault::Memory
    }
}

/// What stands behind the last slash, or all where there is none.
fn last_part(bytes: &[u8]) -> &[u8]
    ensures { result.now ≡ spec.last_part bytes.now bytes.now }
{
    let mut last = bytes;
    let mut left = bytes;
    while let [first, others @ ..] = left {
        if *first == b'/' {
            last = others;
        }
        left = others;
    }
    last
}

/// The title of the menu of all, where no gophermap says it: the last part of its selector, or else `Home`.
fn top_title(top: &Selector) -> Result<Title, Refused>
    ensures { result ≡ name_of is_field 69 (spec.top_title top.now) }
{
    let name = last_part(top.as_bytes());
    if name.is_empty() {
        return Title::new(b"Home");
    }
    Title::new(name)
}

/// The file of the system that a folder of the site is.
fn path_in(alloc: Global, folder: &str, top: &Selector, one: &Folder) -> Result<Vec<u8>, AllocError>
    ensures { IfOk result (λ path. path.items ≡ spec.path_in folder.now top.now one.now) }
{
    let mut path = folder.as_bytes().to_vec(alloc)?;
    if let Some(below) = one.at.as_bytes().get(top.as_bytes().len()..) {
        path.extend_from_slice(below)?;
    }
    Ok(path)
}

/// What was found in a folder; one that could not be read is told, and nothing is found there.
fn told(
    alloc: Global,
    out: &mut Import,
    one: &Folder,
    found: Option<Vec<Found>>,
) -> Result<Vec<Found>, AllocError>
    ensures { IfOk result (λ given. spec.IsReadOrTold one.now (option_map (λ all. all.items) found) given.items out.old out.new) }
{
    match found {
        Some(found) => Ok(found),
        None => {
            out.leave_out(alloc, one.at.as_bytes(), Reason::Unread)?;
            Ok(Vec::new(alloc))
        }
    }
}

/// Reads one folder and puts it, and gives those below it. One that can't be read is told, but for the first, which is a fault.
fn take_folder(
    rt: &HostRuntime,
    log: &mut FolderLog,
    out: &mut Import,
    folder: &str,
    top: &Selector,
    one: &Folder,
    is_first: bool,
) -> Result<Vec<Folder>, WalkFault>
    ensures fault { IfErr result (λ e. (e ≡ faults.NoFolder) ⊎ (e ≡ faults.Memory)) }
    ensures taken { IfOk result (λ below. (reading : FolderReading) × (log.new.folders ≡ log.old.folders ++ reading ∷ []) × spec.IsTakenFrom folder.now top.now one.now reading out.old out.new below.items) }
{
    let alloc = rt.alloc();
    let path = path_in(alloc, folder, top, one)?;
    let found = read_noted(rt, log, &path)?;
    if is_first && found.is_none() {
        return Err(WalkFault::NoFolder);
    }
    let found = told(alloc, out, one, found)?;
    Ok(import_folder(alloc, out, top, one, &found)?)
}

/// Puts folders behind those that are left.
fn add_below(left: &mut VecDeque<Folder>, below: Vec<Folder>) -> Result<(), AllocError>
    ensures { OnOk result (left.new.items ≡ left.old.items ++ below.items) }
{
    for one in below {
        left.push_back(one)?;
    }
    Ok(())
}

/// Puts a folder of the system and all folders below it, each once.
pub fn import_all(
    rt: &HostRuntime,
    log: &mut FolderLog,
    folder: &str,
    top: &Selector,
) -> Result<Import, WalkFault>
    ensures title { IfErr result (λ e. (refused : Refusal) → e ≡ faults.Title refused → name_of is_field 69 (spec.top_title top.now) ≡ Err refused) }
    ensures walked { IfOk result (λ import. (start : Imported) × (readings : List FolderReading) × (log.new.folders ≡ log.old.folders ++ readings) × spec.IsEmpty start × IsFolderWalked folder.now top.now (spec.top_folder top.now ∷ []) readings start import) }
{
    let alloc = rt.alloc();
    let mut out = Import::new(alloc);
    let mut left = VecDeque::new(alloc);
    left.push_back(Folder {
        at: top.clone()?,
        title: top_title(top)?,
        is_titled: false,
    })?;
    for turn in 0..u64::MAX {
        let Some(next) = left.pop_front() else {
            return Ok(out);
        };
        let below = take_folder(rt, log, &mut out, folder, top, &next, turn == 0)?;
        add_below(&mut left, below)?;
    }
    // No memory that can be had holds so many folders.
    Err(WalkFault::Memory)
}
