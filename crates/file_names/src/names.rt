// The calls of the system about names of files. Each function here makes one of them and notes it. That it makes the call which it notes, no clause can say:
// so each is short, and tests on real files hold it.
ghost use Rattle.std.specs.Prelude.{◌≡◌, List, [], ◌∷◌, ◌++◌};
ghost use Rattle.std.specs.Borrow.{ftrue};
ghost use Rattle.file_names.specs.NameCalls as spec;
ghost use Rattle.file_names.specs.NameCalls.{NameCall, call_of};

use crate::Lack;
use std::fs::{File, Files, OpenFile};
use std::io::ErrorKind;
use std::marker::Model;
use std::path::Path;
use std::{fs, io};

/// Whether a file of a name is there.
#[derive(Clone, Copy, Debug, PartialEq, Eq)]
pub enum Look {
    /// There is something of this name.
    There,
    /// There is nothing of this name.
    Missing,
    /// The system doesn't say.
    Unknown,
}

/// What is noted of a call.
#[derive(Clone, Copy)]
pub(crate) enum NameKind {
    /// Whether a file is there.
    Looked(Look),
    /// Why a file can't be had.
    Lacked(Lack),
    /// A file got another name, or didn't.
    Renamed(bool),
    /// The names in the folder of a file were made sure of, or weren't.
    Synced(bool),
}

/// What was asked about names, in order. Only clauses read it, and it takes no memory.
#[derive(Drop)]
pub struct NameLog {
    pub ghost calls: { List NameCall },
}

impl Model for NameLog {
    ghost also_owns = { λ _. ftrue };
}

impl NameLog {
    /// Nothing.
    pub fn new() -> NameLog
        ensures { result.calls ≡ [] }
    {
        NameLog {}
    }

    /// One call more.
    fn with(_before: &NameLog, _kind: &NameKind, _name: &[u8], _other: &[u8]) -> NameLog
        ensures { result.calls ≡ _before.now.calls ++ call_of _kind.now _name.now _other.now ∷ [] }
    {
        NameLog {}
    }

    /// Notes a call that was made.
    pub(crate) fn note(&mut self, kind: NameKind, name: &str, other: &str)
        ensures { self.new.calls ≡ self.old.calls ++ call_of kind name.now other.now ∷ [] }
    {
        *self = NameLog::with(self, &kind, name.as_bytes(), other.as_bytes());
    }
}

/// What the system says of whether there is something of a name, be it a link that leads nowhere.
fn answer<R: Files>(files: &R, name: &str) -> Look {
    match fs::symlink_metadata(files, name) {
        Ok(_) => Look::There,
        Err(error) if error.kind() == ErrorKind::NotFound => Look::Missing,
        Err(_) => Look::Unknown,
    }
}

/// Asks whether there is something of a name.
pub fn look_for<R: Files>(files: &R, log: &mut NameLog, name: &str) -> Look
    ensures { log.new.calls ≡ log.old.calls ++ spec.Looked name.now result ∷ [] }
{
    let answer = answer(files, name);
    log.note(NameKind::Looked(answer), name, "");
    answer
}

/// Gives a file another name, in one step of the system. What had that name is gone.
pub fn rename<R: Files>(files: &R, log: &mut NameLog, name: &str, other: &str) -> bool
    ensures { log.new.calls ≡ log.old.calls ++ spec.Renamed name.now other.now result ∷ [] }
{
    let done = fs::rename(files, name, other).is_ok();
    log.note(NameKind::Renamed(done), name, other);
    done
}

/// The folder that a file is in.
fn folder_of(name: &str) -> &str {
    match Path::new(name).parent() {
        Some(folder) if !folder.as_str().is_empty() => folder.as_str(),
        _ => ".",
    }
}

/// Makes sure of a folder.
fn sync<R: Files>(files: &R, folder: &str) -> io::Result<()> {
    let folder = File::open(files, folder)?;
    folder.sync_all()
}

/// Makes sure of the names in the folder that a file is in, so that they last.
pub fn sync_folder<R: Files>(files: &R, log: &mut NameLog, name: &str) -> bool
    ensures { log.new.calls ≡ log.old.calls ++ spec.Synced name.now result ∷ [] }
{
    let done = sync(files, folder_of(name)).is_ok();
    log.note(NameKind::Synced(done), name, "");
    done
}
