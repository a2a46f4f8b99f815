// Why a file can't be had. As of the other calls, no clause can say that the system is asked what is noted, and tests on real files hold it.
ghost use Rattle.std.specs.Prelude.{◌≡◌, [], ◌∷◌, ◌++◌};
ghost use Rattle.std.specs.IoError.{error_kind};
ghost use Rattle.file_names.specs.Lacks as kinds;
ghost use Rattle.file_names.specs.NameCalls as spec;

use crate::NameLog;
use crate::names::NameKind;
use std::fs::{File, Files, TryLockError};
use std::io;
use std::io::ErrorKind;

/// Why a file can't be had that is to be read and written.
#[derive(Clone, Copy, Debug, PartialEq, Eq)]
pub enum Lack {
    /// Nothing has its name.
    Missing,
    /// A folder has its name.
    Folder,
    /// It may not be read and written.
    Denied,
    /// It is locked: another program has it open.
    Locked,
    /// The system doesn't say, or it can be had by now.
    Unknown,
}

/// What it says of a file that it can't be opened.
fn lack_of(error: &io::Error) -> Lack
    ensures { result ≡ kinds.lack_of (error_kind error.now) }
{
    match error.kind() {
        ErrorKind::NotFound | ErrorKind::NotADirectory => Lack::Missing,
        ErrorKind::IsADirectory => Lack::Folder,
        ErrorKind::PermissionDenied | ErrorKind::ReadOnlyFilesystem => Lack::Denied,
        _ => Lack::Unknown,
    }
}

/// What the system says of why a file can't be had. Nothing is written to it, and it is let go of at once.
fn answer<R: Files<File = File>>(files: &R, name: &str) -> Lack {
    let file = match File::options().read(true).write(true).open(files, name) {
        Ok(file) => file,
        Err(error) => return lack_of(&error),
    };
    match file.try_lock() {
        Err(TryLockError::WouldBlock) => Lack::Locked,
        _ => Lack::Unknown,
    }
}

/// Asks why a file can't be had that is to be read and written.
pub fn look_why<R: Files<File = File>>(files: &R, log: &mut NameLog, name: &str) -> Lack
    ensures { log.new.calls ≡ log.old.calls ++ spec.Lacked name.now result ∷ [] }
{
    let answer = answer(files, name);
    log.note(NameKind::Lacked(answer), name, "");
    answer
}
