// What a file of changes says, or why it says nothing.
ghost use Rattle.std.specs.Prelude.{◌≡◌, Some, Ok, Err, IfOk, IfErr, IsOkAnd, IsUtf8};
ghost use Rattle.std.specs.IoError.{error_kind};
ghost use Rattle.std.specs.Result.{result_map_both};
ghost use Rattle.change_file.specs.Changes as file;
ghost use Rattle.gopher_host.specs.Unread.{IsUnsaid, TellsUnread};

use crate::fault::Fault;
use change_file::{ChangeFileFault, FileChange, read_changes};
use change_flaws::flaw_of;
use std::alloc::Global;
use std::io;
use std::io::ErrorKind;

/// Why these bytes give no changes, which could not be read for this fault.
fn unread(alloc: Global, bytes: &[u8], fault: ChangeFileFault) -> Fault
    ensures { TellsUnread bytes.now fault result }
{
    match flaw_of(alloc, bytes, fault) {
        Ok(Some(line)) => Fault::Flaw(fault, line),
        Ok(None) => Fault::Changes(fault),
        Err(_) => Fault::Changes(ChangeFileFault::Memory),
    }
}

/// What the bytes of a file of changes say, with these.
pub fn said(alloc: Global, bytes: io::Result<Vec<u8>>) -> Result<(Vec<u8>, Vec<FileChange>), Fault>
    ensures ok { IfOk result (λ r. IsOkAnd bytes (λ b. (r.0.items ≡ b.items) × IsUtf8 b.items × (file.read b.items ≡ Some (Ok r.1.items)))) }
    ensures refused { IfErr result (IsUnsaid (result_map_both (λ b. b.items) error_kind bytes)) }
{
    match bytes {
        Ok(bytes) => match read_changes(alloc, &bytes) {
            Ok(changes) => Ok((bytes, changes)),
            Err(fault) => Err(unread(alloc, &bytes, fault)),
        },
        Err(error) if error.kind() == ErrorKind::OutOfMemory => {
            Err(Fault::Changes(ChangeFileFault::Memory))
        }
        Err(_) => Err(Fault::NoChanges),
    }
}
