// What is found in a folder. No contract can say what a folder or a file of the system holds: tests on real folders hold these functions.
ghost use Rattle.std.specs.Prelude.{◌≤◌, IfOk, length};

use folder_import::{Content, Found};
use host_types::{Bytes, MOST_VIEW_BYTES};
use std::alloc::Global;
use std::fs::{DirEntry, File, Metadata};
use std::io::{ErrorKind, Read};
use std::time::UNIX_EPOCH;
use std::{fs, io};

/// How many bytes of a file are read at most: one more than a document may have.
const MOST_BYTES: usize = MOST_VIEW_BYTES + 1;

/// How many bytes one read takes.
const PIECE: usize = 4096;

/// How many reads of a file are made at most.
const MOST_READS: u32 = 1_000_000;

/// The bytes of a reader, as far as it is asked for: so many at least, where it has them, and less than a piece more.
fn front_of<R: Read>(alloc: Global, reader: &mut R, most: usize) -> io::Result<Vec<u8>> {
    let mut all = Vec::new(alloc);
    let mut piece = [0; PIECE];
    for _read in 0..MOST_READS {
        if all.len() >= most {
            return Ok(all);
        }
        match reader.read(&mut piece) {
            Ok(0) => return Ok(all),
            Ok(count) => all.extend_from_slice(&piece[..count])?,
            Err(error) if error.kind() == ErrorKind::Interrupted => {}
            Err(error) => return Err(error),
        }
    }
    Err(io::Error::from(ErrorKind::FileTooLarge))
}

/// The bytes of a file, as many as a document may have, or more.
fn bytes_of(rt: &HostRuntime, path: &str) -> io::Result<Vec<u8>> {
    front_of(rt.alloc(), &mut File::open(rt, path)?, MOST_BYTES)
}

/// When a file was changed last, in seconds since 1970-01-01; 0 where that is not known.
fn time_of(metadata: &Metadata) -> u64 {
    match metadata.modified() {
        Ok(time) => match time.duration_since(UNIX_EPOCH) {
            Ok(since) => since.as_secs(),
            Err(_) => 0,
        },
        Err(_) => 0,
    }
}

/// Something without bytes.
fn without_bytes(alloc: Global, name: &str, time: u64, content: Content) -> io::Result<Found> {
    Ok(Found {
        name: Bytes::from_slice(alloc, name.as_bytes())?,
        time,
        content,
    })
}

/// A file, with its bytes where it can be read.
fn file(rt: &HostRuntime, path: &str, name: &str, time: u64) -> io::Result<Found> {
    match bytes_of(rt, path) {
        Ok(bytes) => Ok(Found::of_file(rt.alloc(), name.as_bytes(), time, bytes)?),
        Err(error) if error.kind() == ErrorKind::OutOfMemory => Err(error),
        Err(_) => without_bytes(rt.alloc(), name, time, Content::Unread),
    }
}

/// What a name of a folder stands for. A link to a file is that file; one to a folder is not followed, since it may lead back.
fn found(rt: &HostRuntime, path: &str, name: &str) -> io::Result<Found> {
    let alloc = rt.alloc();
    let Ok(own) = fs::symlink_metadata(rt, path) else {
        return without_bytes(alloc, name, 0, Content::Unread);
    };
    if own.is_dir() {
        return without_bytes(alloc, name, time_of(&own), Content::Folder);
    }
    match fs::metadata(rt, path) {
        Ok(metadata) if metadata.is_file() => file(rt, path, name, time_of(&metadata)),
        Ok(metadata) => without_bytes(alloc, name, time_of(&metadata), Content::Other),
        Err(_) => without_bytes(alloc, name, 0, Content::Unread),
    }
}

/// What stands in a folder of the system, in any order. A name that is no UTF-8 is given as one without bytes that can't be read.
pub fn read_folder(rt: &HostRuntime, path: &str) -> io::Result<Vec<Found>> {
    let mut all = Vec::new(rt.alloc());
    for entry in fs::read_dir(rt, path)? {
        let one = match entry {
            Ok(entry) => found(rt, entry.path().as_str(), entry.file_name())?,
            Err(error) if error.kind() == ErrorKind::InvalidFilename => {
                without_bytes(rt.alloc(), "", 0, Content::Unread)?
            }
            Err(error) => return Err(error),
        };
        all.push(one)?;
    }
    Ok(all)
}
