//! Tests of a file as a device, on real files. Each line of standard input is a call, `WORD FIELD ..`, and what it gave is printed: `ok` and its answer, or
//! `fault` and why it gave none. Empty lines and those that begin with `#` stand for themselves.
//!
//! - `create NAME SECTORS` and `open NAME` open a device, in the place of the one before. `close` lets go of it. `try_create NAME SECTORS` and `try_open
//!   NAME` open a second one beside it, and let go of that at once.
//! - `sectors`, `read N`, `write N FIRST REST`, `sync` and `store N FIRST REST` are the calls of the device. A sector is given by its first byte and by the byte
//!   that the other 511 have. It is printed by runs: `7x512` is a byte of 7, 512 times. `page N FIRST REST` writes a page, that is given so too.
//! - `put NAME BYTE COUNT ..` writes a file of such runs, and `file NAME` prints one, without any device. `folder NAME` makes a folder, and `remove NAME`
//!   takes a file away.
//!
//! A name that begins with `/` is a path, and any other a file in a new folder in `/tmp`, which is removed at the end.
#![tactic(auto)]

mod bench;
mod trouble;

use bench::Bench;
use std::{fs, io};

/// Makes a folder that wasn't there, and gives its path.
fn new_folder(rt: &HostRuntime) -> io::Result<String> {
    for number in 0..1000u32 {
        let path = format!(in rt.alloc(); "/tmp/file_tests.{number}")?;
        match fs::create_dir(rt, path.as_str()) {
            Ok(()) => return Ok(path),
            Err(error) if error.kind() == io::ErrorKind::AlreadyExists => {}
            Err(error) => return Err(error),
        }
    }
    Err(io::ErrorKind::AlreadyExists.into())
}

fn main(rt: HostRuntime) -> io::Result<()> {
    let folder = new_folder(&rt)?;
    let mut bench = Bench::new(&rt, folder.as_str());
    for text in rt.lines(rt.alloc()) {
        let text = text?;
        if text.is_empty() || text.starts_with('#') {
            println!(rt; "{}", text.as_str())?;
            continue;
        }
        let mut shown = String::new(rt.alloc());
        match bench.call(text.as_str(), &mut shown) {
            Ok(()) => println!(rt; "ok{}", shown.as_str())?,
            Err(trouble) => println!(rt; "fault {trouble}")?,
        }
    }
    drop(bench);
    fs::remove_dir_all(&rt, folder.as_str())
}
