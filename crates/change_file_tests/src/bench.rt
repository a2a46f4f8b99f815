// A file of changes, line by line, and what is called of it.
ghost use Rattle.std.specs.Prelude.{◌≡◌};

use crate::shown::Shown;
use change_file::{FileChange, Progress, SeenLog, apply_changes, read_changes};
use host_types::{Admin, Host, Refused, Stamp, Title};
use mem_site::MemSite;
use std::alloc::{AllocError, Global};

/// The change that was seen last, and of how many.
#[derive(Drop)]
struct Seen {
    number: u64,
    count: u64,
    log: SeenLog,
}

impl Progress for Seen {
    ghost seen = { λ seen. seen.log.changes };

    fn made(&mut self, number: u64, count: u64) {
        self.log.note(number, count);
        self.number = number;
        self.count = count;
    }
}

/// The lines of a file so far.
#[derive(Drop)]
pub(crate) struct Bench {
    alloc: Global,
    file: Vec<u8>,
}

/// `localhost`, port 7070, with an empty top menu titled `Top`.
fn new_site(alloc: Global) -> Result<Result<MemSite, Refused>, AllocError> {
    let site = match (
        Host::new(b"localhost"),
        Admin::new(b"Ada <ada@localhost>"),
        Title::new(b"Top"),
    ) {
        (Ok(host), Ok(admin), Ok(title)) => {
            MemSite::new(alloc, host, 7070, admin, title, Stamp::start())?
        }
        _ => return Ok(Err(Refused::BadName)),
    };
    Ok(Ok(site))
}

fn show_site(shown: &mut Shown, site: &MemSite) -> Result<(), AllocError> {
    for (selector, item) in site.items() {
        shown.word("\n")?;
        shown.word("item")?;
        shown.bytes(selector.as_bytes())?;
        shown.item(item)?;
    }
    Ok(())
}

impl Bench {
    pub fn new(alloc: Global) -> Bench {
        Bench {
            alloc,
            file: Vec::new(alloc),
        }
    }

    /// One line more.
    pub fn add(&mut self, line: &str) -> Result<(), AllocError> {
        self.file.extend_from_slice(line.as_bytes())?;
        self.file.push(b'\n')?;
        Ok(())
    }

    /// The changes of the file, or what is printed of its fault.
    fn changes(&self) -> Result<Result<Vec<FileChange>, String>, AllocError> {
        match read_changes(self.alloc, self.file.as_slice()) {
            Ok(changes) => Ok(Ok(changes)),
            Err(fault) => Ok(Err(format!(in self.alloc; "file: {fault}")?)),
        }
    }

    fn read(&self) -> Result<String, AllocError> {
        let changes = match self.changes()? {
            Ok(changes) => changes,
            Err(fault) => return Ok(fault),
        };
        let mut shown = Shown::new(self.alloc);
        let count = format!(in self.alloc; "{} changes", changes.len())?;
        shown.word(count.as_str())?;
        for change in &changes {
            shown.word("\n")?;
            shown.change(change)?;
        }
        Ok(shown.text)
    }

    fn apply(&self, now: Stamp) -> Result<String, AllocError> {
        let changes = match self.changes()? {
            Ok(changes) => changes,
            Err(fault) => return Ok(fault),
        };
        let mut site = match new_site(self.alloc)? {
            Ok(site) => site,
            Err(refused) => return format!(in self.alloc; "{refused}"),
        };
        let mut shown = Shown::new(self.alloc);
        let mut seen = Seen {
            number: 0,
            count: 0,
            log: SeenLog::new(),
        };
        let ended = match apply_changes(&mut site, changes, now, &mut seen) {
            Ok(count) => format!(in self.alloc; "applied {count}")?,
            Err(fault) => format!(in self.alloc; "{fault}")?,
        };
        shown.word(ended.as_str())?;
        let last = format!(in self.alloc; "\nseen {} of {}", seen.number, seen.count)?;
        shown.word(last.as_str())?;
        show_site(&mut shown, &site)?;
        Ok(shown.text)
    }

    /// What is printed of a call, behind which a new file begins.
    pub fn call(&mut self, call: &str) -> Result<String, AllocError> {
        let fields: Vec<&str> = call.split(' ').collect(self.alloc)?;
        let shown = match fields.as_slice() {
            ["read"] => self.read()?,
            ["apply", seconds] => match Stamp::new(seconds.parse::<u64>().unwrap_or(0)) {
                Ok(now) => self.apply(now)?,
                Err(refused) => format!(in self.alloc; "{refused}")?,
            },
            ["bytes", digits] => {
                self.file = match hex::decode(self.alloc, digits.as_bytes()) {
                    Ok(bytes) => bytes,
                    Err(_) => return String::from_str(self.alloc, "digits"),
                };
                self.read()?
            }
            _ => String::from_str(self.alloc, "call")?,
        };
        self.file.clear();
        Ok(shown)
    }
}
