// What the lines of a run share, and which call a word names.
use crate::trouble::Trouble;
use file_device::{FileDevice, UsedFiles, what_was_synced_is_found, worked_examples};
use sector_device::{Device, PAGE_SIZE, SECTOR_SIZE, store};
use std::fs;

/// The number that decimal digits write.
fn number(field: &str) -> Result<u64, Trouble> {
    field.parse::<u64>().or(Err(Trouble::Line))
}

fn byte(field: &str) -> Result<u8, Trouble> {
    field.parse::<u8>().or(Err(Trouble::Line))
}

/// A sector of its first byte and of the byte of all others.
fn sector_of(first: &str, rest: &str) -> Result<[u8; SECTOR_SIZE], Trouble> {
    let mut sector = [byte(rest)?; SECTOR_SIZE];
    sector[0] = byte(first)?;
    Ok(sector)
}

/// A page of its first byte and of the byte of all others.
fn page_of(first: &str, rest: &str) -> Result<[u8; PAGE_SIZE], Trouble> {
    let mut page = [byte(rest)?; PAGE_SIZE];
    page[0] = byte(first)?;
    Ok(page)
}

/// Adds a field to what is printed.
fn show(shown: &mut String, field: &str) -> Result<(), Trouble> {
    shown.push(' ')?;
    shown.push_str(field)?;
    Ok(())
}

/// A byte, so many times.
fn show_run(rt: &HostRuntime, shown: &mut String, byte: u8, count: u64) -> Result<(), Trouble> {
    if count == 0 {
        return Ok(());
    }
    let run = format!(in rt.alloc(); "{byte}x{count}")?;
    show(shown, run.as_str())
}

/// Bytes by runs of the same.
fn show_runs(rt: &HostRuntime, shown: &mut String, bytes: &[u8]) -> Result<(), Trouble> {
    let (mut last, mut count) = (0, 0u64);
    for byte in bytes {
        if *byte != last {
            show_run(rt, shown, last, count)?;
            last = *byte;
            count = 0;
        }
        count = count.saturating_add(1);
    }
    show_run(rt, shown, last, count)
}

/// Writes a page.
fn write_page<D: Device>(device: &mut D, n: &str, first: &str, rest: &str) -> Result<(), Trouble> {
    let Ok(n) = u32::try_from(number(n)?) else {
        return Err(Trouble::Line);
    };
    if 8 * n as u64 + 8 > device.sectors() {
        return Err(Trouble::Line);
    }
    Ok(device.write_page(n, &page_of(first, rest)?)?)
}

/// The calls of a device.
fn call_device<D: Device>(
    rt: &HostRuntime,
    device: &mut D,
    fields: &[&str],
    shown: &mut String,
) -> Result<(), Trouble> {
    match fields {
        ["sectors"] => {
            let count = format!(in rt.alloc(); "{}", device.sectors())?;
            show(shown, count.as_str())
        }
        ["sync"] => Ok(device.sync()?),
        ["page", n, first, rest] => write_page(device, n, first, rest),
        [word, n, rest @ ..] => call_sector(rt, device, word, number(n)?, rest, shown),
        _ => Err(Trouble::Line),
    }
}

/// The calls of one sector.
fn call_sector<D: Device>(
    rt: &HostRuntime,
    device: &mut D,
    word: &str,
    n: u64,
    fields: &[&str],
    shown: &mut String,
) -> Result<(), Trouble> {
    if n >= device.sectors() {
        return Err(Trouble::Line);
    }
    match (word, fields) {
        ("read", []) => {
            let mut buffer = [0; SECTOR_SIZE];
            device.read(n, &mut buffer)?;
            show_runs(rt, shown, &buffer)
        }
        ("write", [first, rest]) => Ok(device.write(n, &sector_of(first, rest)?)?),
        ("store", [first, rest]) => {
            let read = store(device, n, &sector_of(first, rest)?)?;
            show_runs(rt, shown, &read)
        }
        _ => Err(Trouble::Line),
    }
}

/// The folder of the files, and the device that is open.
#[derive(Drop)]
pub(crate) struct Bench<'a> {
    rt: &'a HostRuntime,
    folder: &'a str,
    used: UsedFiles<'a, HostRuntime>,
    held: Option<FileDevice>,
}

impl<'a> Bench<'a> {
    pub fn new(rt: &'a HostRuntime, folder: &'a str) -> Bench<'a> {
        Bench {
            rt,
            folder,
            used: UsedFiles::new(rt),
            held: None,
        }
    }

    /// The path of a name.
    fn path(&self, name: &str) -> Result<String, Trouble> {
        if name.starts_with('/') {
            return Ok(format!(in self.rt.alloc(); "{name}")?);
        }
        Ok(format!(in self.rt.alloc(); "{}/{name}", self.folder)?)
    }

    /// `put NAME BYTE COUNT ..`
    fn put(&self, name: &str, runs: &[&str]) -> Result<(), Trouble> {
        let mut bytes = Vec::new(self.rt.alloc());
        for run in runs.chunks(2) {
            let [of, count] = run else {
                return Err(Trouble::Line);
            };
            let of = byte(of)?;
            for _ in 0..number(count)? {
                bytes.push(of)?;
            }
        }
        Ok(fs::write(self.rt, self.path(name)?.as_str(), bytes.as_slice())?)
    }

    /// What needs no device.
    fn call_files(&self, fields: &[&str], shown: &mut String) -> Result<(), Trouble> {
        match fields {
            ["put", name, runs @ ..] => self.put(name, runs),
            ["file", name] => {
                let bytes = fs::read(self.rt, self.path(name)?.as_str())?;
                show_runs(self.rt, shown, bytes.as_slice())
            }
            ["folder", name] => Ok(fs::create_dir(self.rt, self.path(name)?.as_str())?),
            ["remove", name] => Ok(fs::remove_file(self.rt, self.path(name)?.as_str())?),
            ["laws"] => {
                worked_examples();
                what_was_synced_is_found();
                Ok(())
            }
            _ => Err(Trouble::Line),
        }
    }

    fn opened(&mut self, name: &str) -> Result<FileDevice, Trouble> {
        let path = self.path(name)?;
        Ok(self.used.open(path.as_str())?)
    }

    fn created(&mut self, name: &str, sectors: &str) -> Result<FileDevice, Trouble> {
        let path = self.path(name)?;
        Ok(self.used.create(path.as_str(), number(sectors)?)?)
    }

    /// Lets go of the device that is open.
    fn close(&mut self) {
        if let Some(device) = self.held.take() {
            self.used.close(device);
        }
    }

    /// Makes the call of a line, and adds its answer.
    pub fn call(&mut self, text: &str, shown: &mut String) -> Result<(), Trouble> {
        let fields: Vec<&str> = text.split(' ').collect(self.rt.alloc())?;
        match fields.as_slice() {
            ["open", name] => {
                self.close();
                self.held = Some(self.opened(name)?);
                Ok(())
            }
            ["create", name, sectors] => {
                self.close();
                self.held = Some(self.created(name, sectors)?);
                Ok(())
            }
            ["close"] => {
                self.close();
                Ok(())
            }
            ["try_open", name] => {
                let device = self.opened(name)?;
                self.used.close(device);
                Ok(())
            }
            ["try_create", name, sectors] => {
                let device = self.created(name, sectors)?;
                self.used.close(device);
                Ok(())
            }
            ["put" | "file" | "folder" | "remove" | "laws", ..] => self.call_files(&fields, shown),
            _ => match &mut self.held {
                Some(device) => call_device(self.rt, device, &fields, shown),
                None => Err(Trouble::Line),
            },
        }
    }
}
