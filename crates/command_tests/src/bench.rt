// The disk, and which call a line names.
ghost use Rattle.std.specs.Prelude.{◌≤◌};

use crate::changes::{change_of, unescaped};
use crate::faults::{all_fault_texts, fault_text};
use crate::trouble::Trouble;
use host_on_disk::open_site;
use host_types::{SiteKeeper, Stamp};
use image_commands::{
    ImageFault, ListForm, SiteNames, check_image, format_image, formatted_line, sectors_of,
    show_image,
};
use page_store::{Banner, format_flat};
use sector_device::{Device, MemDisk, SECTOR_SIZE};
use std::alloc::{AllocError, Global};

/// 28 July 1993, 17:02:01.
const EVENING: u64 = 743_878_921;

/// The number that decimal digits write.
fn number(field: &str) -> Result<u32, Trouble> {
    field.parse::<u32>().or(Err(Trouble::Line))
}

/// A port that clients can connect to.
fn port_of(field: &str) -> Result<u16, Trouble> {
    match field.parse::<u16>() {
        Ok(port) if port > 0 => Ok(port),
        _ => Err(Trouble::Line),
    }
}

/// Puts a number at a place of a sector, the highest byte first.
fn put_number(sector: &mut [u8; SECTOR_SIZE], at: usize, number: u64)
    requires { at ≤ 504 }
{
    sector[at..at + 8].copy_from_slice(&number.to_be_bytes());
}

/// Writes a sector of the second root slot: that of the first, with its own number and this seal.
fn seal_sector(disk: &mut MemDisk, n: u64, seal: u64) -> Result<(), Trouble> {
    if n >= disk.sectors() || n < 8 {
        return Err(Trouble::Line);
    }
    let mut sector = [0; SECTOR_SIZE];
    disk.read(n - 8, &mut sector)?;
    put_number(&mut sector, 8, n);
    put_number(&mut sector, 16, seal);
    Ok(disk.write(n, &sector)?)
}

fn seal_all(disk: &mut MemDisk, seal: u64) -> Result<(), Trouble> {
    for n in 8..16u64 {
        seal_sector(disk, n, seal)?;
    }
    Ok(disk.sync()?)
}

/// A disk, on which the commands are tried.
#[derive(Drop)]
pub(crate) struct Bench {
    alloc: Global,
    disk: MemDisk,
    now: Stamp,
}

impl Bench {
    pub fn new(alloc: Global) -> Result<Bench, AllocError> {
        Ok(Bench {
            alloc,
            disk: MemDisk::new(alloc, 0)?,
            now: Stamp::new(EVENING).unwrap_or(Stamp::start()),
        })
    }

    /// The disk, in whose place is one of no sectors.
    fn taken(&mut self) -> Result<MemDisk, Trouble> {
        let none = MemDisk::new(self.alloc, 0)?;
        Ok(std::mem::replace(&mut self.disk, none))
    }

    fn format(&mut self, pages: u32, names: SiteNames, port: u16) -> Result<String, Trouble> {
        if port == 0 {
            return Err(Trouble::Line);
        }
        format_image(self.alloc, &mut self.disk, pages, names, port, self.now)?;
        Ok(formatted_line(self.alloc, pages)?)
    }

    /// Makes an image of flat pages, without pairs.
    fn format_flat(&mut self, pages: u32, names: SiteNames, port: u16) -> Result<String, Trouble> {
        if port == 0 {
            return Err(Trouble::Line);
        }
        let SiteNames {
            host,
            admin,
            title: _,
        } = names;
        let banner = Banner {
            version: 0,
            host,
            port,
            admin,
        };
        format_flat(self.alloc, &mut self.disk, pages, banner, &[])?;
        Ok(formatted_line(self.alloc, pages)?)
    }

    fn show(&mut self) -> Result<String, Trouble> {
        let disk = self.taken()?;
        match show_image(self.alloc, disk, ListForm::Short) {
            Ok((text, disk)) => {
                self.disk = disk;
                let text = std::str::from_utf8(&text).unwrap_or("no text");
                Ok(String::from_str(self.alloc, text.trim_end_matches('\n'))?)
            }
            Err((fault, disk)) => {
                self.disk = disk;
                Err(Trouble::Fault(fault))
            }
        }
    }

    fn check(&mut self) -> Result<String, Trouble> {
        let disk = self.taken()?;
        match check_image(self.alloc, disk) {
            Ok((line, disk)) => {
                self.disk = disk;
                Ok(line)
            }
            Err((fault, disk)) => {
                self.disk = disk;
                Err(Trouble::Fault(fault))
            }
        }
    }

    /// Makes the change of a line, over the disk that is opened for it.
    fn change(&mut self, fields: &[&str]) -> Result<String, Trouble> {
        let change = change_of(self.alloc, self.now, fields)?;
        let disk = self.taken()?;
        let mut site = match open_site(self.alloc, disk) {
            Ok(site) => site,
            Err((fault, disk)) => {
                self.disk = disk;
                return Err(Trouble::Fault(ImageFault::from(fault)));
            }
        };
        let done = site.change(change, self.now);
        self.disk = site.into_keeper().into_device();
        done?;
        Ok(String::from_str(self.alloc, "ok")?)
    }

    fn names(&self, host: &str, admin: &str, title: &str) -> Result<SiteNames, Trouble> {
        let host = unescaped(self.alloc, host)?;
        let admin = unescaped(self.alloc, admin)?;
        let title = unescaped(self.alloc, title)?;
        Ok(SiteNames::new(&host, &admin, &title)?)
    }

    fn call(&mut self, fields: &[&str]) -> Result<String, Trouble> {
        match fields {
            ["disk", sectors] => {
                self.disk = MemDisk::new(self.alloc, number(sectors)? as usize)?;
                Ok(String::from_str(self.alloc, "ok")?)
            }
            ["format", pages, host, port, admin, title] => {
                let names = self.names(host, admin, title)?;
                self.format(number(pages)?, names, port_of(port)?)
            }
            ["format_flat", pages, host, port, admin, title] => {
                let names = self.names(host, admin, title)?;
                self.format_flat(number(pages)?, names, port_of(port)?)
            }
            ["size", pages] => {
                let sectors = sectors_of(number(pages)?)?;
                Ok(format!(in self.alloc; "{sectors}")?)
            }
            ["seal", seal] => {
                seal_all(&mut self.disk, u64::from(number(seal)?))?;
                Ok(String::from_str(self.alloc, "ok")?)
            }
            ["show"] => self.show(),
            ["check"] => self.check(),
            ["faults"] => Ok(all_fault_texts(self.alloc)?),
            _ => self.change(fields),
        }
    }

    /// What the call of a line printed, or the line of its fault.
    pub fn answer(&mut self, text: &str) -> Result<String, AllocError> {
        let fields: Vec<&str> = text.split(' ').collect(self.alloc)?;
        match self.call(&fields) {
            Ok(shown) => Ok(shown),
            Err(Trouble::Fault(fault)) => fault_text(self.alloc, fault),
            Err(Trouble::Line) => String::from_str(self.alloc, "line"),
        }
    }
}
