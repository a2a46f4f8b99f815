// Sectors, pages and roots of a device.
use crate::line::{Line, copy, small_number};
use crate::trouble::Trouble;
use page_store::{
    Banner, NewPage, Roots, Slot, open_roots, read_page, read_sector, sync_all, write_page,
    write_pages,
};
use sector_device::{Device, DeviceFault, PAGE_SIZE, SECTOR_SIZE};

/// What a call of a device comes to.
fn reported(ended: Result<(), DeviceFault>) -> Result<(), Trouble> {
    Ok(ended?)
}

/// The words of one sector.
fn of_sector<D: Device>(
    device: &mut D,
    word: &str,
    n: u64,
    sector: &mut [u8; SECTOR_SIZE],
) -> Result<(), Trouble> {
    if n >= device.sectors() {
        return Err(Trouble::Line);
    }
    match word {
        "read" => reported(device.read(n, sector)),
        "write" => reported(device.write(n, sector)),
        "read_sector" => reported(read_sector(device, n, sector)),
        _ => Err(Trouble::Line),
    }
}

/// The words of one page.
fn of_page<D: Device>(
    device: &mut D,
    word: &str,
    number: u32,
    page: &mut [u8; PAGE_SIZE],
) -> Result<(), Trouble> {
    if 8 * u64::from(number) + 8 > device.sectors() {
        return Err(Trouble::Line);
    }
    match word {
        "read_page" => reported(read_page(device, number, page)),
        "write_page" => reported(write_page(device, number, page)),
        _ => {
            let bytes = *page;
            reported(write_pages(device, &[NewPage { number, bytes }]))
        }
    }
}

/// Version, host, port and administrator.
pub fn show_banner(line: &mut Line, banner: &Banner) -> Result<(), Trouble> {
    line.number(u64::from(banner.version))?;
    line.bytes(banner.host.as_bytes())?;
    line.number(u64::from(banner.port))?;
    line.bytes(banner.admin.as_bytes())
}

/// Of the current slot its number, its generation, its first page of pairs and its banner.
fn show_slot(line: &mut Line, slot: &Slot) -> Result<(), Trouble> {
    line.number(u64::from(slot.number))?;
    line.number(slot.seal)?;
    line.number(u64::from(slot.root.tree))?;
    show_banner(line, &slot.root.banner)
}

/// `roots`: the greatest generation, and the current slot.
fn show_roots<D: Device>(device: &mut D, line: &mut Line) -> Result<(), Trouble> {
    if device.sectors() < 16 {
        return Err(Trouble::Line);
    }
    let Roots { current, greatest } = open_roots(device)?;
    line.number(greatest)?;
    match &current {
        Some(slot) => show_slot(line, slot),
        None => line.word("none"),
    }
}

/// The words without a field.
fn of_device<D: Device>(device: &mut D, line: &mut Line, word: &str) -> Result<(), Trouble> {
    match word {
        "sectors" => line.number(device.sectors()),
        "sync" => reported(device.sync()),
        "sync_all" => reported(sync_all(device)),
        "roots" => show_roots(device, line),
        _ => Err(Trouble::Line),
    }
}

/// The words of a sector with bytes, which zeros follow. What is read is shown.
fn on_sector<D: Device>(
    device: &mut D,
    line: &mut Line,
    word: &str,
    n: &[u8],
    bytes: &[u8],
) -> Result<(), Trouble> {
    let mut sector = [0; SECTOR_SIZE];
    copy(&mut sector, bytes);
    of_sector(device, word, u64::from(small_number(n)?), &mut sector)?;
    match word.starts_with("read") {
        true => line.bytes(&sector),
        false => Ok(()),
    }
}

/// The same of a page.
fn on_page<D: Device>(
    device: &mut D,
    line: &mut Line,
    word: &str,
    n: &[u8],
    bytes: &[u8],
) -> Result<(), Trouble> {
    let mut page = [0; PAGE_SIZE];
    copy(&mut page, bytes);
    of_page(device, word, u32::from(small_number(n)?), &mut page)?;
    match word.starts_with("read") {
        true => line.bytes(&page),
        false => Ok(()),
    }
}

/// The words with the number of a sector or of a page.
fn of_number<D: Device>(
    device: &mut D,
    line: &mut Line,
    word: &str,
    n: &[u8],
    bytes: &[u8],
) -> Result<(), Trouble> {
    match word {
        "read_page" | "write_page" | "write_pages" => on_page(device, line, word, n, bytes),
        _ => on_sector(device, line, word, n, bytes),
    }
}

/// `sectors`, `sync`, `sync_all`, `roots`; `read N`, `read_sector N`, `read_page N`; `write N BYTES`,
/// `write_page N BYTES` and `write_pages N BYTES`.
pub fn call<D: Device>(
    device: &mut D,
    line: &mut Line,
    word: &str,
    fields: &[Vec<u8>],
) -> Result<(), Trouble> {
    match fields {
        [] => of_device(device, line, word),
        [n] => of_number(device, line, word, n, b""),
        [n, bytes] => of_number(device, line, word, n, bytes),
        _ => Err(Trouble::Line),
    }
}
