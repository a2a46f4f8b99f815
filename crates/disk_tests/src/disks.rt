// Disks in memory: what a crash leaves of them, and images on them.
use crate::devices;
use crate::line::{Line, number, small_number};
use crate::made::{banner, make_site};
use crate::trouble::Trouble;
use page_store::{Banner, Pair, format_flat};
use sector_device::{Call, MemDisk, SECTOR_SIZE};
use std::alloc::Global;

/// How many writes a disk took since its last sync.
pub fn unsynced(disk: &MemDisk) -> usize {
    let mut count = 0usize;
    for call in disk.writes_and_syncs() {
        match call {
            Call::Write(_, _) => count = count.saturating_add(1),
            Call::Sync => count = 0,
        }
    }
    count
}

/// What a crash leaves where these of the writes since the last sync are on the disk.
pub fn left_of(
    alloc: Global,
    disk: &MemDisk,
    fields: &[Vec<u8>],
) -> Result<Vec<[u8; SECTOR_SIZE]>, Trouble> {
    let mut picks = Vec::new(alloc);
    for field in fields {
        picks.push(number(field)? as usize)?;
    }
    Ok(disk.after_stop(alloc, &picks)?)
}

/// `left WRITE ..`: the number and the bytes of each sector that is not all zeros.
fn show_left(
    alloc: Global,
    line: &mut Line,
    disk: &MemDisk,
    fields: &[Vec<u8>],
) -> Result<(), Trouble> {
    for (n, sector) in left_of(alloc, disk, fields)?.iter().enumerate() {
        if *sector != [0; SECTOR_SIZE] {
            line.number(n as u64)?;
            line.bytes(sector)?;
        }
    }
    Ok(())
}

/// Puts bytes at a place of a sector. The bytes from before are shown.
fn set_part(
    line: &mut Line,
    sector: &mut [u8; SECTOR_SIZE],
    place: usize,
    bytes: &[u8],
) -> Result<(), Trouble> {
    if place > SECTOR_SIZE || bytes.len() > SECTOR_SIZE - place {
        return Err(Trouble::Line);
    }
    let part = &mut sector[place..place + bytes.len()];
    line.bytes(part)?;
    part.copy_from_slice(bytes);
    Ok(())
}

/// `set SECTOR PLACE BYTES`: a disk with these bytes there.
fn set(
    alloc: Global,
    line: &mut Line,
    disk: &mut MemDisk,
    (n, place, bytes): (&[u8], &[u8], &[u8]),
) -> Result<(), Trouble> {
    let mut sectors = disk.after_stop(alloc, &[])?;
    match sectors.get_mut(number(n)? as usize) {
        Some(sector) => set_part(line, sector, number(place)? as usize, bytes)?,
        None => return Err(Trouble::Line),
    }
    *disk = MemDisk::of(alloc, sectors)?;
    Ok(())
}

/// The banner of a host, a port and an administrator.
fn banner_of(fields: &[Vec<u8>]) -> Result<Banner, Trouble> {
    let [host, port, admin] = fields else {
        return Err(Trouble::Line);
    };
    banner(host, small_number(port)?, admin).ok_or(Trouble::Line)
}

/// Makes an image of 16 flat pages, without a pair or with the byte `v` at the key `k`.
#[tactic(auto, unfolding(page_store::specs::Batch::is_value))]
fn make(alloc: Global, disk: &mut MemDisk, banner: Banner, has_pair: bool) -> Result<(), Trouble> {
    if banner.version != 0 || banner.port == 0 {
        return Err(Trouble::Line);
    }
    if has_pair {
        let pair = Pair::from_slices(alloc, b"k", b"v")?;
        return Ok(format_flat(alloc, disk, 16, banner, &[pair])?);
    }
    Ok(format_flat(alloc, disk, 16, banner, &[])?)
}

/// `format HOST PORT ADMIN` and `format_flat HOST PORT ADMIN`
fn make_of(
    alloc: Global,
    disk: &mut MemDisk,
    fields: &[Vec<u8>],
    has_pair: bool,
) -> Result<(), Trouble> {
    make(alloc, disk, banner_of(fields)?, has_pair)
}

/// `make_site PAGES`
fn make_site_of(alloc: Global, disk: &mut MemDisk, pages: &[u8]) -> Result<(), Trouble> {
    Ok(make_site(alloc, disk, u32::from(small_number(pages)?))?)
}

/// `calls`, `failed_writes`, `unsynced` and `left WRITE ..`.
fn looks(
    alloc: Global,
    disk: &MemDisk,
    line: &mut Line,
    word: &str,
    fields: &[Vec<u8>],
) -> Result<(), Trouble> {
    match word {
        "calls" => line.number(disk.calls()),
        "failed_writes" => line.number(disk.failed_writes()),
        "unsynced" => line.number(unsynced(disk) as u64),
        _ => show_left(alloc, line, disk, fields),
    }
}

/// The words of a disk in memory: `set SECTOR PLACE BYTES`, `format HOST PORT ADMIN`, `format_flat HOST PORT ADMIN`, `make_site PAGES` and
/// what only looks at it, and those of any device.
pub fn call(
    alloc: Global,
    disk: &mut MemDisk,
    line: &mut Line,
    word: &str,
    fields: &[Vec<u8>],
) -> Result<(), Trouble> {
    match (word, fields) {
        ("set", [n, place, bytes]) => set(alloc, line, disk, (n, place, bytes)),
        ("format", banner) => make_of(alloc, disk, banner, false),
        ("format_flat", banner) => make_of(alloc, disk, banner, true),
        ("make_site", [pages]) => make_site_of(alloc, disk, pages),
        ("calls" | "failed_writes" | "unsynced" | "left", picks) => looks(
            alloc, disk, line, word, picks,
        ),
        _ => devices::call(disk, line, word, fields),
    }
}
