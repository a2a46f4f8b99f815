// Callers over a device that lies.
ghost use Rattle.std.specs.Prelude.{◌≡◌, IfOk};

use crate::made;
use crate::trouble::Trouble;
use page_store::{NewPage, Root, Slot, commit_pages, read_page, switch_root};
use sector_device::{LieDisk, MemDisk, PAGE_SIZE, SECTOR_SIZE, store};
use std::alloc::Global;

/// What the same caller reads behind its write of sevens over an honest device, and behind that of eights over one whose reads of that sector give nines.
pub fn stored_and_told(alloc: Global) -> Result<[[u8; SECTOR_SIZE]; 2], Trouble> {
    let mut disk = MemDisk::new(alloc, 2)?;
    let stored = store(&mut disk, 1, &[7; SECTOR_SIZE])?;
    let mut lying = LieDisk::new(disk, 0, 1, [9; SECTOR_SIZE]);
    let lie = store(&mut lying, 1, &[8; SECTOR_SIZE])?;
    Ok([stored, lie])
}

/// The slot of a generation, without pairs.
fn slot(number: u32, seal: u64) -> Result<Slot, Trouble>
    ensures { IfOk result (λ slot. slot.number ≡ number) }
{
    let banner = made::banner(b"localhost", 7070, b"Ada <ada@localhost>").ok_or(Trouble::Line)?;
    let root = Root {
        pages: 16,
        tree: 2,
        height: 0,
        keys: 0,
        banner,
    };
    Ok(Slot { number, seal, root })
}

/// What stands in pages 1, 0 and 5 once a root is switched to slot 1, and a commit of page 5 goes to slot 0, over a device that promises nothing.
pub fn switched(alloc: Global) -> Result<[[u8; PAGE_SIZE]; 3], Trouble> {
    let mut lying = LieDisk::new(MemDisk::new(alloc, 128)?, 0, 0, [9; SECTOR_SIZE]);
    switch_root(&mut lying, &slot(1, 1)?, &[1; PAGE_SIZE])?;
    let page = NewPage {
        number: 5,
        bytes: [5; PAGE_SIZE],
    };
    commit_pages(&mut lying, &[page], &slot(0, 2)?, &[2; PAGE_SIZE])?;
    let mut inner = lying.into_inner();
    let mut pages = [[0; PAGE_SIZE]; 3];
    read_page(&mut inner, 1, &mut pages[0])?;
    read_page(&mut inner, 0, &mut pages[1])?;
    read_page(&mut inner, 5, &mut pages[2])?;
    Ok(pages)
}
