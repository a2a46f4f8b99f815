// What a disk in memory was asked for.
use crate::SECTOR_SIZE;

/// A call that a disk in memory keeps.
#[derive(Clone, Copy, Debug)]
pub enum Call {
    /// The sector of this number was written.
    Write(u64, [u8; SECTOR_SIZE]),
    /// All that was written was made sure of.
    Sync,
}
