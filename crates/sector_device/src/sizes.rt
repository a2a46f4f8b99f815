// The sizes of a disk.

/// How many bytes a sector has.
pub const SECTOR_SIZE: usize = 512;

/// How many bytes a page has: eight sectors.
pub const PAGE_SIZE: usize = 4096;
