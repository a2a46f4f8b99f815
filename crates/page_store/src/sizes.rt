// The sizes of what is kept.

/// How many bytes a key has, at most.
pub const LONGEST_KEY: usize = 300;

/// How many bytes a value has, at most.
pub const LONGEST_VALUE: usize = 1024;

/// How many bytes of a root slot's record stand in each of its eight sectors.
pub(crate) const PART_SIZE: usize = 488;

/// How many bytes a root slot's record has.
pub(crate) const RECORD_SIZE: usize = 3904;

/// How many pages an image has, at least.
pub const LEAST_PAGES: u32 = 16;

/// How many pages an image has, at most.
pub const MOST_PAGES: u32 = 65_536;
