// What a file was asked for, and what it answered.
use sector_device::SECTOR_SIZE;

/// A call of a file, with its answer.
#[derive(Clone, Copy, Debug)]
pub enum FileCall {
    /// A file that was there was opened.
    Open,
    /// A file that was there was opened for reads alone.
    OpenToRead,
    /// A file was opened that was there, or else was made.
    Create,
    /// An exclusive lock was taken.
    Lock,
    /// The length was set to so many bytes.
    SetLength(u64),
    /// All that was written was made sure of.
    Sync,
    /// The system let go of the pages that it kept of the file in memory.
    DropCache,
    /// The system was asked to read the file into memory.
    ReadAhead,
    /// The length was asked for, and is so many bytes.
    Length(u64),
    /// The sector of this number was read, and has these bytes.
    Read(u64, [u8; SECTOR_SIZE]),
    /// These bytes were written to the sector of this number.
    Write(u64, [u8; SECTOR_SIZE]),
    /// A write of these bytes to the sector of this number failed: nobody knows whether it was done.
    FailedWrite(u64, [u8; SECTOR_SIZE]),
    /// A sync failed: nobody knows what it made sure of.
    FailedSync,
}
