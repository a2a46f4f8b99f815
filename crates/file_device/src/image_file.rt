// The calls of the system on an image's file. Each function here makes one of them and notes it: a read of several sectors as a read of each, and the zeros of
// a file that grows as its length. That it makes the call which it notes, no clause can say: so each is short, and tests on a real file hold it.
ghost use Rattle.std.specs.Prelude.{◌≡◌, ◌*◌, ◌+◌, ◌<◌, ◌^◌, [], ◌∷◌, IfOk, OnOk, length};
ghost use Rattle.sector_device.specs.Sizes.{sector_size};
ghost use Rattle.file_device.specs.FileCalls.{noted, noted_page, page_calls, read_calls};
ghost use Rattle.file_device.specs.declared.file_call.FileCall.TheVariants.{Open, OpenToRead, Create, Lock, SetLength, Sync, DropCache, ReadAhead, Length, Write, FailedWrite, FailedSync};

use crate::FileCall;
use crate::record::Record;
use sector_device::{PAGE_SIZE, SECTOR_SIZE, sector_of};
use std::fs::{File, Files};
use std::io;
use std::os::fd::AsRawFd;
use std::os::unix::fs::FileExt;

/// How many zeros are written by one call.
const ZEROS: usize = 65_536;

/// A file, and the calls that were made of it since it was opened.
#[derive(Drop)]
pub(crate) struct ImageFile {
    file: File,
    made: Record,
}

/// Where a sector begins, in bytes.
fn offset_of(n: u64) -> u64
    ensures { n < 2 ^ 55 → result ≡ sector_size * n }
{
    n.saturating_mul(SECTOR_SIZE as u64)
}

/// Notes a read of each of these sectors, from this one on.
fn note_reads(made: &mut Record, first: u64, sectors: &[[u8; SECTOR_SIZE]])
    requires { first + length sectors.now < 2 ^ 64 }
    ensures { made.new.calls ≡ read_calls first sectors.now made.old.calls }
{
    let mut n = first;
    for bytes in sectors {
        made.note(FileCall::Read(n, *bytes));
        n += 1;
    }
}

/// Notes a write of each sector of a page.
fn note_written(made: &mut Record, n: u32, bytes: &[u8; PAGE_SIZE])
    ensures { made.new.calls ≡ page_calls Write (8 * n) bytes.now 8 made.old.calls }
{
    let first = 8 * n as u64;
    for k in 0..8 {
        made.note(FileCall::Write(first + k as u64, sector_of(bytes, k)));
    }
}

/// Notes a write of each sector of a page, of which nobody knows whether it was done.
fn note_failed(made: &mut Record, n: u32, bytes: &[u8; PAGE_SIZE])
    ensures { made.new.calls ≡ page_calls FailedWrite (8 * n) bytes.now 8 made.old.calls }
{
    let first = 8 * n as u64;
    for k in 0..8 {
        made.note(FileCall::FailedWrite(first + k as u64, sector_of(bytes, k)));
    }
}

impl ImageFile {
    /// Opens a file for reads and writes.
    pub(crate) fn open<R: Files<File = File>>(rt: &R, path: &str) -> io::Result<ImageFile>
        ensures { IfOk result (λ file. file.made.calls ≡ Open ∷ []) }
    {
        let file = File::options().read(true).write(true).open(rt, path)?;
        let mut made = Record::new();
        made.note(FileCall::Open);
        Ok(ImageFile { file, made })
    }

    /// Opens a file for reads alone.
    pub(crate) fn open_to_read<R: Files<File = File>>(rt: &R, path: &str) -> io::Result<ImageFile>
        ensures { IfOk result (λ file. file.made.calls ≡ OpenToRead ∷ []) }
    {
        let file = File::options().read(true).open(rt, path)?;
        let mut made = Record::new();
        made.note(FileCall::OpenToRead);
        Ok(ImageFile { file, made })
    }

    /// The same as `open` of a file that is made where it isn't there.
    pub(crate) fn create<R: Files<File = File>>(rt: &R, path: &str) -> io::Result<ImageFile>
        ensures { IfOk result (λ file. file.made.calls ≡ Create ∷ []) }
    {
        let file = File::options()
            .read(true)
            .write(true)
            .create(true)
            .open(rt, path)?;
        let mut made = Record::new();
        made.note(FileCall::Create);
        Ok(ImageFile { file, made })
    }

    /// Locks the file for this opening alone. It doesn't wait.
    pub(crate) fn lock(&mut self) -> io::Result<()>
        ensures { OnOk result (self.new.made.calls ≡ Lock ∷ self.old.made.calls) }
    {
        self.file.try_lock()?;
        self.made.note(FileCall::Lock);
        Ok(())
    }

    /// Cuts the file to so many bytes, or fills it up with zeros. These are written, so that a disk which has no room for them says so here.
    pub(crate) fn set_length(&mut self, bytes: u64) -> io::Result<()>
        ensures { OnOk result (self.new.made.calls ≡ SetLength bytes ∷ self.old.made.calls) }
    {
        let length = self.file.metadata()?.len();
        self.write_zeros(length, bytes)?;
        self.file.set_len(bytes)?;
        self.made.note(FileCall::SetLength(bytes));
        Ok(())
    }

    /// Writes zeros from one place to another; none where that isn't behind it.
    fn write_zeros(&self, from: u64, to: u64) -> io::Result<()> {
        let zeros = [0; ZEROS];
        let mut at = from;
        while at < to {
            let count = (to - at).min(ZEROS as u64);
            self.file.write_all_at(&zeros[..count as usize], at)?;
            at += count;
        }
        Ok(())
    }

    /// Makes sure of the file and of its length.
    pub(crate) fn sync_all(&mut self) -> io::Result<()>
        ensures { OnOk result (self.new.made.calls ≡ Sync ∷ self.old.made.calls) }
    {
        self.file.sync_all()?;
        self.made.note(FileCall::Sync);
        Ok(())
    }

    /// Has the system let go of the pages that it keeps of the file in memory.
    pub(crate) fn drop_cache(&mut self) -> io::Result<()>
        ensures { OnOk result (self.new.made.calls ≡ DropCache ∷ self.old.made.calls) }
    {
        self.advise(libc::POSIX_FADV_DONTNEED)?;
        self.made.note(FileCall::DropCache);
        Ok(())
    }

    /// Has the system read the file into its memory, by and by.
    pub(crate) fn read_ahead(&mut self) -> io::Result<()>
        ensures { OnOk result (self.new.made.calls ≡ ReadAhead ∷ self.old.made.calls) }
    {
        self.advise(libc::POSIX_FADV_WILLNEED)?;
        self.made.note(FileCall::ReadAhead);
        Ok(())
    }

    /// Says to the system what will be done with the whole file.
    fn advise(&self, advice: i32) -> io::Result<()> {
        let status = libc::posix_fadvise(self.file.as_raw_fd(), 0, 0, advice);
        if status != 0 {
            return Err(io::Error::from_raw_os_error(status));
        }
        Ok(())
    }

    /// The length of the file, in bytes.
    pub(crate) fn length(&mut self) -> io::Result<u64>
        ensures { IfOk result (λ bytes. self.new.made.calls ≡ Length bytes ∷ self.old.made.calls) }
    {
        let bytes = self.file.metadata()?.len();
        self.made.note(FileCall::Length(bytes));
        Ok(bytes)
    }

    /// Reads sectors into the room by one call, from this one on, as many as it has room for. A read of each is noted.
    pub(crate) fn read(&mut self, first: u64, room: &mut [[u8; SECTOR_SIZE]]) -> io::Result<()>
        requires { first + length room.old < 2 ^ 64 }
        ensures length { length room.new ≡ length room.old }
        ensures noted { OnOk result (self.new.made.calls ≡ read_calls first room.new self.old.made.calls) }
    {
        self.file
            .read_exact_at(room.as_flattened_mut(), offset_of(first))?;
        note_reads(&mut self.made, first, room);
        Ok(())
    }

    /// Writes a page by one call. A write of each of its sectors is noted. It takes no memory.
    pub(crate) fn write_page(&mut self, n: u32, bytes: &[u8; PAGE_SIZE]) -> io::Result<()>
        ensures { self.new.made.calls ≡ noted_page result n bytes.now self.old.made.calls }
    {
        let answer = self.file.write_all_at(bytes, offset_of(8 * n as u64));
        match answer {
            Ok(()) => note_written(&mut self.made, n, bytes),
            Err(_) => note_failed(&mut self.made, n, bytes),
        }
        answer
    }

    /// Writes a sector. It takes no memory.
    pub(crate) fn write(&mut self, n: u64, bytes: &[u8; SECTOR_SIZE]) -> io::Result<()>
        ensures { self.new.made.calls ≡ noted result (Write n bytes.now) (FailedWrite n bytes.now) ∷ self.old.made.calls }
    {
        let answer = self.file.write_all_at(bytes, offset_of(n));
        match answer {
            Ok(()) => self.made.note(FileCall::Write(n, *bytes)),
            Err(_) => self.made.note(FileCall::FailedWrite(n, *bytes)),
        }
        answer
    }

    /// Makes sure of what was written. It takes no memory.
    pub(crate) fn sync(&mut self) -> io::Result<()>
        ensures { self.new.made.calls ≡ noted result Sync FailedSync ∷ self.old.made.calls }
    {
        let answer = self.file.sync_data();
        match answer {
            Ok(()) => self.made.note(FileCall::Sync),
            Err(_) => self.made.note(FileCall::FailedSync),
        }
        answer
    }
}
