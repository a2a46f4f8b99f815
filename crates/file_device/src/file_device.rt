// A file as a disk of sectors. What the file holds is read once, at its opening, and kept in memory; each write goes to both.
ghost use Rattle.std.specs.Prelude.{◌≡◌, ◌⊎◌, ◌*◌, ◌+◌, ◌<◌, ◌≤◌, ◌^◌, List, false, [], ◌∷◌, IfOk, IfErr, OnOk, OnErr, IsOk, IsTrue, MatchOption, Some, length, slice_get, refl};
ghost use Rattle.sector_device.specs.Sizes.{sector_size};
ghost use Rattle.sector_device.specs.Disk.{written, synced, WriteFailed, SyncFailed};
ghost use Rattle.sector_device.specs.Device.{Elapses};
ghost use Rattle.sector_device.specs.Sectors.{page_of};
ghost use Rattle.sector_device.specs.CallsMade.{CallsMade};
ghost use Rattle.sector_device.specs.DeviceEffects.{WritesDevice};
ghost use Rattle.sector_device.specs.Effects.{ReadOutcome, WriteOutcome, MadeExactly, MadeIfOk};
ghost use Rattle.sector_device.specs.Steps.{crash_states_of, AreWritten, MayBeAllWritten};
ghost use Rattle.sector_device.specs.declared.device.DeviceFault.TheVariants.{Device as Failing, NoFile, Memory};
ghost use Rattle.common_types.specs.Counts.{counted};
ghost use Rattle.file_device.specs.FileCalls.{disk_of, file_state, asked, page_calls, PossibleSince};
ghost use Rattle.file_device.specs.FileCallLaws.{good, only_images, all_images};
ghost use Rattle.file_device.specs.Opening.{AreRead, IsUnread, IsOpened, IsOpenedToRead, IsUnused, Asks, AsksPage};
ghost use Rattle.file_device.specs.declared.file_call.FileCall.{FileCall as CallValue};
ghost use Rattle.file_device.specs.declared.file_call.FileCall.TheVariants.{Open, Create, Lock, SetLength, Sync, DropCache, ReadAhead, Length, Write, FailedWrite, FailedSync};

use crate::image_file::ImageFile;
use sector_device::{CallCounts, CallKind, Device, DeviceFault, PAGE_SIZE, SECTOR_SIZE, sector_of};
use std::alloc::Global;
use std::fs::{File, Files};
use std::io;
use std::marker::Model;

/// How many bytes a sector has.
const SECTOR: u64 = SECTOR_SIZE as u64;

/// How many sectors a page has.
const PAGE_SECTORS: usize = 8;

/// How many sectors an opening reads by one call: 1 MB.
const PIECE: usize = 2048;

/// A file as a disk. Its length div 512 is its count of sectors.
#[derive(Drop)]
pub struct FileDevice {
    /// By which it was opened.
    path: String,
    file: ImageFile,
    view: Vec<[u8; SECTOR_SIZE]>,
    /// No write and no sync has failed. Once one has, the file is asked for nothing more, since the system may have dropped what was written.
    is_sound: bool,
    failed_writes: u64,
    /// The calls of the device, and not those of its file.
    made: CallCounts,
}

impl Model for FileDevice {
    ghost use Rattle.std.specs.String.{string_bytes};
    ghost use Rattle.file_device.specs.FileCalls.{FileHistory, IsCopy};

    ghost Value = { FileHistory };

    ghost view = { λ f. record { path = string_bytes f.path; calls = f.file.made.calls; failed_writes = f.failed_writes; made = f.made.made } };

    ghost invariant = { λ f. IsCopy f.file.made.calls f.view.items f.is_sound };
}

/// Counts a write or a sync that fails, after which no other is tried.
#[tactic(auto, unfolding(common_types::specs::Counts::counted))]
fn gives_up(is_sound: &mut bool, failed_writes: &mut u64) -> DeviceFault
    ensures sound { is_sound.new ≡ false }
    ensures next { failed_writes.new ≡ counted failed_writes.old }
    ensures fault { result ≡ Failing }
{
    *is_sound = false;
    *failed_writes = failed_writes.saturating_add(1);
    DeviceFault::Device
}

/// Makes sure of a file, has the system let go of what it keeps of it, and gives its length in bytes.
fn sync_and_measure(file: &mut ImageFile) -> io::Result<u64>
    ensures { IfOk result (λ bytes. file.new.made.calls ≡ Length bytes ∷ DropCache ∷ Sync ∷ file.old.made.calls) }
{
    file.sync_all()?;
    // A sync of an earlier process that failed may have left in the system's memory what the disk doesn't have.
    file.drop_cache()?;
    file.length()
}

/// Has the system keep a file that was read by small pieces. What it reads one after another it may keep by large ones, and for each sector that is
/// written it then goes through a whole piece.
fn renew_cache(image: &mut ImageFile) -> io::Result<()>
    ensures { OnOk result (image.new.made.calls ≡ ReadAhead ∷ DropCache ∷ image.old.made.calls) }
{
    image.drop_cache()?;
    image.read_ahead()
}

/// Reads the next sectors behind those that were read, as many as there is room for in the piece.
fn read_piece(
    file: &mut ImageFile,
    piece: &mut [[u8; SECTOR_SIZE]],
    view: &mut Vec<[u8; SECTOR_SIZE]>,
    first: u64,
) -> Result<(), DeviceFault>
    requires fits { first + length piece.old < 2 ^ 64 }
    requires shown { view.old.items ≡ (disk_of file.old.made.calls).view }
    ensures read { OnOk result ((before : List CallValue) → AreRead first before file.old.made.calls → AreRead (first + length piece.old) before file.new.made.calls) }
    ensures shown { OnOk result (view.new.items ≡ (disk_of file.new.made.calls).view) }
    ensures length { length piece.new ≡ length piece.old }
    ensures fault { IfErr result (λ e. (e ≡ NoFile) ⊎ (e ≡ Memory)) }
{
    match file.read(first, piece) {
        Ok(()) => match view.extend_from_slice(piece) {
            Ok(()) => Ok(()),
            Err(_) => Err(DeviceFault::Memory),
        },
        Err(_) => Err(DeviceFault::NoFile),
    }
}

/// The bytes of page n of some sectors, which lie side by side, where it lies within them.
fn page_in(sectors: &[[u8; SECTOR_SIZE]], n: u32) -> Option<&[u8; PAGE_SIZE]>
    ensures { MatchOption result (length sectors.now < 8 * n + 8) (λ bytes. (8 * n + 8 ≤ length sectors.now) × (page_of sectors.now n ≡ bytes.now)) }
{
    let first = PAGE_SECTORS * n as usize;
    let page = sectors.get(first..first + PAGE_SECTORS)?;
    page.as_flattened().as_array()
}

/// Puts a page's bytes into its place among some sectors.
fn put_page(sectors: &mut Vec<[u8; SECTOR_SIZE]>, n: u32, bytes: &[u8; PAGE_SIZE])
    requires { 8 * n + 8 ≤ length sectors.old.items }
    ensures { (calls : List CallValue) → sectors.old.items ≡ (disk_of calls).view → sectors.new.items ≡ (disk_of (page_calls Write (8 * n) bytes.now 8 calls)).view }
{
    let first = PAGE_SECTORS * n as usize;
    for k in 0..PAGE_SECTORS {
        sectors[first + k] = sector_of(bytes, k);
    }
}

/// Notes a write of each sector of a page.
fn note_page(made: &mut CallCounts)
    ensures { made.new.made ≡ record { reads = made.old.made.reads; writes = made.old.made.writes + 8; syncs = made.old.made.syncs } }
{
    for _ in 0..PAGE_SECTORS {
        made.note(CallKind::Write);
    }
}

/// Reads so many sectors from the first.
fn read_all(
    alloc: Global,
    file: &mut ImageFile,
    sectors: u64,
) -> Result<Vec<[u8; SECTOR_SIZE]>, DeviceFault>
    requires { (disk_of file.old.made.calls).view ≡ [] }
    ensures read { OnOk result (AreRead sectors file.old.made.calls file.new.made.calls) }
    ensures shown { IfOk result (λ view. view.items ≡ (disk_of file.new.made.calls).view) }
    ensures fault { IfErr result (λ e. (e ≡ NoFile) ⊎ (e ≡ Memory)) }
{
    let Ok(mut view) = Vec::with_capacity(alloc, sectors as usize) else {
        return Err(DeviceFault::Memory);
    };
    let Ok(mut piece) = vec![in alloc; [0; SECTOR_SIZE]; PIECE] else {
        return Err(DeviceFault::Memory);
    };
    let mut n = 0;
    while n < sectors {
        let count = (sectors - n).min(PIECE as u64);
        read_piece(file, &mut piece[..count as usize], &mut view, n)?;
        n += count;
    }
    Ok(view)
}

impl FileDevice {
    /// Opens a file, for this device alone: while another device is open on it, there is no file. It is `NoFile` too where any call of the file fails, and
    /// `Memory` where there is none for the file's bytes.
    pub(crate) fn open<R: Files<File = File> + AllocGlobal>(
        rt: &R,
        path: &str,
    ) -> Result<FileDevice, DeviceFault>
        ensures opened { IfOk result (λ d. IsOpened (Lock ∷ Open ∷ []) d) }
        ensures named { IfOk result (λ d. d.path ≡ path.now) }
        ensures unused { IfOk result (λ d. IsUnused d) }
        ensures fault { IfErr result (λ e. (e ≡ NoFile) ⊎ (e ≡ Memory)) }
    {
        let Ok(mut file) = ImageFile::open(rt, path) else {
            return Err(DeviceFault::NoFile);
        };
        if file.lock().is_err() {
            return Err(DeviceFault::NoFile);
        }
        FileDevice::over(rt.alloc(), path, file)
    }

    /// Opens a file for reads alone, also where another device has it open, and reads all of it. Where nobody writes to it meanwhile, its sectors are as they were at one moment. The system refuses each write of such a device. It is `NoFile` where any call of the file
    /// fails, and `Memory` where there is none for the file's bytes.
    pub(crate) fn open_to_read<R: Files<File = File> + AllocGlobal>(
        rt: &R,
        path: &str,
    ) -> Result<FileDevice, DeviceFault>
        ensures opened { IfOk result (λ d. IsOpenedToRead d) }
        ensures named { IfOk result (λ d. d.path ≡ path.now) }
        ensures unused { IfOk result (λ d. IsUnused d) }
        ensures fault { IfErr result (λ e. (e ≡ NoFile) ⊎ (e ≡ Memory)) }
    {
        let Ok(path) = String::from_str(rt.alloc(), path) else {
            return Err(DeviceFault::Memory);
        };
        let Ok(mut file) = ImageFile::open_to_read(rt, &path) else {
            return Err(DeviceFault::NoFile);
        };
        let Ok(length) = file.length() else {
            return Err(DeviceFault::NoFile);
        };
        let view = read_all(rt.alloc(), &mut file, length / SECTOR)?;
        Ok(FileDevice {
            path,
            file,
            view,
            is_sound: true,
            failed_writes: 0,
            made: CallCounts::new(),
        })
    }

    /// Opens a file, as `open` does, which is made where it isn't there, and has this many sectors from then on: what it had within them stays, and what is
    /// new is zeros.
    pub(crate) fn create<R: Files<File = File> + AllocGlobal>(
        rt: &R,
        path: &str,
        sectors: u64,
    ) -> Result<FileDevice, DeviceFault>
        ensures opened { IfOk result (λ d. IsOpened (SetLength (sector_size * sectors) ∷ Lock ∷ Create ∷ []) d) }
        ensures named { IfOk result (λ d. d.path ≡ path.now) }
        ensures unused { IfOk result (λ d. IsUnused d) }
        ensures size { IfOk result (λ d. length (disk_of d.calls).base ≡ sectors) }
        ensures fault { IfErr result (λ e. (e ≡ NoFile) ⊎ (e ≡ Memory)) }
    {
        let Some(length) = sectors.checked_mul(SECTOR) else {
            return Err(DeviceFault::NoFile);
        };
        let Ok(mut file) = ImageFile::create(rt, path) else {
            return Err(DeviceFault::NoFile);
        };
        if file.lock().is_err() || file.set_length(length).is_err() {
            return Err(DeviceFault::NoFile);
        }
        let device = FileDevice::over(rt.alloc(), path, file)?;
        if device.sectors() != sectors {
            return Err(DeviceFault::NoFile);
        }
        Ok(device)
    }

    /// Makes sure of a file of which no sector was read yet, reads all of it, and has the system keep it by small pieces.
    fn over(alloc: Global, path: &str, file: ImageFile) -> Result<FileDevice, DeviceFault>
        requires { IsUnread file.made.calls }
        ensures opened { IfOk result (λ d. IsOpened file.made.calls d) }
        ensures named { IfOk result (λ d. d.path ≡ path.now) }
        ensures unused { IfOk result (λ d. IsUnused d) }
        ensures fault { IfErr result (λ e. (e ≡ NoFile) ⊎ (e ≡ Memory)) }
    {
        let Ok(path) = String::from_str(alloc, path) else {
            return Err(DeviceFault::Memory);
        };
        let mut file = file;
        let Ok(length) = sync_and_measure(&mut file) else {
            return Err(DeviceFault::NoFile);
        };
        let view = read_all(alloc, &mut file, length / SECTOR)?;
        let Ok(()) = renew_cache(&mut file) else {
            return Err(DeviceFault::NoFile);
        };
        Ok(FileDevice {
            path,
            file,
            view,
            is_sound: true,
            failed_writes: 0,
            made: CallCounts::new(),
        })
    }
}

impl Device for FileDevice {
    ghost state = { file_state };

    ghost moment = { λ f. length f.calls };

    ghost possible_since = { λ f. PossibleSince f.calls };

    ghost crash_states_are_images = { λ f c h left. only_images f.calls c left };

    ghost each_image_is_a_crash_state = { λ f c h image. all_images f.calls c image };

    ghost view_is_image = { λ f h. good f.calls };

    ghost base_has_size = { λ f h. refl };

    fn sectors(&self) -> u64 {
        self.view.len() as u64
    }

    /// It never fails, and asks the file for nothing.
    fn read(&mut self, n: u64, buffer: &mut [u8; SECTOR_SIZE]) -> Result<(), DeviceFault>
        requires { n < (file_state self.old).size }
        ensures read { IsTrue (file_state self.old).honest → OnOk result (slice_get (file_state self.old).disk.view n ≡ Some buffer.new) }
        ensures outcome { ReadOutcome result (file_state self.old) (file_state self.new) }
        ensures time { IsTrue (file_state self.old).honest → Elapses (length self.old.calls) (length self.new.calls) (PossibleSince self.old.calls) (PossibleSince self.new.calls) }
        ensures work { MadeExactly 1 0 0 (file_state self.old) (file_state self.new) }
        ensures never_fails { IsOk result }
        ensures asked { self.new ≡ asked self.old }
    {
        self.made.note(CallKind::Read);
        *buffer = self.view[n as usize];
        Ok(())
    }

    /// Each page that lies within the device: all that was read of the file is kept in memory.
    fn page(&self, n: u32) -> Option<&[u8; PAGE_SIZE]>
        ensures lends { MatchOption result ((file_state self.now).size < 8 * n + 8) (λ bytes. (8 * n + 8 ≤ (file_state self.now).size) × (page_of (file_state self.now).disk.view n ≡ bytes.now)) }
    {
        page_in(&self.view, n)
    }

    /// One call of the file, and none once a write or a sync has failed.
    fn write(&mut self, n: u64, bytes: &[u8; SECTOR_SIZE]) -> Result<(), DeviceFault>
        requires { n < (file_state self.old).size }
        ensures written { IsTrue (file_state self.old).honest → OnOk result ((file_state self.new).disk ≡ written n bytes.now (file_state self.old).disk) }
        ensures failed { IsTrue (file_state self.old).honest → OnErr result (WriteFailed n bytes.now (file_state self.old).disk (file_state self.new).disk) }
        ensures outcome { WriteOutcome result (file_state self.old) (file_state self.new) }
        ensures time { IsTrue (file_state self.old).honest → Elapses (length self.old.calls) (length self.new.calls) (PossibleSince self.old.calls) (PossibleSince self.new.calls) }
        ensures work { MadeExactly 0 1 0 (file_state self.old) (file_state self.new) }
        ensures asks { Asks result (Write n bytes.now) (FailedWrite n bytes.now) self.old.calls self.new.calls }
    {
        self.made.note(CallKind::Write);
        if self.is_sound && self.file.write(n, bytes).is_ok() {
            self.view[n as usize] = *bytes;
            return Ok(());
        }
        Err(gives_up(&mut self.is_sound, &mut self.failed_writes))
    }

    /// One call of the file, and none once a write or a sync has failed.
    fn write_page(&mut self, n: u32, bytes: &[u8; PAGE_SIZE]) -> Result<(), DeviceFault>
        requires { 8 * n + 8 ≤ (file_state self.old).size }
        ensures sectors { WritesDevice file_state (crash_states_of (λ f. length f.calls) (λ f. PossibleSince f.calls)) self.old self.new result (AreWritten (8 * n) 8 bytes.now) (MayBeAllWritten (8 * n) 8 bytes.now) }
        ensures page { IsTrue (file_state self.old).honest → OnOk result (page_of (file_state self.new).disk.view n ≡ bytes.now) }
        ensures work { MadeIfOk result 0 8 0 (file_state self.old) (file_state self.new) }
        ensures asks { AsksPage result n bytes.now self.old.calls self.new.calls }
    {
        note_page(&mut self.made);
        if !self.is_sound {
            return Err(gives_up(&mut self.is_sound, &mut self.failed_writes));
        }
        match self.file.write_page(n, bytes) {
            Ok(()) => {
                put_page(&mut self.view, n, bytes);
                Ok(())
            }
            Err(_) => Err(gives_up(&mut self.is_sound, &mut self.failed_writes)),
        }
    }

    /// One call of the file, and none once a write or a sync has failed.
    fn sync(&mut self) -> Result<(), DeviceFault>
        ensures synced { IsTrue (file_state self.old).honest → OnOk result ((file_state self.new).disk ≡ synced (file_state self.old).disk) }
        ensures failed { IsTrue (file_state self.old).honest → OnErr result (SyncFailed (file_state self.old).disk (file_state self.new).disk) }
        ensures outcome { WriteOutcome result (file_state self.old) (file_state self.new) }
        ensures time { IsTrue (file_state self.old).honest → Elapses (length self.old.calls) (length self.new.calls) (PossibleSince self.old.calls) (PossibleSince self.new.calls) }
        ensures work { MadeExactly 0 0 1 (file_state self.old) (file_state self.new) }
        ensures asks { Asks result Sync FailedSync self.old.calls self.new.calls }
    {
        self.made.note(CallKind::Sync);
        if !self.is_sound {
            return Err(gives_up(&mut self.is_sound, &mut self.failed_writes));
        }
        match self.file.sync() {
            Ok(()) => Ok(()),
            Err(_) => Err(gives_up(&mut self.is_sound, &mut self.failed_writes)),
        }
    }
}
