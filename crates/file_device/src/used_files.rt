// The files that a program opens as devices, and what it did with each.
ghost use Rattle.std.specs.Prelude.{◌≡◌, ◌⊎◌, ◌*◌, List, [], ◌∷◌, ◌++◌, IfOk, IfErr, length};
ghost use Rattle.std.specs.Borrow.{ftrue};
ghost use Rattle.sector_device.specs.Sizes.{sector_size};
ghost use Rattle.sector_device.specs.declared.device.DeviceFault.TheVariants.{NoFile, Memory};
ghost use Rattle.file_device.specs.FileCalls.{disk_of};
ghost use Rattle.file_device.specs.FileUses as spec;
ghost use Rattle.file_device.specs.FileUses.{FileUse, use_of, NotOpened, Left};
ghost use Rattle.file_device.specs.Opening.{IsOpened, IsOpenedToRead, IsUnused};
ghost use Rattle.file_device.specs.declared.file_call.FileCall.TheVariants.{Open, Create, Lock, SetLength};

use crate::FileDevice;
use sector_device::DeviceFault;
use std::fs::{File, Files};
use std::marker::Model;

/// What is noted of a device.
#[derive(Clone, Copy)]
pub(crate) enum DeviceUse {
    /// Its file was opened, or made.
    Opened,
    /// It was let go of.
    Left,
}

/// What was done with files, in order. Only clauses read it, and it takes no memory.
#[derive(Drop)]
pub struct FileLog {
    pub ghost uses: { List FileUse },
}

impl Model for FileLog {
    ghost also_owns = { λ _. ftrue };
}

impl FileLog {
    /// Nothing.
    fn new() -> FileLog
        ensures { result.uses ≡ [] }
    {
        FileLog {}
    }

    /// One use more, of a device.
    fn with(_before: &FileLog, _kind: &DeviceUse, _device: &FileDevice) -> FileLog
        ensures { result.uses ≡ _before.now.uses ++ use_of _kind.now _device.now ∷ [] }
    {
        FileLog {}
    }

    /// One more, of a file of this name that was not had.
    fn without(_before: &FileLog, _name: &[u8]) -> FileLog
        ensures { result.uses ≡ _before.now.uses ++ NotOpened _name.now ∷ [] }
    {
        FileLog {}
    }

    /// Notes what was done with a device.
    fn note(&mut self, kind: DeviceUse, device: &FileDevice)
        ensures { self.new.uses ≡ self.old.uses ++ use_of kind device.now ∷ [] }
    {
        *self = FileLog::with(self, &kind, device);
    }

    /// Notes how a file of this name was asked for.
    fn note_asked(&mut self, name: &str, given: &Result<FileDevice, DeviceFault>)
        ensures { self.new.uses ≡ self.old.uses ++ spec.asked_for name.now given.now ∷ [] }
    {
        match given {
            Ok(device) => self.note(DeviceUse::Opened, device),
            Err(_) => *self = FileLog::without(self, name.as_bytes()),
        }
    }
}

/// The files that a program opens as devices, and what it did with each, in order. There is no other way to a device, so who has but this has no device that isn't noted.
#[derive(Drop)]
pub struct UsedFiles<'a, R: Files<File = File> + AllocGlobal> {
    rt: &'a R,
    pub log: FileLog,
}

impl<'a, R: Files<File = File> + AllocGlobal> UsedFiles<'a, R> {
    /// None was opened yet.
    pub fn new(rt: &'a R) -> UsedFiles<'a, R>
        ensures { result.log.uses ≡ [] }
    {
        UsedFiles {
            rt,
            log: FileLog::new(),
        }
    }

    /// Opens a file as a device: `FileDevice::open`.
    pub fn open(&mut self, path: &str) -> Result<FileDevice, DeviceFault>
        ensures noted { self.new.log.uses ≡ self.old.log.uses ++ spec.asked_for path.now result ∷ [] }
        ensures opened { IfOk result (λ d. IsOpened (Lock ∷ Open ∷ []) d) }
        ensures named { IfOk result (λ d. d.path ≡ path.now) }
        ensures unused { IfOk result (λ d. IsUnused d) }
        ensures fault { IfErr result (λ e. (e ≡ NoFile) ⊎ (e ≡ Memory)) }
    {
        let given = FileDevice::open(self.rt, path);
        self.log.note_asked(path, &given);
        given
    }

    /// Opens a file as a device for reads alone, also where another device has it open: `FileDevice::open_to_read`.
    pub fn open_to_read(&mut self, path: &str) -> Result<FileDevice, DeviceFault>
        ensures noted { self.new.log.uses ≡ self.old.log.uses ++ spec.asked_for path.now result ∷ [] }
        ensures opened { IfOk result (λ d. IsOpenedToRead d) }
        ensures named { IfOk result (λ d. d.path ≡ path.now) }
        ensures unused { IfOk result (λ d. IsUnused d) }
        ensures fault { IfErr result (λ e. (e ≡ NoFile) ⊎ (e ≡ Memory)) }
    {
        let given = FileDevice::open_to_read(self.rt, path);
        self.log.note_asked(path, &given);
        given
    }

    /// Makes a file of so many sectors, and opens it as a device: `FileDevice::create`.
    pub fn create(&mut self, path: &str, sectors: u64) -> Result<FileDevice, DeviceFault>
        ensures noted { self.new.log.uses ≡ self.old.log.uses ++ spec.asked_for path.now result ∷ [] }
        ensures opened { IfOk result (λ d. IsOpened (SetLength (sector_size * sectors) ∷ Lock ∷ Create ∷ []) d) }
        ensures named { IfOk result (λ d. d.path ≡ path.now) }
        ensures unused { IfOk result (λ d. IsUnused d) }
        ensures size { IfOk result (λ d. length (disk_of d.calls).base ≡ sectors) }
        ensures fault { IfErr result (λ e. (e ≡ NoFile) ⊎ (e ≡ Memory)) }
    {
        let given = FileDevice::create(self.rt, path, sectors);
        self.log.note_asked(path, &given);
        given
    }

    /// Lets go of a device, and with it of the lock on its file.
    pub fn close(&mut self, device: FileDevice)
        ensures { self.new.log.uses ≡ self.old.log.uses ++ Left device ∷ [] }
    {
        self.log.note(DeviceUse::Left, &device);
    }
}
