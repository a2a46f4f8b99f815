// A device that passes so many calls on, and then fails each.
ghost use Rattle.std.specs.Prelude.{◌≡◌, ◌≤◌, ◌<◌, ◌-◌, ◌+◌, ◌^◌, ◌↔◌, ℕ, IfOk, OnOk, OnErr, IfErr, IsTrue, length, slice_get, Some};
ghost use Rattle.sector_device.specs.Disk.{Sectors, Disk, IsImage, written, synced, WriteFailed, SyncFailed};
ghost use Rattle.sector_device.specs.Device.{State, Elapses};
ghost use Rattle.sector_device.specs.Effects.{ReadOutcome, WriteOutcome, MadeExactly};

use crate::device::counted;
use crate::{CallCounts, CallKind, Device, DeviceFault, SECTOR_SIZE};

/// A device around another: it passes so many reads, writes and syncs on, and then each fails. Its own failures count beside those inside.
#[derive(Drop)]
pub struct FuseDisk<D: Device> {
    inner: D,
    calls_left: u64,
    failed_reads: u64,
    failed_writes: u64,
    made: CallCounts,
}

/// Takes one of the calls that are left, and says whether there was one.
pub(crate) fn burns(calls_left: &mut u64) -> bool
    ensures burns { calls_left.new ≡ calls_left.old - 1 }
    ensures passes { IsTrue result ↔ 0 < calls_left.old }
{
    if *calls_left == 0 {
        return false;
    }
    *calls_left -= 1;
    true
}

impl<D: Device> FuseDisk<D> {
    ghost use Rattle.sector_device.specs.FuseState.{inside, calls_left, refused_reads, refused_writes};

    /// A fuse that lets so many calls pass.
    pub fn new(inner: D, calls: u64) -> Self
        ensures inside { inside result ≡ inner }
        ensures calls { calls_left result ≡ calls }
        ensures reads { refused_reads result ≡ 0 }
        ensures writes { refused_writes result ≡ 0 }
    {
        FuseDisk {
            inner,
            calls_left: calls,
            failed_reads: 0,
            failed_writes: 0,
            made: CallCounts::new(),
        }
    }

    /// The device inside.
    pub fn into_inner(self) -> D
        ensures { result ≡ inside self }
    {
        let FuseDisk {
            inner,
            calls_left: _,
            failed_reads: _,
            failed_writes: _,
            made: _,
        } = self;
        inner
    }

    /// How many reads the fuse itself failed. At the greatest u64 the count stays.
    pub fn refused_reads(&self) -> u64
        ensures { result ≡ refused_reads self.now }
    {
        self.failed_reads
    }

    /// How many writes and syncs the fuse itself failed. At the greatest u64 the count stays.
    pub fn refused_writes(&self) -> u64
        ensures { result ≡ refused_writes self.now }
    {
        self.failed_writes
    }
}

impl<D: Device> Device for FuseDisk<D> {
    ghost use Rattle.sector_device.specs.FuseState.{inside, refused_reads, refused_writes, fuse_state, Fuses};

    ghost state = { λ d. fuse_state D.state d };

    ghost moment = { λ d. D.moment d.inner };

    ghost possible_since = { λ d. D.possible_since d.inner };

    ghost crash_states_are_images = { λ d c h left. D.crash_states_are_images d.inner c h left };

    ghost each_image_is_a_crash_state = { λ d c h image. D.each_image_is_a_crash_state d.inner c h image };

    ghost view_is_image = { λ d h. D.view_is_image d.inner h };

    ghost base_has_size = { λ d h. D.base_has_size d.inner h };

    fn sectors(&self) -> u64 {
        self.inner.sectors()
    }

    fn read(&mut self, n: u64, buffer: &mut [u8; SECTOR_SIZE]) -> Result<(), DeviceFault>
        requires { n < (fuse_state D.state self.old).size }
        ensures read { IsTrue (fuse_state D.state self.old).honest → OnOk result (slice_get (fuse_state D.state self.old).disk.view n ≡ Some buffer.new) }
        ensures untouched { IfErr result (λ e. buffer.new ≡ buffer.old) }
        ensures outcome { ReadOutcome result (fuse_state D.state self.old) (fuse_state D.state self.new) }
        ensures time { IsTrue (fuse_state D.state self.old).honest → Elapses (D.moment (inside self.old)) (D.moment (inside self.new)) (D.possible_since (inside self.old)) (D.possible_since (inside self.new)) }
        ensures work { MadeExactly 1 0 0 (fuse_state D.state self.old) (fuse_state D.state self.new) }
        ensures fuses { Fuses D.state refused_reads refused_writes (λ s. s.failed_reads) self.old self.new result }
    {
        self.made.note(CallKind::Read);
        if !burns(&mut self.calls_left) {
            return Err(counted(&mut self.failed_reads));
        }
        self.inner.read(n, buffer)
    }

    fn write(&mut self, n: u64, bytes: &[u8; SECTOR_SIZE]) -> Result<(), DeviceFault>
        requires { n < (fuse_state D.state self.old).size }
        ensures written { IsTrue (fuse_state D.state self.old).honest → OnOk result ((fuse_state D.state self.new).disk ≡ written n bytes.now (fuse_state D.state self.old).disk) }
        ensures failed { IsTrue (fuse_state D.state self.old).honest → OnErr result (WriteFailed n bytes.now (fuse_state D.state self.old).disk (fuse_state D.state self.new).disk) }
        ensures outcome { WriteOutcome result (fuse_state D.state self.old) (fuse_state D.state self.new) }
        ensures time { IsTrue (fuse_state D.state self.old).honest → Elapses (D.moment (inside self.old)) (D.moment (inside self.new)) (D.possible_since (inside self.old)) (D.possible_since (inside self.new)) }
        ensures work { MadeExactly 0 1 0 (fuse_state D.state self.old) (fuse_state D.state self.new) }
        ensures fuses { Fuses D.state refused_writes refused_reads (λ s. s.failed_writes) self.old self.new result }
    {
        self.made.note(CallKind::Write);
        if !burns(&mut self.calls_left) {
            return Err(counted(&mut self.failed_writes));
        }
        self.inner.write(n, bytes)
    }

    fn sync(&mut self) -> Result<(), DeviceFault>
        ensures synced { IsTrue (fuse_state D.state self.old).honest → OnOk result ((fuse_state D.state self.new).disk ≡ synced (fuse_state D.state self.old).disk) }
        ensures failed { IsTrue (fuse_state D.state self.old).honest → OnErr result (SyncFailed (fuse_state D.state self.old).disk (fuse_state D.state self.new).disk) }
        ensures outcome { WriteOutcome result (fuse_state D.state self.old) (fuse_state D.state self.new) }
        ensures time { IsTrue (fuse_state D.state self.old).honest → Elapses (D.moment (inside self.old)) (D.moment (inside self.new)) (D.possible_since (inside self.old)) (D.possible_since (inside self.new)) }
        ensures work { MadeExactly 0 0 1 (fuse_state D.state self.old) (fuse_state D.state self.new) }
        ensures fuses { Fuses D.state refused_writes refused_reads (λ s. s.failed_writes) self.old self.new result }
    {
        self.made.note(CallKind::Sync);
        if !burns(&mut self.calls_left) {
            return Err(counted(&mut self.failed_writes));
        }
        self.inner.sync()
    }
}
