// A device of which one call fails.
ghost use Rattle.std.specs.Prelude.{◌≡◌, ◌≤◌, ◌<◌, ◌+◌, ◌^◌, ◌↔◌, ℕ, OnOk, OnErr, IfErr, IsTrue, length, slice_get, Some};
ghost use Rattle.sector_device.specs.Disk.{IsImage, written, synced, WriteFailed, SyncFailed};
ghost use Rattle.sector_device.specs.Device.{State, Elapses};
ghost use Rattle.sector_device.specs.Effects.{ReadOutcome, WriteOutcome, MadeExactly};
ghost use Rattle.sector_device.specs.Once.{Fails, after_call};

use crate::device::counted;
use crate::{CallCounts, CallKind, Device, DeviceFault, SECTOR_SIZE};

/// A device around another, of whose reads, writes and syncs one fails, without reaching the device inside. All others pass. Its own failure counts beside those inside.
#[derive(Drop)]
pub struct OnceDisk<D: Device> {
    inner: D,
    /// How many calls pass before the one that fails. None once that one was made.
    calls_before: Option<u64>,
    failed_reads: u64,
    failed_writes: u64,
    made: CallCounts,
}

/// Counts a call, and says whether it is the one that fails.
fn is_the_one(calls_before: &mut Option<u64>) -> bool
    ensures next { calls_before.new ≡ after_call calls_before.old }
    ensures fails { IsTrue result ↔ Fails calls_before.old }
{
    match *calls_before {
        None => false,
        Some(0) => {
            *calls_before = None;
            true
        }
        Some(before) => {
            *calls_before = Some(before - 1);
            false
        }
    }
}

impl<D: Device> OnceDisk<D> {
    ghost use Rattle.sector_device.specs.OnceState.{inside, calls_before, refused_reads, refused_writes};

    /// A device whose call of this number, counted from 0, fails.
    pub fn new(inner: D, call: u64) -> Self
        ensures inside { inside result ≡ inner }
        ensures call { calls_before result ≡ Some call }
        ensures reads { refused_reads result ≡ 0 }
        ensures writes { refused_writes result ≡ 0 }
    {
        OnceDisk {
            inner,
            calls_before: Some(call),
            failed_reads: 0,
            failed_writes: 0,
            made: CallCounts::new(),
        }
    }

    /// The device inside.
    pub fn into_inner(self) -> D
        ensures { result ≡ inside self }
    {
        let OnceDisk {
            inner,
            calls_before: _,
            failed_reads: _,
            failed_writes: _,
            made: _,
        } = self;
        inner
    }

    /// How many reads it failed itself: one, where that was the call.
    pub fn refused_reads(&self) -> u64
        ensures { result ≡ refused_reads self.now }
    {
        self.failed_reads
    }

    /// How many writes and syncs it failed itself: one, where that was the call.
    pub fn refused_writes(&self) -> u64
        ensures { result ≡ refused_writes self.now }
    {
        self.failed_writes
    }
}

impl<D: Device> Device for OnceDisk<D> {
    ghost use Rattle.sector_device.specs.OnceState.{inside, once_state, RefusesRead, RefusesWrite, FailsOnce};

    ghost state = { λ d. once_state D.state d };

    ghost moment = { λ d. D.moment d.inner };

    ghost possible_since = { λ d. D.possible_since d.inner };

    ghost crash_states_are_images = { λ d c h left. D.crash_states_are_images d.inner c h left };

    ghost each_image_is_a_crash_state = { λ d c h image. D.each_image_is_a_crash_state d.inner c h image };

    ghost view_is_image = { λ d h. D.view_is_image d.inner h };

    ghost base_has_size = { λ d h. D.base_has_size d.inner h };

    fn sectors(&self) -> u64 {
        self.inner.sectors()
    }

    fn read(&mut self, n: u64, buffer: &mut [u8; SECTOR_SIZE]) -> Result<(), DeviceFault>
        requires { n < (once_state D.state self.old).size }
        ensures read { IsTrue (once_state D.state self.old).honest → OnOk result (slice_get (once_state D.state self.old).disk.view n ≡ Some buffer.new) }
        ensures untouched { IfErr result (λ e. buffer.new ≡ buffer.old) }
        ensures outcome { ReadOutcome result (once_state D.state self.old) (once_state D.state self.new) }
        ensures time { IsTrue (once_state D.state self.old).honest → Elapses (D.moment (inside self.old)) (D.moment (inside self.new)) (D.possible_since (inside self.old)) (D.possible_since (inside self.new)) }
        ensures work { MadeExactly 1 0 0 (once_state D.state self.old) (once_state D.state self.new) }
        ensures once { FailsOnce (RefusesRead self.old self.new) (ReadOutcome result (D.state (inside self.old)) (D.state (inside self.new))) self.old self.new result }
    {
        self.made.note(CallKind::Read);
        if is_the_one(&mut self.calls_before) {
            return Err(counted(&mut self.failed_reads));
        }
        self.inner.read(n, buffer)
    }

    fn write(&mut self, n: u64, bytes: &[u8; SECTOR_SIZE]) -> Result<(), DeviceFault>
        requires { n < (once_state D.state self.old).size }
        ensures written { IsTrue (once_state D.state self.old).honest → OnOk result ((once_state D.state self.new).disk ≡ written n bytes.now (once_state D.state self.old).disk) }
        ensures failed { IsTrue (once_state D.state self.old).honest → OnErr result (WriteFailed n bytes.now (once_state D.state self.old).disk (once_state D.state self.new).disk) }
        ensures outcome { WriteOutcome result (once_state D.state self.old) (once_state D.state self.new) }
        ensures time { IsTrue (once_state D.state self.old).honest → Elapses (D.moment (inside self.old)) (D.moment (inside self.new)) (D.possible_since (inside self.old)) (D.possible_since (inside self.new)) }
        ensures work { MadeExactly 0 1 0 (once_state D.state self.old) (once_state D.state self.new) }
        ensures once { FailsOnce (RefusesWrite self.old self.new) (WriteOutcome result (D.state (inside self.old)) (D.state (inside self.new))) self.old self.new result }
    {
        self.made.note(CallKind::Write);
        if is_the_one(&mut self.calls_before) {
            return Err(counted(&mut self.failed_writes));
        }
        self.inner.write(n, bytes)
    }

    fn sync(&mut self) -> Result<(), DeviceFault>
        ensures synced { IsTrue (once_state D.state self.old).honest → OnOk result ((once_state D.state self.new).disk ≡ synced (once_state D.state self.old).disk) }
        ensures failed { IsTrue (once_state D.state self.old).honest → OnErr result (SyncFailed (once_state D.state self.old).disk (once_state D.state self.new).disk) }
        ensures outcome { WriteOutcome result (once_state D.state self.old) (once_state D.state self.new) }
        ensures time { IsTrue (once_state D.state self.old).honest → Elapses (D.moment (inside self.old)) (D.moment (inside self.new)) (D.possible_since (inside self.old)) (D.possible_since (inside self.new)) }
        ensures work { MadeExactly 0 0 1 (once_state D.state self.old) (once_state D.state self.new) }
        ensures once { FailsOnce (RefusesWrite self.old self.new) (WriteOutcome result (D.state (inside self.old)) (D.state (inside self.new))) self.old self.new result }
    {
        self.made.note(CallKind::Sync);
        if is_the_one(&mut self.calls_before) {
            return Err(counted(&mut self.failed_writes));
        }
        self.inner.sync()
    }
}
