// A device that lies about one sector.
ghost use Rattle.std.specs.Prelude.{◌≡◌, ◌≤◌, ◌<◌, ◌-◌, ◌+◌, ℕ, OnOk, OnErr, IfErr, IsTrue, length};
ghost use Rattle.sector_device.specs.Disk.{IsImage, written, synced, WriteFailed, SyncFailed};
ghost use Rattle.sector_device.specs.Device.{State, Elapses};
ghost use Rattle.sector_device.specs.Effects.{ReadOutcome, WriteOutcome, MadeExactly};
ghost use Rattle.sector_device.specs.Lying.{lies};

use crate::fuse_disk::burns;
use crate::{CallCounts, CallKind, Device, DeviceFault, SECTOR_SIZE};

/// A device around another: once so many reads, writes and syncs were made, reads of one sector give the same bytes, whatever stands there. All else is as the device inside does it. From the first call on
/// it is not honest, since no call may change whether a device is.
#[derive(Drop)]
pub struct LieDisk<D: Device> {
    inner: D,
    /// How many more calls come before the lie.
    calls_left: u64,
    sector: u64,
    told: [u8; SECTOR_SIZE],
    made: CallCounts,
}

impl<D: Device> LieDisk<D> {
    ghost use Rattle.sector_device.specs.LieState.{inside, calls_left, sector, told};

    /// A device that gives these bytes for sector n, once so many calls were made.
    pub fn new(inner: D, calls: u64, n: u64, bytes: [u8; SECTOR_SIZE]) -> Self
        ensures inside { inside result ≡ inner }
        ensures calls { calls_left result ≡ calls }
        ensures sector { sector result ≡ n }
        ensures told { told result ≡ bytes }
    {
        LieDisk {
            inner,
            calls_left: calls,
            sector: n,
            told: bytes,
            made: CallCounts::new(),
        }
    }

    /// The device inside.
    pub fn into_inner(self) -> D
        ensures { result ≡ inside self }
    {
        let LieDisk {
            inner,
            calls_left: _,
            sector: _,
            told: _,
            made: _,
        } = self;
        inner
    }
}

impl<D: Device> Device for LieDisk<D> {
    ghost use Rattle.sector_device.specs.LieState.{inside, calls_left, SameLie, TellsLie, lie_state};

    ghost state = { λ d. lie_state D.state d };

    ghost moment = { λ d. D.moment d.inner };

    ghost possible_since = { λ d. D.possible_since d.inner };

    ghost crash_states_are_images = { λ d c h left. lies h };

    ghost each_image_is_a_crash_state = { λ d c h image. lies h };

    ghost view_is_image = { λ d h. lies h };

    ghost base_has_size = { λ d h. lies h };

    fn sectors(&self) -> u64 {
        self.inner.sectors()
    }

    fn read(&mut self, n: u64, buffer: &mut [u8; SECTOR_SIZE]) -> Result<(), DeviceFault>
        requires { n < (lie_state D.state self.old).size }
        ensures untouched { IfErr result (λ e. buffer.new ≡ buffer.old) }
        ensures outcome { ReadOutcome result (D.state (inside self.old)) (D.state (inside self.new)) }
        ensures time { IsTrue (D.state (inside self.old)).honest → Elapses (D.moment (inside self.old)) (D.moment (inside self.new)) (D.possible_since (inside self.old)) (D.possible_since (inside self.new)) }
        ensures work { MadeExactly 1 0 0 (lie_state D.state self.old) (lie_state D.state self.new) }
        ensures burns { calls_left self.new ≡ calls_left self.old - 1 }
        ensures same_lie { SameLie self.old self.new }
        ensures tells { TellsLie D.state self.old n buffer.new result }
    {
        self.made.note(CallKind::Read);
        let passes = burns(&mut self.calls_left);
        self.inner.read(n, buffer)?;
        if !passes && n == self.sector {
            *buffer = self.told;
        }
        Ok(())
    }

    fn write(&mut self, n: u64, bytes: &[u8; SECTOR_SIZE]) -> Result<(), DeviceFault>
        requires { n < (lie_state D.state self.old).size }
        ensures written { IsTrue (D.state (inside self.old)).honest → OnOk result ((D.state (inside self.new)).disk ≡ written n bytes.now (D.state (inside self.old)).disk) }
        ensures failed { IsTrue (D.state (inside self.old)).honest → OnErr result (WriteFailed n bytes.now (D.state (inside self.old)).disk (D.state (inside self.new)).disk) }
        ensures outcome { WriteOutcome result (D.state (inside self.old)) (D.state (inside self.new)) }
        ensures time { IsTrue (D.state (inside self.old)).honest → Elapses (D.moment (inside self.old)) (D.moment (inside self.new)) (D.possible_since (inside self.old)) (D.possible_since (inside self.new)) }
        ensures work { MadeExactly 0 1 0 (lie_state D.state self.old) (lie_state D.state self.new) }
        ensures burns { calls_left self.new ≡ calls_left self.old - 1 }
        ensures same_lie { SameLie self.old self.new }
    {
        self.made.note(CallKind::Write);
        burns(&mut self.calls_left);
        self.inner.write(n, bytes)
    }

    fn sync(&mut self) -> Result<(), DeviceFault>
        ensures synced { IsTrue (D.state (inside self.old)).honest → OnOk result ((D.state (inside self.new)).disk ≡ synced (D.state (inside self.old)).disk) }
        ensures failed { IsTrue (D.state (inside self.old)).honest → OnErr result (SyncFailed (D.state (inside self.old)).disk (D.state (inside self.new)).disk) }
        ensures outcome { WriteOutcome result (D.state (inside self.old)) (D.state (inside self.new)) }
        ensures time { IsTrue (D.state (inside self.old)).honest → Elapses (D.moment (inside self.old)) (D.moment (inside self.new)) (D.possible_since (inside self.old)) (D.possible_since (inside self.new)) }
        ensures work { MadeExactly 0 0 1 (lie_state D.state self.old) (lie_state D.state self.new) }
        ensures burns { calls_left self.new ≡ calls_left self.old - 1 }
        ensures same_lie { SameLie self.old self.new }
    {
        self.made.note(CallKind::Sync);
        burns(&mut self.calls_left);
        self.inner.sync()
    }
}
