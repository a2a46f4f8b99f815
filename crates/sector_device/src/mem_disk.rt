// A disk in memory. It keeps all its writes and syncs, so a crash may leave all that is allowed.
ghost use Rattle.std.specs.Prelude.{◌≡◌, ◌≤◌, ◌<◌, ◌+◌, ℕ, length, IfOk, OnOk, OnErr, IsOk, IsTrue, [], Some, slice_get, slice_set};
ghost use Rattle.sector_device.specs.Disk.{IsImage, written, synced, WriteFailed, SyncFailed};
ghost use Rattle.sector_device.specs.AfterStop.{done, done_where, after_stop};
ghost use Rattle.sector_device.specs.Calls.{fresh, replay, disk_of, mem_state, writes_of, unused, asked, took, refused, zeros, MayLeaveSince};
ghost use Rattle.sector_device.specs.Device.{Elapses};
ghost use Rattle.sector_device.specs.Effects.{ReadOutcome, WriteOutcome, MadeExactly};
ghost use Rattle.sector_device.specs.Images.{good, only_images, all_images};
ghost use Rattle.sector_device.specs.declared.call.Call.TheVariants.{Write, Sync};

use crate::call::Call;
use crate::device::{count, counted};
use crate::{CallCounts, CallKind, Device, DeviceFault, SECTOR_SIZE};
use std::alloc::{AllocError, Global};
use std::marker::Model;

/// A disk in memory, which is honest and whose reads don't fail. Where its list of calls can't grow, a write or a sync fails.
#[derive(Drop)]
pub struct MemDisk {
    first: Vec<[u8; SECTOR_SIZE]>,
    writes_and_syncs: Vec<Call>,
    /// How many of the calls came up to the last sync, with it.
    synced: usize,
    view: Vec<[u8; SECTOR_SIZE]>,
    failed_writes: u64,
    calls: u64,
    made: CallCounts,
}

impl Model for MemDisk {
    ghost use Rattle.sector_device.specs.Calls.{History};
    ghost use Rattle.sector_device.specs.MemDisk.{IsReadBack};

    ghost Value = { History };

    ghost view = { λ m. record { first = m.first.items; writes_and_syncs = m.writes_and_syncs.items; failed_writes = m.failed_writes; calls = m.calls; made = m.made.made } };

    ghost invariant = { λ m. IsReadBack m.first.items m.writes_and_syncs.items m.synced m.view.items };
}

fn copied(
    alloc: Global,
    sectors: &[[u8; SECTOR_SIZE]],
) -> Result<Vec<[u8; SECTOR_SIZE]>, AllocError>
    ensures { IfOk result (λ copy. copy.items ≡ sectors.now) }
{
    let mut copy = Vec::with_capacity(alloc, sectors.len())?;
    for sector in sectors {
        copy.push(*sector)?;
    }
    Ok(copy)
}

#[tactic(auto, unfolding(crate::specs::Calls::zeros))]
fn zeros(alloc: Global, sectors: usize) -> Result<Vec<[u8; SECTOR_SIZE]>, AllocError>
    ensures items { IfOk result (λ made. made.items ≡ zeros sectors) }
    ensures size { IfOk result (λ made. length made.items ≡ sectors) }
{
    let mut made = Vec::with_capacity(alloc, sectors)?;
    for _sector in 0..sectors {
        made.push([0; SECTOR_SIZE])?;
    }
    Ok(made)
}

/// MadeExactly a write again. A sector that isn't there is passed over.
fn put(sectors: &mut [[u8; SECTOR_SIZE]], n: u64, bytes: &[u8; SECTOR_SIZE])
    ensures { sectors.new ≡ slice_set sectors.old n bytes.now }
{
    if (n as usize) < sectors.len() {
        sectors[n as usize] = *bytes;
    }
}

/// MadeExactly the writes among these calls again.
fn redo(sectors: &mut [[u8; SECTOR_SIZE]], calls: &[Call])
    ensures { sectors.new ≡ done (writes_of calls.now) sectors.old }
{
    for call in calls {
        if let Call::Write(n, bytes) = call {
            put(sectors, *n, bytes);
        }
    }
}

/// MadeExactly those of the writes among these calls again whose places are picked.
fn redo_picked(sectors: &mut [[u8; SECTOR_SIZE]], calls: &[Call], picks: &[usize])
    ensures { sectors.new ≡ done_where picks.now 0 (writes_of calls.now) sectors.old }
{
    let mut place = 0;
    for write in calls {
        if let Call::Write(n, bytes) = write {
            if picks.contains(&place) {
                put(sectors, *n, bytes);
            }
            place += 1;
        }
    }
}

impl MemDisk {
    /// A disk of so many sectors of zeros, of which nothing was asked yet.
    pub fn new(alloc: Global, sectors: usize) -> Result<MemDisk, AllocError>
        ensures unused { IfOk result (λ disk. disk ≡ unused (zeros sectors)) }
        ensures size { IfOk result (λ disk. length disk.first ≡ sectors) }
    {
        MemDisk::of(alloc, zeros(alloc, sectors)?)
    }

    /// A disk of these sectors, as a crash may have left them, of which nothing was asked yet.
    pub fn of(alloc: Global, sectors: Vec<[u8; SECTOR_SIZE]>) -> Result<MemDisk, AllocError>
        ensures { IfOk result (λ disk. disk ≡ unused sectors.items) }
    {
        let view = copied(alloc, &sectors)?;
        Ok(MemDisk {
            first: sectors,
            writes_and_syncs: Vec::new(alloc),
            synced: 0,
            view,
            failed_writes: 0,
            calls: 0,
            made: CallCounts::new(),
        })
    }

    /// The writes and syncs that were taken, the oldest first.
    pub fn writes_and_syncs(&self) -> &[Call]
        ensures { result.now ≡ self.now.writes_and_syncs }
    {
        &self.writes_and_syncs
    }

    /// How many reads, writes and syncs were called for, those that failed too. At the greatest u64 the count stays.
    pub fn calls(&self) -> u64
        ensures { result ≡ self.now.calls }
    {
        self.calls
    }

    /// How many writes and syncs failed. At the greatest u64 the count stays.
    pub fn failed_writes(&self) -> u64
        ensures { result ≡ self.now.failed_writes }
    {
        self.failed_writes
    }

    /// The sectors that these picks leave.
    fn picked(&self, alloc: Global, picks: &[usize]) -> Result<Vec<[u8; SECTOR_SIZE]>, AllocError>
        ensures { IfOk result (λ left. left.items ≡ after_stop picks.now (disk_of self.now)) }
    {
        let mut sectors = copied(alloc, &self.first)?;
        redo(&mut sectors, &self.writes_and_syncs[..self.synced]);
        redo_picked(&mut sectors, &self.writes_and_syncs[self.synced..], picks);
        Ok(sectors)
    }

    /// The sectors at the last sync with those writes since then done, in the order in which they were made, whose places are picked. Places
    /// count from 0 after that sync, and one outside is passed over. Each of these is an image, which a crash now may leave.
    pub fn after_stop(
        &self,
        alloc: Global,
        picks: &[usize],
    ) -> Result<Vec<[u8; SECTOR_SIZE]>, AllocError>
        ensures sectors { IfOk result (λ left. left.items ≡ after_stop picks.now (disk_of self.now)) }
        ensures image { IfOk result (λ left. IsImage (⟦<MemDisk as Device>⟧.state self.now).disk left.items) }
        ensures left { IfOk result (λ left. ⟦<MemDisk as Device>⟧.possible_since self.now (⟦<MemDisk as Device>⟧.moment self.now) left.items) }
    {
        self.picked(alloc, picks)
    }
}

impl Device for MemDisk {
    ghost state = { mem_state };

    ghost moment = { λ m. length m.writes_and_syncs };

    ghost possible_since = { λ m. MayLeaveSince m.first m.writes_and_syncs };

    ghost crash_states_are_images = { λ m c h left. only_images m.first m.writes_and_syncs c left };

    ghost each_image_is_a_crash_state = { λ m c h image. all_images m.first m.writes_and_syncs c image };

    ghost view_is_image = { λ m h. (good m.first m.writes_and_syncs).view };

    ghost base_has_size = { λ m h. (good m.first m.writes_and_syncs).size_is };

    fn sectors(&self) -> u64 {
        self.first.len() as u64
    }

    /// It never fails.
    fn read(&mut self, n: u64, buffer: &mut [u8; SECTOR_SIZE]) -> Result<(), DeviceFault>
        requires { n < (mem_state self.old).size }
        ensures read { IsTrue (mem_state self.old).honest → OnOk result (slice_get (mem_state self.old).disk.view n ≡ Some buffer.new) }
        ensures outcome { ReadOutcome result (mem_state self.old) (mem_state self.new) }
        ensures time { IsTrue (mem_state self.old).honest → Elapses (length self.old.writes_and_syncs) (length self.new.writes_and_syncs) (MayLeaveSince self.old.first self.old.writes_and_syncs) (MayLeaveSince self.new.first self.new.writes_and_syncs) }
        ensures work { MadeExactly 1 0 0 (mem_state self.old) (mem_state self.new) }
        ensures never_fails { IsOk result }
        ensures asked { self.new ≡ asked self.old }
    {
        self.made.note(CallKind::Read);
        count(&mut self.calls);
        *buffer = self.view[n as usize];
        Ok(())
    }

    /// It fails where the list of writes and syncs can't grow.
    fn write(&mut self, n: u64, bytes: &[u8; SECTOR_SIZE]) -> Result<(), DeviceFault>
        requires { n < (mem_state self.old).size }
        ensures written { IsTrue (mem_state self.old).honest → OnOk result ((mem_state self.new).disk ≡ written n bytes.now (mem_state self.old).disk) }
        ensures failed { IsTrue (mem_state self.old).honest → OnErr result (WriteFailed n bytes.now (mem_state self.old).disk (mem_state self.new).disk) }
        ensures outcome { WriteOutcome result (mem_state self.old) (mem_state self.new) }
        ensures time { IsTrue (mem_state self.old).honest → Elapses (length self.old.writes_and_syncs) (length self.new.writes_and_syncs) (MayLeaveSince self.old.first self.old.writes_and_syncs) (MayLeaveSince self.new.first self.new.writes_and_syncs) }
        ensures work { MadeExactly 0 1 0 (mem_state self.old) (mem_state self.new) }
        ensures took { OnOk result (self.new ≡ took (Write n bytes.now) self.old) }
        ensures refused { OnErr result (self.new ≡ refused (Write n bytes.now) self.old) }
    {
        self.made.note(CallKind::Write);
        count(&mut self.calls);
        match self.writes_and_syncs.push(Call::Write(n, *bytes)) {
            Ok(()) => {
                self.view[n as usize] = *bytes;
                Ok(())
            }
            Err(_) => Err(counted(&mut self.failed_writes)),
        }
    }

    /// It fails where the list of writes and syncs can't grow.
    fn sync(&mut self) -> Result<(), DeviceFault>
        ensures synced { IsTrue (mem_state self.old).honest → OnOk result ((mem_state self.new).disk ≡ synced (mem_state self.old).disk) }
        ensures failed { IsTrue (mem_state self.old).honest → OnErr result (SyncFailed (mem_state self.old).disk (mem_state self.new).disk) }
        ensures outcome { WriteOutcome result (mem_state self.old) (mem_state self.new) }
        ensures time { IsTrue (mem_state self.old).honest → Elapses (length self.old.writes_and_syncs) (length self.new.writes_and_syncs) (MayLeaveSince self.old.first self.old.writes_and_syncs) (MayLeaveSince self.new.first self.new.writes_and_syncs) }
        ensures work { MadeExactly 0 0 1 (mem_state self.old) (mem_state self.new) }
        ensures took { OnOk result (self.new ≡ took Sync self.old) }
        ensures refused { OnErr result (self.new ≡ refused Sync self.old) }
    {
        self.made.note(CallKind::Sync);
        count(&mut self.calls);
        match self.writes_and_syncs.push(Call::Sync) {
            Ok(()) => {
                let taken = self.writes_and_syncs.len();
                self.synced = taken;
                Ok(())
            }
            Err(_) => Err(counted(&mut self.failed_writes)),
        }
    }
}
