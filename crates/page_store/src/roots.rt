// Which root slots are valid, and which is current.
ghost use Rattle.std.specs.Prelude.{◌⊎◌, IfSome, ◌≡◌, ◌+◌, ◌*◌, ◌<◌, ◌≤◌, ℕ, IfOk, length, drop, ◌++◌};
ghost use Rattle.page_store.specs.Sectors.{sector};
ghost use Rattle.page_store.specs.Sizes.{part_size, record_size};
ghost use Rattle.page_store.specs.Roots.{IsFoundSlot, shared_seal, record_from, slot_in, newer, current, greater, seal_or_zero, greatest_seal};
ghost use Rattle.sector_device.specs.Effects.{MadeIfOk};
ghost use Rattle.page_store.specs.Steps.{crash_states_of};
ghost use Rattle.page_store.specs.DeviceEffects.{ReadsDevice};

use crate::pages::read_sector;
use crate::reading::{root_at, seal_at};
use crate::sizes::RECORD_SIZE;
use crate::{Root, Slot};
use arrayvec::ArrayVec;
use sector_device::{Device, DeviceFault, SECTOR_SIZE};

/// The root slots of an image as they were found.
#[derive(Debug, Drop)]
pub struct Roots {
    /// The valid slot with the greater seal; of two equal seals, slot 0.
    pub current: Option<Slot>,
    /// The greatest seal in root sectors that bear magic word and number, whether their slot is valid or not; 0 where there is none.
    pub greatest: u64,
}

/// The seal that the sectors of a slot share.
fn shared_seal(sectors: &[[u8; SECTOR_SIZE]; 16], slot: usize) -> Option<u64>
    requires { slot < 2 }
    ensures { result ≡ shared_seal sectors.now (8 * slot) 8 }
{
    let first = 8 * slot;
    let seal = seal_at(first as u64, &sectors[first])?;
    for k in 1..8 {
        if seal_at((first + k) as u64, &sectors[first + k]) != Some(seal) {
            return None;
        }
    }
    Some(seal)
}

/// Adds what a sector has of the record.
fn push_part(out: &mut ArrayVec<u8, RECORD_SIZE>, sector: &[u8; SECTOR_SIZE])
    requires { length out.old.items + part_size ≤ record_size }
    ensures items { out.new.items ≡ out.old.items ++ drop 24 sector.now }
    ensures length { length out.new.items ≡ length out.old.items + part_size }
{
    let (_, part) = sector.split_at(24);
    if out.try_extend_from_slice(part).is_err() {
        unreachable!();
    }
}

/// The record of a slot.
fn record_of(sectors: &[[u8; SECTOR_SIZE]; 16], slot: usize) -> ArrayVec<u8, RECORD_SIZE>
    requires { slot < 2 }
    ensures { result.items ≡ record_from sectors.now (8 * slot) 8 }
{
    let mut record = ArrayVec::new();
    for k in 0..8 {
        push_part(&mut record, &sectors[8 * slot + k]);
    }
    record
}

/// A slot on a device of so many sectors, where it is valid.
#[tactic(auto, unfolding(crate::specs::Roots::slot_in))]
fn slot_in(total: u64, sectors: &[[u8; SECTOR_SIZE]; 16], slot: usize) -> Option<Slot>
    requires { slot < 2 }
    ensures slot { result ≡ slot_in total sectors.now slot }
    ensures fits { IfSome result (λ found. (found.number ≡ slot) × IsFoundSlot total found) }
{
    let seal = shared_seal(sectors, slot)?;
    let root = root_at(total, record_of(sectors, slot).as_slice())?;
    Some(Slot {
        number: slot as u32,
        seal,
        root,
    })
}

/// The one with the greater seal, or else the first.
fn newer(a: Option<Slot>, b: Option<Slot>) -> Option<Slot>
    ensures newer { result ≡ newer a b }
    ensures one { (result ≡ a) ⊎ (result ≡ b) }
{
    match (a, b) {
        (None, b) => b,
        (a, None) => a,
        (Some(a), Some(b)) => { if a.seal < b.seal { Some(b) } else { Some(a) } }
    }
}

/// The current slot on a device of so many sectors.
fn current_of(total: u64, sectors: &[[u8; SECTOR_SIZE]; 16]) -> Option<Slot>
    ensures current { result ≡ newer (slot_in total sectors.now 0) (slot_in total sectors.now 1) }
    ensures fits { IfSome result (IsFoundSlot total) }
{
    newer(slot_in(total, sectors, 0), slot_in(total, sectors, 1))
}

/// The greatest seal in the sectors of both slots, or 0.
#[tactic(auto, unfolding(crate::specs::Roots::greatest_seal))]
fn greatest_seal(sectors: &[[u8; SECTOR_SIZE]; 16]) -> u64
    ensures { result ≡ greatest_seal sectors.now 16 }
{
    let mut greatest = 0;
    for n in 0..16 {
        let seal = seal_at(n as u64, &sectors[n]).unwrap_or(0);
        if greatest < seal {
            greatest = seal;
        }
    }
    greatest
}

/// Reads the sectors of both slots.
fn read_slots<D: Device>(
    device: &mut D,
    sectors: &mut [[u8; SECTOR_SIZE]; 16],
) -> Result<(), DeviceFault>
    requires { 16 ≤ (D.state device.old).size }
    ensures sectors { ReadsDevice D.state (crash_states_of D.moment D.possible_since) device.old device.new result (λ view _. (n : ℕ) → n < 16 → sector view n ≡ sector sectors.new n) }
    ensures work { MadeIfOk result 16 0 0 (D.state device.old) (D.state device.new) }
{
    let mut sector = [0; SECTOR_SIZE];
    for n in 0..16 {
        read_sector(device, n as u64, &mut sector)?;
        sectors[n] = sector;
    }
    Ok(())
}

/// Reads the root slots: which of them is current, and the greatest seal that stands in either. It takes no memory.
pub fn open_roots<D: Device>(device: &mut D) -> Result<Roots, DeviceFault>
    requires { 16 ≤ (D.state device.old).size }
    ensures roots { ReadsDevice D.state (crash_states_of D.moment D.possible_since) device.old device.new result (λ view roots. (roots.current ≡ current view) × (roots.greatest ≡ greatest_seal view 16)) }
    ensures fits { IfOk result (λ roots. IfSome roots.current (IsFoundSlot (D.state device.old).size)) }
    ensures work { MadeIfOk result 16 0 0 (D.state device.old) (D.state device.new) }
{
    let mut sectors = [[0; SECTOR_SIZE]; 16];
    read_slots(device, &mut sectors)?;
    let total = device.sectors();
    Ok(Roots {
        current: current_of(total, &sectors),
        greatest: greatest_seal(&sectors),
    })
}
