// Reading the record of an item.
ghost use Rattle.std.specs.Prelude.{◌≡◌, ◌⊎◌, Ok, IfOk, IfErr, IfSome, IsTrue};
ghost use Rattle.std.specs.Option.{option_map};
ghost use Rattle.host_types.specs.Fronts.{front_at};
ghost use Rattle.host_types.specs.Site.{item_at};
ghost use Rattle.page_store.specs.Work.{ReadsPages};
ghost use Rattle.site_records.specs.Fronts.{record_front};
ghost use Rattle.site_records.specs.Records.{recorded, record_bytes};
ghost use Rattle.site_records.specs.Limits.{is_record};
ghost use Rattle.site_records.specs.declared.record.Record.{Record as RecordValue};
ghost use Rattle.site_store.specs.Represented.{RepresentedBy};
ghost use Rattle.site_store.specs.Reads.{AlwaysReadsKnown};
ghost use Rattle.site_store.specs.declared.fault.SiteOpenFault.TheVariants.{BadRecord, Memory};

use crate::SiteOpenFault;
use crate::value_lookup::ValueLookup;
use host_types::{CardFront, Selector};
use page_store::LONGEST_VALUE;
use site_records::{Record, RecordFault, item_key, items_have_records, read_front, read_record};
use std::alloc::Global;

/// The record that some bytes are.
fn record_in(alloc: Global, bytes: &[u8]) -> Result<Record, SiteOpenFault>
    ensures record { IfOk result (λ r. IsTrue (is_record r) × (bytes.now ≡ record_bytes r)) }
    ensures only { (r : RecordValue) → IsTrue (is_record r) → bytes.now ≡ record_bytes r → IfOk result (λ x. x ≡ r) × IfErr result (λ e. e ≡ Memory) }
    ensures fault { IfErr result (λ e. (e ≡ BadRecord) ⊎ (e ≡ Memory)) }
{
    match read_record(alloc, bytes) {
        Ok(record) => Ok(record),
        Err(RecordFault::BadRecord) => Err(SiteOpenFault::BadRecord),
        Err(RecordFault::Memory) => Err(SiteOpenFault::Memory),
    }
}

/// The record of what stands at a selector.
pub fn record_at<V: ValueLookup>(
    alloc: Global,
    from: &mut V,
    selector: &Selector,
) -> Result<Option<Record>, SiteOpenFault>
    ensures record { AlwaysReadsKnown V.store_state V.may_need V.crash_states from.old from.new result RepresentedBy (λ s r. r ≡ option_map recorded (item_at s selector.now)) }
    ensures valid { IfOk result (λ r. IfSome r (λ r. IsTrue (is_record r))) }
    ensures work { ReadsPages (V.store_state from.old).height (V.store_state from.old).made (V.store_state from.new).made }
{
    items_have_records();
    let mut buffer = [0; LONGEST_VALUE];
    let Some(length) = from.look_up(&item_key(selector), &mut buffer)? else {
        return Ok(None);
    };
    match record_in(alloc, &buffer[..length]) {
        Ok(record) => Ok(Some(record)),
        Err(fault) => Err(fault),
    }
}

/// What some bytes, if they are a record, say in the line of a menu.
fn front_in(bytes: &[u8]) -> Result<CardFront, SiteOpenFault>
    ensures only { (r : RecordValue) → IsTrue (is_record r) → bytes.now ≡ record_bytes r → result ≡ Ok (record_front r) }
    ensures fault { IfErr result (λ e. e ≡ BadRecord) }
{
    match read_front(bytes) {
        Ok(front) => Ok(front),
        Err(_) => Err(SiteOpenFault::BadRecord),
    }
}

/// What the line of a menu says of what stands at a selector, by way of the buffer. It takes no memory.
pub fn front_at<V: ValueLookup>(
    from: &mut V,
    selector: &Selector,
    buffer: &mut [u8; LONGEST_VALUE],
) -> Result<Option<CardFront>, SiteOpenFault>
    ensures front { AlwaysReadsKnown V.store_state V.may_need V.crash_states from.old from.new result RepresentedBy (λ s front. front ≡ front_at s selector.now) }
    ensures work { ReadsPages (V.store_state from.old).height (V.store_state from.old).made (V.store_state from.new).made }
{
    items_have_records();
    let Some(length) = from.look_up(&item_key(selector), buffer)? else {
        return Ok(None);
    };
    match front_in(&buffer[..length]) {
        Ok(front) => Ok(Some(front)),
        Err(fault) => Err(fault),
    }
}
