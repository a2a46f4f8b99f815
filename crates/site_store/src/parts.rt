// Reading the parts of an item.
ghost use Rattle.std.specs.Prelude.{◌≡◌, ◌≤◌, ◌<◌, ◌+◌, ◌*◌, IfOk, OnOk, take};
ghost use Rattle.std.specs.Prelude as list;
ghost use Rattle.host_types.specs.Card.{card_view};
ghost use Rattle.site_store.specs.StoreReads.{HasPart, HasSize, chunk_size, IsPartOf};
ghost use Rattle.site_records.specs.Layout.{chunk_count};
ghost use Rattle.site_store.specs.Reads.{ReadsKnown, AlwaysReadsKnown};
ghost use Rattle.site_store.specs.Work.{MakesLookUps};

use crate::SiteOpenFault;
use crate::value_lookup::ValueLookup;
use host_types::{Bytes, CHUNK, CardView, MOST_VIEW_BYTES, Selector, View};
use page_store::LONGEST_VALUE;
use site_records::chunk_key;
use std::alloc::Global;

/// How many bytes chunk k of so many bytes has.
fn chunk_size(size: usize, k: u16) -> usize
    requires { 1000 * k < size }
    ensures { result ≡ chunk_size size k }
{
    let rest = size - CHUNK * usize::from(k);
    if rest < CHUNK { rest } else { CHUNK }
}

/// Adds chunk k of a part to the bytes before it.
fn add_chunk<V: ValueLookup>(
    from: &mut V,
    selector: &Selector,
    part: u8,
    k: u16,
    size: usize,
    bytes: &mut Vec<u8>,
) -> Result<(), SiteOpenFault>
    requires { 1000 * k < size }
    ensures bytes { AlwaysReadsKnown V.store_state V.may_need V.crash_states from.old from.new result (IsPartOf selector.now part size) (λ p _. bytes.old.items ≡ take (1000 * k) p → bytes.new.items ≡ take (1000 * k + 1000) p) }
    ensures size { list.length bytes.old.items ≡ 1000 * k → OnOk result (HasSize (list.length bytes.new.items) (1000 * k + 1000) size) }
    ensures work { MakesLookUps 1 (V.store_state from.old) (V.store_state from.new) }
{
    let mut buffer = [0; LONGEST_VALUE];
    let expected = chunk_size(size, k);
    let found = from.look_up(&chunk_key(selector, part, k), &mut buffer)?;
    match found {
        Some(length) if length == expected => {
            bytes.extend_from_slice(&buffer[..length])?;
            Ok(())
        }
        _ => Err(SiteOpenFault::BadRecord),
    }
}

/// The bytes of a part, so many.
#[tactic(auto, using(crate::specs::ReadLaws::reads_later, crate::proofs::LocalReads::fault_later))]
pub fn read_part<V: ValueLookup>(
    alloc: Global,
    from: &mut V,
    selector: &Selector,
    part: u8,
    size: usize,
) -> Result<Bytes, SiteOpenFault>
    requires { size ≤ MOST_VIEW_BYTES }
    ensures bytes { ReadsKnown V.store_state V.may_need V.crash_states from.old from.new result (IsPartOf selector.now part size) (λ p b. b ≡ p) }
    ensures size { IfOk result (λ b. list.length b ≡ size) }
    ensures work { MakesLookUps (chunk_count size) (V.store_state from.old) (V.store_state from.new) }
{
    let mut bytes = Vec::new(alloc);
    for k in 0..(size + 999) / CHUNK {
        match add_chunk(from, selector, part, k as u16, size, &mut bytes) {
            Ok(()) => {}
            Err(fault) => return Err(fault),
        }
    }
    Ok(Bytes::from(bytes))
}

/// A view with its bytes.
pub fn read_view<V: ValueLookup>(
    alloc: Global,
    from: &mut V,
    selector: &Selector,
    part: u8,
    view: &CardView,
) -> Result<View, SiteOpenFault>
    requires { view.now.length ≤ MOST_VIEW_BYTES }
    ensures view { ReadsKnown V.store_state V.may_need V.crash_states from.old from.new result (λ h v. (view.now ≡ card_view v) × HasPart h.pairs selector.now part v.bytes) (λ v w. w ≡ v) }
    ensures card { IfOk result (λ w. card_view w ≡ view.now) }
{
    let bytes = match read_part(alloc, from, selector, part, view.length as usize) {
        Ok(bytes) => bytes,
        Err(fault) => return Err(fault),
    };
    Ok(View {
        name: view.name.clone()?,
        language: view.language.clone()?,
        bytes,
    })
}
