// Reading items.
ghost use Rattle.std.specs.Prelude.{◌≡◌, ◌≤◌, false, IfOk, IfSome, IsTrue, All, is_some, map};
ghost use Rattle.std.specs.Prelude as list;
ghost use Rattle.std.specs.List.{list_any};
ghost use Rattle.host_types.specs.Items.{is_long_question};
ghost use Rattle.host_types.specs.Site.{item_at};
ghost use Rattle.host_types.specs.Card.{card_view};
ghost use Rattle.site_records.specs.Limits.{is_body, is_short, is_short_body, are_entries, are_questions};
ghost use Rattle.site_store.specs.Represented.{RepresentedBy};
ghost use Rattle.site_store.specs.StoreReads.{HasViews, HasEntries, HasQuestions, HasBody};
ghost use Rattle.site_records.specs.Layout.{chunk_count};
ghost use Rattle.site_store.specs.Reads.{ReadsKnown, AlwaysReadsKnown};
ghost use Rattle.site_store.specs.Work.{MakesLookUps};

use crate::SiteOpenFault;
use crate::parts::{read_part, read_view};
use crate::records::record_at;
use crate::value_lookup::ValueLookup;
use host_types::{
    Body, CardView, EntryList, Item, MOST_VIEW_BYTES, QuestionList, Selector, ViewList,
};
use page_store::LONGEST_VALUE;
use site_records::{Record, RecordBody, RecordFault, item_key, read_entries, read_questions};
use std::alloc::Global;

/// The views of a document with their bytes.
#[tactic(auto, using(crate::specs::ReadLaws::reads_later, crate::proofs::LocalReads::fault_later))]
fn read_views<V: ValueLookup>(
    alloc: Global,
    from: &mut V,
    selector: &Selector,
    cards: &[CardView],
) -> Result<ViewList, SiteOpenFault>
    requires few { list.length cards.now ≤ 8 }
    requires short { All (λ v. v.length ≤ MOST_VIEW_BYTES) cards.now }
    ensures views { ReadsKnown V.store_state V.may_need V.crash_states from.old from.new result (λ h vs. HasViews h.pairs selector.now cards.now vs) (λ vs l. l ≡ vs) }
    ensures cards { IfOk result (λ l. map card_view l ≡ cards.now) }
{
    let mut views = ViewList::new(alloc);
    for place in 0..cards.len() {
        match read_view(alloc, from, selector, place as u8, &cards[place]) {
            Ok(view) => views.push(view)?,
            Err(fault) => return Err(fault),
        }
    }
    Ok(views)
}

/// The entries of a menu.
pub fn read_menu<V: ValueLookup>(
    alloc: Global,
    from: &mut V,
    selector: &Selector,
    size: u32,
) -> Result<EntryList, SiteOpenFault>
    requires { size ≤ MOST_VIEW_BYTES }
    ensures entries { ReadsKnown V.store_state V.may_need V.crash_states from.old from.new result (λ h es. HasEntries h.pairs selector.now size es) (λ es l. l ≡ es) }
    ensures valid { IfOk result (λ l. IsTrue (are_entries l)) }
    ensures work { MakesLookUps (chunk_count size) (V.store_state from.old) (V.store_state from.new) }
{
    let bytes = match read_part(alloc, from, selector, 0, size as usize) {
        Ok(bytes) => bytes,
        Err(fault) => return Err(fault),
    };
    match read_entries(alloc, bytes.as_slice()) {
        Ok(entries) => Ok(entries),
        Err(RecordFault::BadRecord) => Err(SiteOpenFault::BadRecord),
        Err(RecordFault::Memory) => Err(SiteOpenFault::Memory),
    }
}

/// The questions of a form.
pub fn read_form<V: ValueLookup>(
    alloc: Global,
    from: &mut V,
    selector: &Selector,
    size: u32,
) -> Result<QuestionList, SiteOpenFault>
    requires { size ≤ MOST_VIEW_BYTES }
    ensures questions { ReadsKnown V.store_state V.may_need V.crash_states from.old from.new result (λ h qs. HasQuestions h.pairs selector.now size qs) (λ qs l. l ≡ qs) }
    ensures valid { IfOk result (λ l. IsTrue (are_questions l)) }
    ensures short { IfOk result (λ l. list_any is_long_question l ≡ false) }
    ensures work { MakesLookUps (chunk_count size) (V.store_state from.old) (V.store_state from.new) }
{
    let bytes = match read_part(alloc, from, selector, 0, size as usize) {
        Ok(bytes) => bytes,
        Err(fault) => return Err(fault),
    };
    match read_questions(alloc, bytes.as_slice()) {
        Ok(questions) => Ok(questions),
        Err(RecordFault::BadRecord) => Err(SiteOpenFault::BadRecord),
        Err(RecordFault::Memory) => Err(SiteOpenFault::Memory),
    }
}

/// A body with its parts, by what its record says of it.
#[tactic(auto, unfolding(site_records::specs::Limits::is_menu_size, site_records::specs::Limits::is_form_size))]
fn read_body<V: ValueLookup>(
    alloc: Global,
    from: &mut V,
    selector: &Selector,
    kept: RecordBody,
) -> Result<Body, SiteOpenFault>
    requires { IsTrue (is_body kept) }
    ensures body { ReadsKnown V.store_state V.may_need V.crash_states from.old from.new result (λ h b. HasBody h selector.now kept b) (λ b x. x ≡ b) }
    ensures short { IfOk result (λ x. IsTrue (is_short_body x)) }
{
    match kept {
        RecordBody::Views(kind, cards) => match read_views(
            alloc,
            from,
            selector,
            cards.as_slice(),
        ) {
            Ok(views) => Ok(Body::Views(kind, views)),
            Err(fault) => Err(fault),
        },
        RecordBody::Menu { size } => match read_menu(alloc, from, selector, size) {
            Ok(entries) => Ok(Body::Menu(entries)),
            Err(fault) => Err(fault),
        },
        RecordBody::Board { cap, next } => Ok(Body::Board { cap, next }),
        RecordBody::Form { board, size } => match read_form(alloc, from, selector, size) {
            Ok(questions) => Ok(Body::Form { board, questions }),
            Err(fault) => Err(fault),
        },
        RecordBody::Search { scope } => Ok(Body::Search { scope }),
        RecordBody::Moved { target } => Ok(Body::Moved { target }),
    }
}

/// Whether an item stands at a selector.
pub fn has_item<V: ValueLookup>(from: &mut V, selector: &Selector) -> Result<bool, SiteOpenFault>
    ensures there { AlwaysReadsKnown V.store_state V.may_need V.crash_states from.old from.new result RepresentedBy (λ s there. there ≡ is_some (item_at s selector.now)) }
{
    let mut buffer = [0; LONGEST_VALUE];
    match from.look_up(&item_key(selector), &mut buffer) {
        Ok(Some(_)) => Ok(true),
        Ok(None) => Ok(false),
        Err(fault) => Err(fault),
    }
}

/// What stands at a selector.
pub fn item_in<V: ValueLookup>(
    alloc: Global,
    from: &mut V,
    selector: &Selector,
) -> Result<Option<Item>, SiteOpenFault>
    ensures item { AlwaysReadsKnown V.store_state V.may_need V.crash_states from.old from.new result RepresentedBy (λ s o. o ≡ item_at s selector.now) }
    ensures short { IfOk result (λ o. IfSome o (λ item. IsTrue (is_short item))) }
{
    let record = match record_at(alloc, from, selector) {
        Ok(Some(record)) => record,
        Ok(None) => return Ok(None),
        Err(fault) => return Err(fault),
    };
    let Record {
        title,
        stamp,
        until,
        summary,
        body,
    } = record;
    match read_body(alloc, from, selector, body) {
        Ok(body) => Ok(Some(Item {
            title,
            stamp,
            until,
            summary,
            body,
        })),
        Err(fault) => Err(fault),
    }
}
