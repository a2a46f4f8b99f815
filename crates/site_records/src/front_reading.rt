// What the line of a menu says of an item, by its record.
ghost use Rattle.std.specs.Prelude.{◌≡◌, Ok, IfOk, IfErr, IsTrue};
ghost use Rattle.std.specs.Option.{option_map};
ghost use Rattle.site_records.specs.Fronts.{record_front, record_sort};
ghost use Rattle.site_records.specs.Lent.{lent_body};
ghost use Rattle.site_records.specs.Limits.{is_record, go_together};
ghost use Rattle.site_records.specs.Field.{passing, mapped, times, behind};
ghost use Rattle.site_records.specs.Reading.{Reads, view_at, views_at, body_behind, rest_at, record_at};
ghost use Rattle.site_records.specs.Records.{record_bytes};
ghost use Rattle.site_records.specs.declared.record.Record.{Record as RecordValue};
ghost use Rattle.site_records.specs.declared.record.RecordFault.TheVariants.{BadRecord};

use crate::RecordFault;
use crate::fields::{byte_of, until_of};
use crate::lent_record::LentBody;
use crate::letters::document_kind;
use crate::record_reading::{Head, body_behind, head_of, stamp_of};
use crate::view_reading::{are_larger, view_of, views_of};
use host_types::{CardFront, CardSort, MOST_VIEW_BYTES, Stamp};

impl<'a> LentBody<'a> {
    /// What its item is.
    fn sort(&self) -> CardSort
        ensures { result ≡ record_sort (lent_body self.now) }
    {
        match self {
            LentBody::Views(kind, _) => CardSort::Document(*kind),
            LentBody::Menu(_) => CardSort::Menu,
            LentBody::Board(_, _) => CardSort::Board,
            LentBody::Form(_, _) => CardSort::Form,
            LentBody::Search(_) => CardSort::Search,
            LentBody::Moved(_) => CardSort::Moved,
        }
    }
}

/// What stands behind one view, which may be as long as all of an item.
#[tactic(auto, unfolding(crate::specs::Field::behind, crate::specs::Field::passing, crate::specs::Limits::go_together, host_types::specs::Items::most_view_bytes))]
fn behind_view(bytes: &[u8]) -> Result<&[u8], RecordFault>
    ensures { Reads (λ rest. rest.now) result (behind (passing go_together (times view_at 1)) bytes.now) }
{
    let (view, rest) = view_of(bytes)?;
    if are_larger(&[view], MOST_VIEW_BYTES) {
        return Err(RecordFault::BadRecord);
    }
    Ok(rest)
}

/// What stands behind the views of a document. Where there is one alone, as most have, none is kept.
#[tactic(auto, unfolding(crate::specs::Reading::views_at, crate::specs::Field::behind, crate::specs::Field::passing, crate::specs::Field::listed, crate::specs::Field::byte))]
fn behind_views(bytes: &[u8]) -> Result<&[u8], RecordFault>
    ensures { Reads (λ rest. rest.now) result (behind views_at bytes.now) }
{
    match bytes {
        [1, rest @ ..] => behind_view(rest),
        _ => {
            let (_, rest) = views_of(bytes)?;
            Ok(rest)
        }
    }
}

/// What an item is whose body stands behind a tag, and what stands behind that.
#[tactic(auto, unfolding(crate::specs::Reading::body_behind, crate::specs::Field::behind, crate::specs::Field::both, crate::specs::Field::mapped))]
fn sort_behind(tag: u8, bytes: &[u8]) -> Result<(CardSort, &[u8]), RecordFault>
    ensures { Reads (λ x. (x.0, x.1.now)) result (mapped record_sort (body_behind tag) bytes.now) }
{
    if tag == b'V' {
        let (kind, rest) = document_kind(bytes)?;
        return Ok((CardSort::Document(kind), behind_views(rest)?));
    }
    let (body, rest) = body_behind(tag, bytes)?;
    Ok((body.sort(), rest))
}

/// What stands behind the moments of a record, all of the bytes, as the line of a menu has it.
#[tactic(auto, unfolding(crate::specs::Reading::rest_at, crate::specs::Field::mapped))]
fn front_behind(
    tag: u8,
    stamp: Stamp,
    until: Option<Stamp>,
    bytes: &[u8],
) -> Result<CardFront, RecordFault>
    ensures { Reads (λ front. front) result (option_map record_front (rest_at tag (stamp, until) bytes.now)) }
{
    let (head, rest) = head_of(bytes)?;
    let (sort, rest) = sort_behind(tag, rest)?;
    if !rest.is_empty() {
        return Err(RecordFault::BadRecord);
    }
    let Head { title, summary: _ } = head;
    Ok(CardFront { title, until, sort })
}

/// What the line of a menu has of a record, all of the bytes.
#[tactic(auto, unfolding(crate::specs::Reading::record_by, crate::specs::Reading::moments_at, crate::specs::Field::both))]
fn front_in(bytes: &[u8]) -> Result<CardFront, RecordFault>
    ensures { Reads (λ front. front) result (option_map record_front (record_at bytes.now)) }
{
    let (tag, rest) = byte_of(bytes)?;
    let (stamp, rest) = match stamp_of(rest) {
        Ok(read) => read,
        Err(fault) => return Err(fault),
    };
    let (until, rest) = match until_of(rest) {
        Ok(read) => read,
        Err(fault) => return Err(fault),
    };
    front_behind(tag, stamp, until, rest)
}

/// What the record that the bytes are, all of them, says in the line of a menu: `BadRecord` where they are no record. It takes no memory.
#[tactic(auto, using(crate::proofs::RecordLaws::record_again))]
pub fn read_front(bytes: &[u8]) -> Result<CardFront, RecordFault>
    ensures only { (r : RecordValue) → IsTrue (is_record r) → bytes.now ≡ record_bytes r → result ≡ Ok (record_front r) }
    ensures found { IfOk result (λ front. (r : RecordValue) × IsTrue (is_record r) × (bytes.now ≡ record_bytes r) × (front ≡ record_front r)) }
    ensures fault { IfErr result (λ e. e ≡ BadRecord) }
{
    front_in(bytes)
}
