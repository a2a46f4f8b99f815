// Reading a record.
ghost use Rattle.std.specs.Prelude.{◌≡◌, ◌≤◌, ℕ, List, IfOk, IfErr, IsTrue, Some};
ghost use Rattle.site_records.specs.Lent.{lent_body};
ghost use Rattle.site_records.specs.Records.{record_bytes, record_bytes_v1};
ghost use Rattle.site_records.specs.Limits.{is_record, is_record_v1, fits_record};
ghost use Rattle.site_records.specs.Reading.{Reads, Gives, MemoryOnlyFor, stamp_at, moments_at_v1, head_at, board_at, menu_size_at, form_size_at, body_behind, rest_at, record_by, record_at, record_at_v1};
ghost use Rattle.site_records.specs.declared.record.Record.{Record};

use crate::fields::{
    byte_of, seconds_of, selector_of, summary_of, title_of, u16_of, u32_of, u64_of, until_of,
};
use crate::lent_record::{LentBody, LentRecord};
use crate::letters::document_kind;
use crate::view_reading::views_of;
use crate::{Record, RecordFault};
use host_types::{Stamp, Title};
use std::alloc::Global;

/// The greatest length of a menu's entries: 100 of 431 bytes.
const LARGEST_MENU: u32 = 43_100;

/// The greatest length of a form's questions: 16 of 482 bytes.
const LARGEST_FORM: u32 = 7_712;

#[derive(Drop)]
pub(crate) struct Head<'a> {
    pub title: Title,
    pub summary: &'a [u8],
}

/// Title and summary.
#[tactic(auto, unfolding(crate::specs::Reading::head_at, crate::specs::Field::both))]
pub(crate) fn head_of(bytes: &[u8]) -> Result<(Head<'_>, &[u8]), RecordFault>
    ensures { Reads (λ x. ((x.0.title, x.0.summary.now), x.1.now)) result (head_at bytes.now) }
{
    let (title, rest) = title_of(bytes)?;
    let (summary, rest) = summary_of(rest)?;
    Ok((Head { title, summary }, rest))
}

/// When an item last changed.
pub(crate) fn stamp_of(bytes: &[u8]) -> Result<(Stamp, &[u8]), RecordFault>
    ensures { Reads (λ x. (x.0, x.1.now)) result (stamp_at bytes.now) }
{
    let (seconds, rest) = seconds_of(bytes)?;
    match Stamp::new(seconds) {
        Ok(stamp) => Ok((stamp, rest)),
        Err(_) => Err(RecordFault::BadRecord),
    }
}

/// The length of a menu's entries: an entry has at least 2 bytes.
#[tactic(auto, unfolding(crate::specs::Field::passing, crate::specs::Limits::is_menu_size))]
fn menu_size(bytes: &[u8]) -> Result<(u32, &[u8]), RecordFault>
    ensures { Reads (λ x. (x.0, x.1.now)) result (menu_size_at bytes.now) }
{
    let (size, rest) = u32_of(bytes)?;
    if size == 1 || size > LARGEST_MENU {
        return Err(RecordFault::BadRecord);
    }
    Ok((size, rest))
}

/// The length of a form's questions: there is one, and it has at least 3 bytes.
#[tactic(auto, unfolding(crate::specs::Field::passing, crate::specs::Limits::is_form_size))]
fn form_size(bytes: &[u8]) -> Result<(u32, &[u8]), RecordFault>
    ensures { Reads (λ x. (x.0, x.1.now)) result (form_size_at bytes.now) }
{
    let (size, rest) = u32_of(bytes)?;
    if size < 3 || size > LARGEST_FORM {
        return Err(RecordFault::BadRecord);
    }
    Ok((size, rest))
}

/// How many posts a board keeps, and the number of the next.
#[tactic(auto, unfolding(crate::specs::Reading::board_at, crate::specs::Field::both, crate::specs::Field::passing))]
fn board_of(bytes: &[u8]) -> Result<((u16, u64), &[u8]), RecordFault>
    ensures { Reads (λ x. (x.0, x.1.now)) result (board_at bytes.now) }
{
    let (cap, rest) = u16_of(bytes)?;
    if cap < 1 || cap > 100 {
        return Err(RecordFault::BadRecord);
    }
    let (next, rest) = u64_of(rest)?;
    Ok(((cap, next), rest))
}

/// What stands behind tag and head.
#[tactic(auto, unfolding(crate::specs::Reading::body_behind, crate::specs::Field::both, crate::specs::Field::mapped))]
pub(crate) fn body_behind(tag: u8, bytes: &[u8]) -> Result<(LentBody<'_>, &[u8]), RecordFault>
    ensures { Reads (λ x. (lent_body x.0, x.1.now)) result (body_behind tag bytes.now) }
{
    match tag {
        b'V' => {
            let (kind, rest) = document_kind(bytes)?;
            let (views, rest) = views_of(rest)?;
            Ok((LentBody::Views(kind, views), rest))
        }
        b'M' => {
            let (size, rest) = menu_size(bytes)?;
            Ok((LentBody::Menu(size), rest))
        }
        b'B' => {
            let ((cap, next), rest) = board_of(bytes)?;
            Ok((LentBody::Board(cap, next), rest))
        }
        b'F' => {
            let (board, rest) = selector_of(bytes)?;
            let (size, rest) = form_size(rest)?;
            Ok((LentBody::Form(board, size), rest))
        }
        b'S' => {
            let (scope, rest) = selector_of(bytes)?;
            Ok((LentBody::Search(scope), rest))
        }
        b'R' => {
            let (target, rest) = selector_of(bytes)?;
            Ok((LentBody::Moved(target), rest))
        }
        _ => Err(RecordFault::BadRecord),
    }
}

/// What stands behind the moments, all of the bytes.
#[tactic(auto, unfolding(crate::specs::Reading::rest_at))]
fn record_behind(
    tag: u8,
    stamp: Stamp,
    until: Option<Stamp>,
    bytes: &[u8],
) -> Result<LentRecord<'_>, RecordFault>
    ensures { Reads (λ r. r) result (rest_at tag (stamp, until) bytes.now) }
{
    let (head, rest) = head_of(bytes)?;
    let (body, rest) = body_behind(tag, rest)?;
    if !rest.is_empty() {
        return Err(RecordFault::BadRecord);
    }
    let Head { title, summary } = head;
    Ok(LentRecord {
        title,
        stamp,
        until,
        summary,
        body,
    })
}

#[tactic(auto, unfolding(crate::specs::Reading::record_by, crate::specs::Reading::moments_at, crate::specs::Field::both))]
pub(crate) fn lent_record(bytes: &[u8]) -> Result<LentRecord<'_>, RecordFault>
    ensures { Reads (λ r. r) result (record_at bytes.now) }
{
    let (tag, rest) = byte_of(bytes)?;
    let (stamp, rest) = match stamp_of(rest) {
        Ok(read) => read,
        Err(fault) => return Err(fault),
    };
    let (until, rest) = match until_of(rest) {
        Ok(read) => read,
        Err(fault) => return Err(fault),
    };
    record_behind(tag, stamp, until, rest)
}

#[tactic(auto, unfolding(crate::specs::Reading::record_by, crate::specs::Reading::moments_at_v1, crate::specs::Field::mapped))]
fn large_record_v1(bytes: &[u8]) -> Result<LentRecord<'_>, RecordFault>
    ensures { Reads (λ r. r) result (record_by moments_at_v1 bytes.now) }
{
    let (tag, rest) = byte_of(bytes)?;
    let (stamp, rest) = match stamp_of(rest) {
        Ok(read) => read,
        Err(fault) => return Err(fault),
    };
    record_behind(tag, stamp, None, rest)
}

#[tactic(auto, unfolding(crate::specs::Reading::record_at_v1))]
fn lent_record_v1(bytes: &[u8]) -> Result<LentRecord<'_>, RecordFault>
    ensures { Reads (λ r. r) result (record_at_v1 bytes.now) }
{
    let record = large_record_v1(bytes)?;
    if !record.is_small() {
        return Err(RecordFault::BadRecord);
    }
    Ok(record)
}

/// The bytes are read whole before memory is asked for.
fn whole_record(alloc: Global, bytes: &[u8]) -> Result<Record, RecordFault>
    ensures { Gives (λ r. r) result (record_at bytes.now) }
{
    let record = lent_record(bytes)?;
    Ok(record.owned(alloc)?)
}

fn whole_record_v1(alloc: Global, bytes: &[u8]) -> Result<Record, RecordFault>
    ensures { Gives (λ r. r) result (record_at_v1 bytes.now) }
{
    let record = lent_record_v1(bytes)?;
    Ok(record.owned(alloc)?)
}

/// The record that the bytes are, all of them: `BadRecord` where they are not what is written of any item that keeps the limits.
///
/// Lengths that no menu's entries and no form's questions have are refused. A board's record with the number 0 as its next is read, though no site has such a board.
pub fn read_record(alloc: Global, bytes: &[u8]) -> Result<Record, RecordFault>
    // What is read is a record, written so.
    ensures found { IfOk result (λ r. IsTrue (is_record r) × (bytes.now ≡ record_bytes r)) }
    // So it can be written again.
    ensures fits { IfOk result (λ r. IsTrue (fits_record r)) }
    // What is written so is read, unless memory runs out.
    ensures only { (r : Record) → IsTrue (is_record r) → bytes.now ≡ record_bytes r → Gives (λ x. x) result (Some r) }
    // Memory is lacking for no other bytes.
    ensures memory { IfErr result (MemoryOnlyFor is_record record_bytes bytes.now) }
{
    whole_record(alloc, bytes)
}

/// The record that the bytes are in version 1 of images, all of them: `BadRecord` where they are not what is written so of any item that keeps the limits of version 1.
pub fn read_record_v1(alloc: Global, bytes: &[u8]) -> Result<Record, RecordFault>
    // What is read is a record, written so.
    ensures found { IfOk result (λ r. IsTrue (is_record_v1 r) × (bytes.now ≡ record_bytes_v1 r)) }
    // So it can be written again.
    ensures fits { IfOk result (λ r. IsTrue (fits_record r)) }
    // What is written so is read, unless memory runs out.
    ensures only { (r : Record) → IsTrue (is_record_v1 r) → bytes.now ≡ record_bytes_v1 r → Gives (λ x. x) result (Some r) }
    // Memory is lacking for no other bytes.
    ensures memory { IfErr result (MemoryOnlyFor is_record_v1 record_bytes_v1 bytes.now) }
{
    whole_record_v1(alloc, bytes)
}
