// Reading what a record says of views.
ghost use Rattle.std.specs.Prelude.{◌≡◌, ◌≤◌, ◌+◌, ℕ, not, nat_lt, nat_le, sum_by, IfOk, length};
ghost use Rattle.std.specs.List.{list_any};
ghost use Rattle.host_types.specs.Items.{most_view_bytes};
ghost use Rattle.site_records.specs.Limits as limits;
ghost use Rattle.site_records.specs.Limits.{is_same_face, is_view_count, all_lengths};
ghost use Rattle.site_records.specs.Field.{byte, passing, listed, times};
ghost use Rattle.site_records.specs.Reading.{Reads, name_at, language_at, view_at, views_at};

use crate::RecordFault;
use crate::fields::{are_visible, byte_of, short_of, u32_of};
use arrayvec::ArrayVec;
use host_types::{Bytes, CardView, CardViewList, MOST_VIEW_BYTES};
use std::alloc::{AllocError, Global};
use std::marker::Model;

/// A view whose name and language lie in the bytes of its record, so that reading it takes no memory.
#[derive(Drop)]
pub struct LentView<'a> {
    name: &'a [u8],
    language: &'a [u8],
    length: u32,
}

impl<'a> Model for LentView<'a> {
    ghost use Rattle.host_types.specs.declared.card.CardView.{CardView};

    ghost Value = { CardView };

    ghost view = { λ v. record { name = v.name.now; language = v.language.now; length = v.length } };
}

impl<'a> Default for LentView<'a> {
    fn default() -> Self {
        LentView {
            name: &[],
            language: &[],
            length: 0,
        }
    }
}

/// The views of a record.
pub type LentViews<'a> = ArrayVec<LentView<'a>, 8>;

impl<'a> LentView<'a> {
    fn owned(&self, alloc: Global) -> Result<CardView, AllocError>
        ensures { IfOk result (λ view. view ≡ self.now) }
    {
        Ok(CardView {
            name: Bytes::from_slice(alloc, self.name)?,
            language: Bytes::from_slice(alloc, self.language)?,
            length: self.length,
        })
    }
}

/// The views in memory of their own.
pub fn owned_views(alloc: Global, lent: &[LentView<'_>]) -> Result<CardViewList, AllocError>
    ensures { IfOk result (λ views. views ≡ lent.now) }
{
    let mut views = CardViewList::new(alloc);
    for view in lent {
        views.push(view.owned(alloc)?)?;
    }
    Ok(views)
}

/// The name of a view: 1 to 40 bytes of 33 to 126.
#[tactic(auto, unfolding(crate::specs::Field::passing))]
fn name_of(bytes: &[u8]) -> Result<(&[u8], &[u8]), RecordFault>
    ensures { Reads (λ x. (x.0.now, x.1.now)) result (name_at bytes.now) }
{
    let (text, rest) = short_of(bytes)?;
    if text.len() > 40 || text.is_empty() || !are_visible(text) {
        return Err(RecordFault::BadRecord);
    }
    Ok((text, rest))
}

/// The language of a view: at most 10 bytes of 33 to 126.
#[tactic(auto, unfolding(crate::specs::Field::passing))]
fn language_of(bytes: &[u8]) -> Result<(&[u8], &[u8]), RecordFault>
    ensures { Reads (λ x. (x.0.now, x.1.now)) result (language_at bytes.now) }
{
    let (text, rest) = short_of(bytes)?;
    if text.len() > 10 || !are_visible(text) {
        return Err(RecordFault::BadRecord);
    }
    Ok((text, rest))
}

#[tactic(auto, unfolding(crate::specs::Reading::view_at, crate::specs::Field::both, crate::specs::Field::mapped))]
pub fn view_of(bytes: &[u8]) -> Result<(LentView<'_>, &[u8]), RecordFault>
    ensures { Reads (λ x. (x.0, x.1.now)) result (view_at bytes.now) }
{
    let (name, rest) = name_of(bytes)?;
    let (language, rest) = language_of(rest)?;
    let (length, rest) = u32_of(rest)?;
    let view = LentView {
        name,
        language,
        length,
    };
    Ok((view, rest))
}

#[tactic(auto, unfolding(crate::specs::Field::passing))]
fn view_count(bytes: &[u8]) -> Result<(u8, &[u8]), RecordFault>
    ensures exact { Reads (λ x. (x.0, x.1.now)) result (passing is_view_count byte bytes.now) }
    ensures range { IfOk result (λ x. x.0 ≤ 8) }
{
    let (count, rest) = byte_of(bytes)?;
    if count < 1 || count > 8 {
        return Err(RecordFault::BadRecord);
    }
    Ok((count, rest))
}

/// So many views.
fn views_by(count: u8, bytes: &[u8]) -> Result<(LentViews<'_>, &[u8]), RecordFault>
    requires { count ≤ 8 }
    ensures { Reads (λ x. (x.0.items, x.1.now)) result (times view_at count bytes.now) }
{
    let mut views = ArrayVec::new();
    let mut rest = bytes;
    for _ in 0..count {
        let (view, behind) = view_of(rest)?;
        views.push(view);
        rest = behind;
    }
    Ok((views, rest))
}

#[tactic(auto, unfolding(crate::specs::Field::listed))]
fn listed_views(bytes: &[u8]) -> Result<(LentViews<'_>, &[u8]), RecordFault>
    ensures { Reads (λ x. (x.0.items, x.1.now)) result (listed (passing is_view_count byte) view_at bytes.now) }
{
    let (count, rest) = view_count(bytes)?;
    views_by(count, rest)
}

fn is_same_face(view: &LentView<'_>, other: &LentView<'_>) -> bool
    ensures { result ≡ is_same_face view.now other.now }
{
    view.name == other.name && view.language == other.language
}

fn has_same(view: &LentView<'_>, views: &[LentView<'_>]) -> bool
    ensures { result ≡ list_any (is_same_face view.now) views.now }
{
    for other in views {
        if is_same_face(view, other) {
            return true;
        }
    }
    false
}

fn have_twins(views: &[LentView<'_>]) -> bool
    ensures { result ≡ limits.have_twins views.now }
{
    let mut rest = views;
    while let [view, others @ ..] = rest {
        if has_same(view, others) {
            return true;
        }
        rest = others;
    }
    false
}

/// Whether the views have more bytes together than so many.
pub fn are_larger(views: &[LentView<'_>], most: usize) -> bool
    ensures { result ≡ nat_lt most (all_lengths views.now) }
{
    let mut room = most;
    for view in views {
        let length = view.length as usize;
        if length > room {
            return true;
        }
        room -= length;
    }
    false
}

/// Whether the views have more bytes together than they may.
#[tactic(auto, unfolding(host_types::specs::Items::most_view_bytes))]
fn are_large(views: &[LentView<'_>]) -> bool
    ensures { result ≡ nat_lt most_view_bytes (all_lengths views.now) }
{
    are_larger(views, MOST_VIEW_BYTES)
}

#[tactic(auto, unfolding(crate::specs::Limits::go_together))]
fn go_together(views: &[LentView<'_>]) -> bool
    ensures { result ≡ limits.go_together views.now }
{
    !have_twins(views) && !are_large(views)
}

/// The views of a document: 1 to 8, of different faces and not too long together.
#[tactic(auto, unfolding(crate::specs::Reading::views_at, crate::specs::Field::passing))]
pub fn views_of(bytes: &[u8]) -> Result<(LentViews<'_>, &[u8]), RecordFault>
    ensures { Reads (λ x. (x.0.items, x.1.now)) result (views_at bytes.now) }
{
    let (views, rest) = listed_views(bytes)?;
    if !go_together(views.as_slice()) {
        return Err(RecordFault::BadRecord);
    }
    Ok((views, rest))
}
