// Writing records.
ghost use Rattle.std.specs.Prelude.{◌≡◌, ◌≤◌, ◌<◌, ◌+◌, ◌*◌, ◌^◌, ◌++◌, ◌∷◌, All, length, map, flat_map, IfOk, OnOk, IsTrue};
ghost use Rattle.std.specs.Int.{w64, to_be_bytes};
ghost use Rattle.std.specs.List.{list_all};
ghost use Rattle.host_types.specs.Card.{card_view};
ghost use Rattle.site_records.specs.Limits.{fits_view, fits_body, fits_record, is_short_body, is_short};
ghost use Rattle.site_records.specs.Records as spec;

use crate::fields::NEVER;
use crate::part_writing::{entries_bytes, put_short, questions_bytes};
use crate::{Record, RecordBody};
use host_types::{Body, Bytes, CardView, CardViewList, Item, Stamp, View};
use std::alloc::{AllocError, Global};

/// The greatest length of a record in bytes: that of a document in eight views.
pub const LONGEST_RECORD: usize = 939;

/// The greatest length of a record of version 1.
pub const LONGEST_RECORD_V1: usize = 931;

fn put_view(out: &mut Vec<u8>, view: &CardView) -> Result<(), AllocError>
    requires { IsTrue (fits_view view.now) }
    ensures bytes { OnOk result (out.new.items ≡ out.old.items ++ spec.view_head view.now) }
    ensures length { OnOk result (length out.new.items ≤ length out.old.items + 56) }
{
    put_short(out, view.name.as_slice())?;
    put_short(out, view.language.as_slice())?;
    out.extend_from_slice(&view.length.to_be_bytes())
}

#[tactic(auto, using(crate::proofs::Lengths::each_view))]
fn put_views(out: &mut Vec<u8>, views: &[CardView]) -> Result<(), AllocError>
    requires { IsTrue (list_all fits_view views.now) }
    ensures bytes { OnOk result (out.new.items ≡ out.old.items ++ flat_map spec.view_head views.now) }
    ensures length { OnOk result (length out.new.items ≤ length out.old.items + 56 * length views.now) }
{
    for view in views {
        put_view(out, view)?;
    }
    Ok(())
}

impl RecordBody {
    fn tag(&self) -> u8
        ensures { result ≡ spec.tag_of self.now }
    {
        match self {
            RecordBody::Views(..) => b'V',
            RecordBody::Menu { .. } => b'M',
            RecordBody::Board { .. } => b'B',
            RecordBody::Form { .. } => b'F',
            RecordBody::Search { .. } => b'S',
            RecordBody::Moved { .. } => b'R',
        }
    }

    fn put(&self, out: &mut Vec<u8>) -> Result<(), AllocError>
        requires { IsTrue (fits_body self.now) }
        ensures bytes { OnOk result (out.new.items ≡ out.old.items ++ spec.tail_bytes self.now) }
        ensures length { OnOk result (length out.new.items ≤ length out.old.items + 450) }
    {
        match self {
            RecordBody::Views(kind, views) => {
                let views = views.as_slice();
                out.push(kind.letter())?;
                out.push(views.len() as u8)?;
                put_views(out, views)
            }
            RecordBody::Menu { size } => out.extend_from_slice(&size.to_be_bytes()),
            RecordBody::Board { cap, next } => {
                out.extend_from_slice(&cap.to_be_bytes())?;
                out.extend_from_slice(&next.to_be_bytes())
            }
            RecordBody::Form { board, size } => {
                put_short(out, board.as_bytes())?;
                out.extend_from_slice(&size.to_be_bytes())
            }
            RecordBody::Search { scope } => put_short(out, scope.as_bytes()),
            RecordBody::Moved { target } => put_short(out, target.as_bytes()),
        }
    }
}

/// From when on an item isn't found, as a number.
fn until_number(until: Option<Stamp>) -> u64
    ensures { result ≡ spec.until_number until }
{
    match until {
        Some(until) => until.seconds(),
        None => NEVER,
    }
}

impl Record {
    /// The tag and the stamp.
    fn begin(&self, alloc: Global) -> Result<Vec<u8>, AllocError>
        ensures bytes { IfOk result (λ out. out.items ≡ spec.tag_of self.now.body ∷ to_be_bytes w64 self.now.stamp) }
        ensures length { IfOk result (λ out. length out.items ≡ 9) }
    {
        let mut out = Vec::new(alloc);
        out.push(self.body.tag())?;
        out.extend_from_slice(&self.stamp.seconds().to_be_bytes())?;
        Ok(out)
    }

    /// Adds the title, the summary, and what the body has.
    fn put_rest(&self, out: &mut Vec<u8>) -> Result<(), AllocError>
        requires { IsTrue (fits_record self.now) }
        ensures bytes { OnOk result (out.new.items ≡ out.old.items ++ spec.rest_bytes self.now) }
        ensures length { OnOk result (length out.new.items ≤ length out.old.items + 922) }
    {
        let summary = self.summary.as_slice();
        put_short(out, self.title.as_bytes())?;
        out.extend_from_slice(&(summary.len() as u16).to_be_bytes())?;
        out.extend_from_slice(summary)?;
        self.body.put(out)
    }

    /// The record in bytes, at most 939.
    #[tactic(auto, unfolding(crate::specs::Records::record_bytes))]
    pub fn to_bytes(&self, alloc: Global) -> Result<Bytes, AllocError>
        requires { IsTrue (fits_record self.now) }
        ensures bytes { IfOk result (λ bytes. bytes ≡ spec.record_bytes self.now) }
        ensures length { IfOk result (λ bytes. length bytes ≤ LONGEST_RECORD) }
    {
        let mut out = self.begin(alloc)?;
        out.extend_from_slice(&until_number(self.until).to_be_bytes())?;
        self.put_rest(&mut out)?;
        Ok(Bytes::from(out))
    }

    /// The record in the bytes of version 1, at most 931: they don't say when it expires.
    #[tactic(auto, unfolding(crate::specs::Records::record_bytes_v1))]
    pub fn to_bytes_v1(&self, alloc: Global) -> Result<Bytes, AllocError>
        requires { IsTrue (fits_record self.now) }
        ensures bytes { IfOk result (λ bytes. bytes ≡ spec.record_bytes_v1 self.now) }
        ensures length { IfOk result (λ bytes. length bytes ≤ LONGEST_RECORD_V1) }
    {
        let mut out = self.begin(alloc)?;
        self.put_rest(&mut out)?;
        Ok(Bytes::from(out))
    }
}

fn view_of(view: &View) -> Result<CardView, AllocError>
    requires { length view.now.bytes < 2 ^ 32 }
    ensures { IfOk result (λ card. card ≡ card_view view.now) }
{
    Ok(CardView {
        name: view.name.clone()?,
        language: view.language.clone()?,
        length: view.bytes.len() as u32,
    })
}

fn views_of(alloc: Global, views: &[View]) -> Result<CardViewList, AllocError>
    requires { All (λ v. length v.bytes < 2 ^ 32) views.now }
    ensures { IfOk result (λ cards. cards ≡ map card_view views.now) }
{
    let mut cards = CardViewList::new(alloc);
    for view in views {
        cards.push(view_of(view)?)?;
    }
    Ok(cards)
}

fn body_of(alloc: Global, body: &Body) -> Result<RecordBody, AllocError>
    requires { IsTrue (is_short_body body.now) }
    ensures { IfOk result (λ kept. kept ≡ spec.recorded_body body.now) }
{
    Ok(match body {
        Body::Views(kind, views) => RecordBody::Views(*kind, views_of(alloc, views.as_slice())?),
        Body::Menu(entries) => RecordBody::Menu {
            size: entries_bytes(alloc, entries)?.len() as u32,
        },
        Body::Board { cap, next } => RecordBody::Board {
            cap: *cap,
            next: *next,
        },
        Body::Form { board, questions } => RecordBody::Form {
            board: board.clone()?,
            size: questions_bytes(alloc, questions)?.len() as u32,
        },
        Body::Search { scope } => RecordBody::Search {
            scope: scope.clone()?,
        },
        Body::Moved { target } => RecordBody::Moved {
            target: target.clone()?,
        },
    })
}

#[tactic(auto, using(crate::proofs::Lengths::short_body))]
fn recorded(alloc: Global, item: &Item) -> Result<Record, AllocError>
    requires { IsTrue (is_short item.now) }
    ensures { IfOk result (λ r. r ≡ spec.recorded item.now) }
{
    Ok(Record {
        title: item.title.clone()?,
        stamp: item.stamp,
        until: item.until,
        summary: item.summary.clone()?,
        body: body_of(alloc, &item.body)?,
    })
}

impl Record {
    /// What is kept of an item apart from its parts. The item may not be too long.
    pub fn of_item(alloc: Global, item: &Item) -> Result<Record, AllocError>
        requires { IsTrue (is_short item.now) }
        ensures kept { IfOk result (λ r. r ≡ spec.recorded item.now) }
        ensures fits { IfOk result (λ r. IsTrue (fits_record r)) }
    {
        recorded(alloc, item)
    }
}

/// The record of an item in bytes, at most 939: the value of its key. The item may not be too long.
pub fn record_of(alloc: Global, item: &Item) -> Result<Bytes, AllocError>
    requires { IsTrue (is_short item.now) }
    ensures bytes { IfOk result (λ bytes. bytes ≡ spec.item_bytes item.now) }
    ensures length { IfOk result (λ bytes. length bytes ≤ LONGEST_RECORD) }
{
    Record::of_item(alloc, item)?.to_bytes(alloc)
}

/// The record of an item in the bytes of version 1, at most 931: they don't say when it expires. The item may not be too long.
pub fn record_of_v1(alloc: Global, item: &Item) -> Result<Bytes, AllocError>
    requires { IsTrue (is_short item.now) }
    ensures bytes { IfOk result (λ bytes. bytes ≡ spec.item_bytes_v1 item.now) }
    ensures length { IfOk result (λ bytes. length bytes ≤ LONGEST_RECORD_V1) }
{
    Record::of_item(alloc, item)?.to_bytes_v1(alloc)
}
