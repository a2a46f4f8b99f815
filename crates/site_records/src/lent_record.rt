// Records that are read without memory.
ghost use Rattle.std.specs.Prelude.{◌≡◌, IfOk};
ghost use Rattle.site_records.specs.Limits.{is_small};
ghost use Rattle.site_records.specs.Lent.{lent_body};

use crate::view_reading::{LentViews, are_larger, owned_views};
use crate::{Record, RecordBody};
use host_types::{Bytes, Kind, Selector, Stamp, Title};
use std::alloc::{AllocError, Global};
use std::marker::Model;

/// The most bytes that the views of an item have together in version 1.
const MOST_VIEW_BYTES_V1: usize = 65_536;

/// A body whose views lie in the bytes of its record.
#[derive(Drop)]
pub enum LentBody<'a> {
    Views(Kind, LentViews<'a>),
    Menu(u32),
    Board(u16, u64),
    Form(Selector, u32),
    Search(Selector),
    Moved(Selector),
}

impl<'a> LentBody<'a> {
    /// The body in memory of its own.
    fn owned(self, alloc: Global) -> Result<RecordBody, AllocError>
        ensures { IfOk result (λ body. body ≡ lent_body self.entry) }
    {
        Ok(match self {
            LentBody::Views(kind, views) => {
                RecordBody::Views(kind, owned_views(alloc, views.as_slice())?)
            }
            LentBody::Menu(size) => RecordBody::Menu { size },
            LentBody::Board(cap, next) => RecordBody::Board { cap, next },
            LentBody::Form(board, size) => RecordBody::Form { board, size },
            LentBody::Search(scope) => RecordBody::Search { scope },
            LentBody::Moved(target) => RecordBody::Moved { target },
        })
    }
}

/// A record whose summary and views lie in its bytes, so that reading it takes no memory.
#[derive(Drop)]
pub struct LentRecord<'a> {
    pub title: Title,
    pub stamp: Stamp,
    pub until: Option<Stamp>,
    pub summary: &'a [u8],
    pub body: LentBody<'a>,
}

impl<'a> Model for LentRecord<'a> {
    ghost use Rattle.site_records.specs.Lent.{lent_body};
    ghost use Rattle.site_records.specs.declared.record.Record.{Record};

    ghost Value = { Record };

    ghost view = { λ r. record { title = r.title; stamp = r.stamp; until = r.until; summary = r.summary.now; body = lent_body r.body } };
}

impl<'a> LentRecord<'a> {
    /// Whether version 1 has bodies so large.
    #[tactic(auto, unfolding(crate::specs::Limits::most_view_bytes_v1))]
    pub fn is_small(&self) -> bool
        ensures { result ≡ is_small self.now.body }
    {
        match &self.body {
            LentBody::Views(_, views) => !are_larger(views.as_slice(), MOST_VIEW_BYTES_V1),
            _ => true,
        }
    }

    /// The record in memory of its own.
    pub fn owned(self, alloc: Global) -> Result<Record, AllocError>
        ensures { IfOk result (λ r. r ≡ self.entry) }
    {
        let LentRecord {
            title,
            stamp,
            until,
            summary,
            body,
        } = self;
        Ok(Record {
            title,
            stamp,
            until,
            summary: Bytes::from_slice(alloc, summary)?,
            body: body.owned(alloc)?,
        })
    }
}
