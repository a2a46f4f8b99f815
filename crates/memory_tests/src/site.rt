// The site of the run, and the changes that fill it.
use group_world::HubFault;
use host_types::{
    Admin, Body, Bytes, Change, Host, Item, Question, QuestionList, Refused, Selector, Stamp, Title,
};
use mem_site::MemSite;
use std::alloc::{AllocError, AllocFailed, Global};

/// Why a call does not end as it should.
#[derive(Clone, Copy, Debug, PartialEq, Eq)]
pub(crate) enum Ended {
    Memory,
    /// It answered something else.
    Other,
}

impl From<AllocError> for Ended {
    fn from(_: AllocError) -> Self {
        Ended::Memory
    }
}

impl<T: Drop> From<AllocFailed<T>> for Ended {
    fn from(_: AllocFailed<T>) -> Self {
        Ended::Memory
    }
}

impl From<Refused> for Ended {
    fn from(_: Refused) -> Self {
        Ended::Other
    }
}

impl From<HubFault> for Ended {
    fn from(fault: HubFault) -> Self {
        match fault {
            HubFault::Memory => Ended::Memory,
            _ => Ended::Other,
        }
    }
}

/// A site with an empty top menu.
pub fn small_site(alloc: Global) -> Result<MemSite, Ended> {
    Ok(MemSite::new(
        alloc,
        Host::new(b"localhost")?,
        7070,
        Admin::new(b"Ada <ada@localhost>")?,
        Title::new(b"Top")?,
        Stamp::start(),
    )?)
}

/// How many changes fill the site.
pub const CHANGES: usize = 4;

/// A text, a board, a form for it, or a search of all.
fn body(alloc: Global, place: usize) -> Result<Body, Ended> {
    match place {
        0 => {
            let text = Bytes::from_slice(alloc, b"Hello\n.dot\nlast")?;
            Ok(Item::text(alloc, Title::new(b"")?, Stamp::start(), text)?.body)
        }
        1 => Ok(Body::Board { cap: 2, next: 1 }),
        2 => {
            let mut questions = QuestionList::new(alloc);
            questions.push(Question::Ask(Title::new(b"Your name")?))?;
            Ok(Body::Form {
                board: Selector::new(b"/book")?,
                questions,
            })
        }
        _ => Ok(Body::Search {
            scope: Selector::root(),
        }),
    }
}

/// One of the changes by its place.
pub fn change(alloc: Global, place: usize) -> Result<Change, Ended> {
    let selector = match place {
        0 => b"/about".as_slice(),
        1 => b"/book",
        2 => b"/sign",
        _ => b"/find",
    };
    let item = Item {
        title: Title::new(b"About us")?,
        stamp: Stamp::start(),
        until: None,
        summary: Bytes::new(alloc),
        body: body(alloc, place)?,
    };
    Ok(Change::Put(Selector::new(selector)?, item))
}
