// What is known of an item without the bytes of its documents.
ghost use Rattle.std.specs.Prelude.{◌≡◌, ◌<◌, ◌≤◌, ◌^◌, OnOk, OnErr, IfOk, IsTrue, [], ◌∷◌, ◌++◌, All, length, map, take, drop};
ghost use Rattle.host_types.specs.Card.{card_view, card_body, card_of, viewed, chunk_of, has_short_views};

use crate::{
    Body, Bytes, EntryList, Item, Kind, List, QuestionList, Selector, Stamp, Title, View, ViewList,
};
use std::alloc::{AllocError, Global};

/// One form of a document, with its length in place of its bytes.
#[derive(Clone, Debug, Drop)]
pub struct CardView {
    /// Its content type, as `Text/plain`.
    pub name: Bytes,
    /// Empty where it has none.
    pub language: Bytes,
    /// In bytes.
    pub length: u32,
}

/// The views of a card, in the order in which they are offered.
pub type CardViewList = List<CardView>;

/// What an item has beside its title, stamp and summary, without the bytes of its views.
#[derive(Debug, Drop)]
pub enum CardBody {
    /// A document, in one or more views.
    Views(Kind, CardViewList),
    /// Links and lines to read.
    Menu(EntryList),
    /// A board of posts: how many it keeps, and the number of the next.
    Board {
        cap: u16,
        next: u64,
    },
    /// Questions whose answers become a post of a board.
    Form {
        board: Selector,
        questions: QuestionList,
    },
    /// A search of the items whose selectors begin with the scope.
    Search {
        scope: Selector,
    },
    /// A note of where an item went.
    Moved {
        target: Selector,
    },
}

/// An item with lengths in place of the bytes of its views.
#[derive(Debug, Drop)]
pub struct Card {
    /// What menus show of it.
    pub title: Title,
    /// When it last changed.
    pub stamp: Stamp,
    /// From when on clients don't find it, if it expires at all.
    pub until: Option<Stamp>,
    /// Empty where it has none.
    pub summary: Bytes,
    /// What it has beside.
    pub body: CardBody,
}

impl View {
    fn card(&self) -> Result<CardView, AllocError>
        requires { length self.now.bytes < 2 ^ 32 }
        ensures { IfOk result (λ card. card ≡ card_view self.now) }
    {
        Ok(CardView {
            name: self.name.clone()?,
            language: self.language.clone()?,
            length: self.bytes.len() as u32,
        })
    }
}

fn cards(alloc: Global, views: &ViewList) -> Result<CardViewList, AllocError>
    requires { All (λ v. length v.bytes < 2 ^ 32) views.now }
    ensures { IfOk result (λ cards. cards ≡ map card_view views.now) }
{
    let mut cards = CardViewList::new(alloc);
    for view in views.as_slice() {
        cards.push(view.card()?)?;
    }
    Ok(cards)
}

/// Equal entries, which a copied list of any type does not promise.
fn entries_of(entries: &EntryList) -> Result<EntryList, AllocError>
    ensures { IfOk result (λ copy. copy ≡ entries.now) }
{
    Ok(entries.clone()?)
}

/// Equal questions, which a copied list of any type does not promise.
fn questions_of(questions: &QuestionList) -> Result<QuestionList, AllocError>
    ensures { IfOk result (λ copy. copy ≡ questions.now) }
{
    Ok(questions.clone()?)
}

impl Body {
    fn card(&self, alloc: Global) -> Result<CardBody, AllocError>
        requires { IsTrue (has_short_views self.now) }
        ensures { IfOk result (λ card. card ≡ card_body self.now) }
    {
        Ok(match self {
            Body::Views(kind, views) => CardBody::Views(*kind, cards(alloc, views)?),
            Body::Menu(entries) => CardBody::Menu(entries_of(entries)?),
            Body::Board { cap, next } => CardBody::Board {
                cap: *cap,
                next: *next,
            },
            Body::Form { board, questions } => CardBody::Form {
                board: board.clone()?,
                questions: questions_of(questions)?,
            },
            Body::Search { scope } => CardBody::Search {
                scope: scope.clone()?,
            },
            Body::Moved { target } => CardBody::Moved {
                target: target.clone()?,
            },
        })
    }

    /// The bytes of a view by its place; none where there is no such view.
    pub fn viewed(&self, place: usize) -> &[u8]
        ensures { result.now ≡ viewed self.now place }
    {
        match self {
            Body::Views(_, views) => match views.as_slice().get(place) {
                Some(view) => view.bytes.as_slice(),
                None => &[],
            },
            _ => &[],
        }
    }
}

impl Item {
    /// The item with lengths in place of the bytes of its views.
    pub fn card(&self, alloc: Global) -> Result<Card, AllocError>
        requires { IsTrue (has_short_views self.now.body) }
        ensures { IfOk result (λ card. card ≡ card_of self.now) }
    {
        Ok(Card {
            title: self.title.clone()?,
            stamp: self.stamp,
            until: self.until,
            summary: self.summary.clone()?,
            body: self.body.card(alloc)?,
        })
    }
}

/// How many bytes a chunk of a view has, but the last.
pub const CHUNK: usize = 1000;

/// At most so many bytes from the front.
fn front_of(bytes: &[u8], most: usize) -> &[u8]
    ensures front { result.now ≡ take most bytes.now }
    ensures within { length result.now ≤ most }
{
    if bytes.len() <= most {
        bytes
    } else {
        &bytes[..most]
    }
}

/// The bytes from a place on.
fn from_place(bytes: &[u8], start: usize) -> &[u8]
    ensures { result.now ≡ drop start bytes.now }
{
    if bytes.len() <= start {
        &[]
    } else {
        &bytes[start..]
    }
}

/// Chunk k of some bytes, which is shorter at their end and empty behind it.
#[tactic(auto, unfolding(crate::specs::Card::chunk_of))]
pub fn chunk_of(bytes: &[u8], k: usize) -> &[u8]
    ensures chunk { result.now ≡ chunk_of bytes.now k }
    ensures within { length result.now ≤ 1000 }
{
    match k.checked_mul(CHUNK) {
        Some(start) => front_of(from_place(bytes, start), CHUNK),
        None => &[],
    }
}
