// What the line of a menu says of an item.
ghost use Rattle.std.specs.Prelude.{◌≡◌, IfOk};
ghost use Rattle.host_types.specs.Card.{card_of, card_body};
ghost use Rattle.host_types.specs.Fronts.{front_of, sort_of};

use crate::{Body, CardBody, Item, Kind, Stamp, Title};
use std::alloc::AllocError;

/// What an item is, without what it has.
#[derive(Clone, Copy, Debug, PartialEq, Eq)]
pub enum CardSort {
    Document(Kind),
    Menu,
    Board,
    Form,
    Search,
    Moved,
}

/// What the line of a menu says of an item, and from when on clients don't find it, if it expires at all.
#[derive(Debug, Drop)]
pub struct CardFront {
    pub title: Title,
    pub until: Option<Stamp>,
    pub sort: CardSort,
}

impl CardBody {
    /// What it is.
    pub fn sort(&self) -> CardSort
        ensures { result ≡ sort_of self.now }
    {
        match self {
            CardBody::Views(kind, _) => CardSort::Document(*kind),
            CardBody::Menu(_) => CardSort::Menu,
            CardBody::Board { .. } => CardSort::Board,
            CardBody::Form { .. } => CardSort::Form,
            CardBody::Search { .. } => CardSort::Search,
            CardBody::Moved { .. } => CardSort::Moved,
        }
    }
}

impl Body {
    fn sort(&self) -> CardSort
        ensures { result ≡ sort_of (card_body self.now) }
    {
        match self {
            Body::Views(kind, _) => CardSort::Document(*kind),
            Body::Menu(_) => CardSort::Menu,
            Body::Board { .. } => CardSort::Board,
            Body::Form { .. } => CardSort::Form,
            Body::Search { .. } => CardSort::Search,
            Body::Moved { .. } => CardSort::Moved,
        }
    }
}

impl Item {
    /// What the line of a menu says of it.
    pub fn front(&self) -> Result<CardFront, AllocError>
        ensures { IfOk result (λ front. front ≡ front_of (card_of self.now)) }
    {
        Ok(CardFront {
            title: self.title.clone()?,
            until: self.until,
            sort: self.body.sort(),
        })
    }
}
