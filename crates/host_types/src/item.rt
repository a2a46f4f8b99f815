// Items of a site.
ghost use Rattle.std.specs.Prelude.{◌≡◌, ◌<◌, ◌^◌, ◌-◌, IfOk};
ghost use Rattle.host_types.specs.Site.{board_of, text_item, empty_menu};
ghost use Rattle.host_types.specs.Change.{is_menu, is_moved, body_put, item_put, moved_item, board_after};

use crate::{
    Admin, Bytes, EntryList, Host, Kind, QuestionList, Selector, Stamp, Title, View, ViewList,
};
use std::alloc::{AllocError, Global};

/// What an item has beside its title, stamp and summary.
#[derive(Clone, Debug, Drop)]
pub enum Body {
    /// A document, in one or more views.
    Views(Kind, ViewList),
    /// Links and lines to read.
    Menu(EntryList),
    /// A board of posts: how many it keeps, 1 to 100, and the number of the next, from 1.
    Board {
        cap: u16,
        next: u64,
    },
    /// Questions whose answers become a post of a board.
    Form {
        board: Selector,
        questions: QuestionList,
    },
    /// A search of the items whose selectors begin with the scope.
    Search {
        scope: Selector,
    },
    /// A note of where an item went, which a move alone leaves.
    Moved {
        target: Selector,
    },
}

impl Body {
    /// How many posts a board keeps, and the number of the next.
    pub fn board(&self) -> Option<(u16, u64)>
        ensures { result ≡ board_of self.now }
    {
        match self {
            Body::Board { cap, next } => Some((*cap, *next)),
            _ => None,
        }
    }

    /// Whether it is a menu.
    pub fn is_menu(&self) -> bool
        ensures { result ≡ is_menu self.now }
    {
        matches!(self, Body::Menu(_))
    }

    /// Whether it is a note of where an item went.
    pub fn is_moved(&self) -> bool
        ensures { result ≡ is_moved self.now }
    {
        matches!(self, Body::Moved { .. })
    }

    /// The body as it is put in the place of a board, or of none.
    fn put_over(self, old: Option<(u16, u64)>) -> Body
        ensures { result ≡ body_put old self }
    {
        match self {
            Body::Board { cap, .. } => {
                let next = match old {
                    Some((_, next)) => next,
                    None => 1,
                };
                Body::Board { cap, next }
            }
            other => other,
        }
    }
}

/// What stands at a selector.
#[derive(Debug, Drop)]
pub struct Item {
    /// What menus show of it.
    pub title: Title,
    /// When it last changed.
    pub stamp: Stamp,
    /// From when on clients don't find it, if it expires at all.
    pub until: Option<Stamp>,
    /// At most 400 bytes where a change puts it; empty where it has none.
    pub summary: Bytes,
    /// What it has beside.
    pub body: Body,
}

impl Item {
    /// The item as it is put in the place of a board, or of none.
    pub fn put_over(self, old: Option<(u16, u64)>, now: Stamp) -> Item
        ensures { result ≡ item_put old self now }
    {
        let Item {
            title,
            stamp: _,
            until,
            summary,
            body,
        } = self;
        Item {
            title,
            stamp: now,
            until,
            summary,
            body: body.put_over(old),
        }
    }
}

impl Item {
    /// What stands where an item was that moved.
    pub fn moved(&self, alloc: Global, to: &Selector, now: Stamp) -> Result<Item, AllocError>
        ensures { IfOk result (λ item. item ≡ moved_item self.now to.now now) }
    {
        let no_summary = Bytes::new(alloc);
        Ok(Item {
            title: self.title.clone()?,
            stamp: now,
            until: None,
            summary: no_summary,
            body: Body::Moved {
                target: to.clone()?,
            },
        })
    }
}

impl Item {
    /// A board after the post of this number.
    pub fn after_post(&self, cap: u16, number: u64, now: Stamp) -> Result<Item, AllocError>
        requires { number < 2 ^ 64 - 1 }
        ensures { IfOk result (λ item. item ≡ board_after self.now cap number now) }
    {
        Ok(Item {
            title: self.title.clone()?,
            stamp: now,
            until: self.until,
            summary: self.summary.clone()?,
            body: Body::Board {
                cap,
                next: number + 1,
            },
        })
    }

    /// A menu without entries.
    pub fn empty_menu(alloc: Global, title: Title, stamp: Stamp) -> Item
        ensures { result ≡ empty_menu title stamp }
    {
        Item {
            title,
            stamp,
            until: None,
            summary: Bytes::new(alloc),
            body: Body::Menu(EntryList::new(alloc)),
        }
    }

    /// A text document of one view, `Text/plain`, as posts are.
    pub fn text(alloc: Global, title: Title, stamp: Stamp, text: Bytes) -> Result<Item, AllocError>
        ensures { IfOk result (λ item. item ≡ text_item title stamp text) }
    {
        let view = View {
            name: Bytes::from_slice(alloc, b"Text/plain")?,
            language: Bytes::new(alloc),
            bytes: text,
        };
        let mut views = ViewList::new(alloc);
        views.push(view)?;
        Ok(Item {
            title,
            stamp,
            until: None,
            summary: Bytes::new(alloc),
            body: Body::Views(Kind::Text, views),
        })
    }
}

impl Clone for Item {
    ghost is_clone = { λ a b. b ≡ a };

    fn clone(&self) -> Result<Self, AllocError> {
        Ok(Item {
            title: self.title.clone()?,
            stamp: self.stamp,
            until: self.until,
            summary: self.summary.clone()?,
            body: self.body.clone()?,
        })
    }
}
