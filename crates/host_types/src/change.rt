// Changes of a site.
use crate::{Admin, Bytes, Host, Item, Selector, Title};

/// A change of a site, as an administrator or a post asks for it.
#[derive(Clone, Debug, Drop)]
pub enum Change {
    /// The item stands at the selector, in place of what was there.
    Put(Selector, Item),
    /// What stands at the selector goes.
    Remove(Selector),
    /// The item stands at another selector, and leaves a note of where it went.
    Move {
        from: Selector,
        to: Selector,
    },
    /// The name under which clients find the site.
    SetHost {
        host: Host,
        port: u16,
    },
    /// Who keeps the site.
    SetAdmin(Admin),
    /// The next post of a board. It pushes out the oldest where the board is full.
    Post {
        board: Selector,
        title: Title,
        text: Bytes,
    },
}
