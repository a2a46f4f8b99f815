// What a change makes at one selector.
use host_types::{Item, Selector};

/// What a change makes at one selector: the item that stood there, and the one that is to stand there.
#[derive(Debug, Drop)]
pub struct Replacement {
    /// Where.
    pub selector: Selector,
    /// What stood there.
    pub before: Option<Item>,
    /// What is to stand there.
    pub after: Option<Item>,
}
