// What a search finds.
ghost use Rattle.std.specs.Prelude.{◌≡◌, IfOk};
ghost use Rattle.word_search.specs.Finds.{find_of};

use host_types::{CardFront, Item, List, Selector};
use std::alloc::AllocError;

/// An item that a search finds: where it stands, and what the line of a menu says of it.
#[derive(Debug, Drop)]
pub struct Find {
    pub selector: Selector,
    pub front: CardFront,
}

/// Finds in their order.
pub type FindList = List<Find>;

impl Find {
    /// The find of an item in memory.
    pub(crate) fn of(selector: &Selector, item: &Item) -> Result<Find, AllocError>
        ensures { IfOk result (λ find. find ≡ find_of (selector.now, item.now)) }
    {
        Ok(Find {
            selector: selector.clone()?,
            front: item.front()?,
        })
    }
}
