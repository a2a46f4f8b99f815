// A pin of a site in memory.

use host_types::{Item, Selector};
use std::collections::BTreeMap;

/// A copy of the items that stood. It is spent by `unpin_site` alone.
pub struct MemPin {
    pub(crate) items: BTreeMap<Selector, Item>,
}
