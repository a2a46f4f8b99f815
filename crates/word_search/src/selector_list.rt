// Selectors in a row.

use host_types::{List, Selector};

/// Selectors in their order.
pub type SelectorList = List<Selector>;
