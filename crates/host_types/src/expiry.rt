// Items that clients no longer find.
ghost use Rattle.std.specs.Prelude.{◌≡◌};
ghost use Rattle.host_types.specs.Visible as spec;

use crate::{Card, Item, Stamp};

/// Whether the moment has come from which on an item isn't found.
pub fn is_over(until: Option<Stamp>, now: Stamp) -> bool
    ensures { result ≡ spec.is_over until now }
{
    match until {
        Some(until) => until.seconds() <= now.seconds(),
        None => false,
    }
}

impl Item {
    /// Whether it has expired, so that clients don't find it.
    pub fn is_expired(&self, now: Stamp) -> bool
        ensures { result ≡ spec.is_over self.now.until now }
    {
        is_over(self.until, now)
    }
}

impl Card {
    /// Whether it has expired, so that clients don't find it.
    pub fn is_expired(&self, now: Stamp) -> bool
        ensures { result ≡ spec.is_over self.now.until now }
    {
        is_over(self.until, now)
    }
}
