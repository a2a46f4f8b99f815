//! Which pages of an image are held and free, by generations and pins.
#![tactic(auto)]

mod laws;
mod ledger;
mod life;
mod order;
mod pin;
mod runs;
mod sweep;

pub use laws::{free_by_sets, worked_examples};
pub use ledger::{Ledger, LedgerFault};
pub use life::Life;
pub use pin::Pin;
