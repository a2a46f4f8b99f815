//! Pages and root slots of an image, and a key-value store on them.
#![tactic(auto)]

mod banner;
mod batch;
mod commit;
mod compact_keeper;
mod edit;
mod encoding;
mod fault;
mod figures;
mod flat_calls;
mod flat_keeper;
mod flat_opening;
mod flat_plan;
mod flat_reading;
mod formatting;
mod keeper;
mod laws;
mod pages;
mod pair;
mod pin_fault;
mod pin_keeper;
mod reading;
mod roots;
mod sizes;
mod slot;

pub use banner::Banner;
pub use batch::{put_pair, remove_pair};
pub use commit::{NewPage, commit_pages, write_pages};
pub use compact_keeper::CompactKeeper;
pub use edit::Edit;
pub use encoding::{padded_page, put_entries, slot_page};
pub use fault::KeeperFault;
pub use figures::Figures;
pub use flat_keeper::FlatKeeper;
pub use formatting::format_flat;
pub use keeper::Keeper;
pub use laws::{
    a_greater_seal, a_valid_slot_has_one_seal, a_write_elsewhere, one_seal_makes_a_slot,
    pages_decide, seals_are_at_most_the_greatest, the_current_slot_is_the_newest, worked_examples,
};
pub use pages::{fill_page, read_page, read_sector, switch_root, sync_all, write_page};
pub use pair::{Pair, keys_rise};
pub use pin_fault::PinFault;
pub use pin_keeper::PinKeeper;
pub use reading::{PageHead, are_zero, child_at, head_at, pair_at};
pub use roots::{Roots, open_roots};
pub use sizes::{LEAST_PAGES, LONGEST_KEY, LONGEST_VALUE, MOST_PAGES};
pub use slot::{Root, Slot};
