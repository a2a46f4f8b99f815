//! A folder of files as changes of a site: what sort of document each is, and the menus that list them.
#![tactic(auto)]

mod documents;
mod entries;
mod fault;
mod found;
mod found_parts;
mod importing;
mod laws;
mod left_out;
mod menus;
mod pages;
mod selectors;

pub use documents::{Sort, document, sort_of};
pub use entries::entry_of;
pub use fault::ImportFault;
pub use found::{Content, Folder, Found, Reason, newest_first};
pub use importing::{Import, import_folder};
pub use laws::{documents_are_taken, worked_examples};
pub use pages::put_menu;
pub use selectors::{child, resolved};
