//! The commands that make, show and check an image.
#![tactic(auto)]

mod checking;
mod compacting;
mod fault;
mod fault_lines;
mod formatting;
mod laws;
mod listing;
mod names;
mod showing;
mod upgrading;

pub use checking::{check_image, check_site, figures_line};
pub use compacting::{compact_image, free_line};
pub use fault::ImageFault;
pub use fault_lines::{advice, fault_line};
pub use formatting::{format_image, formatted_line, sectors_of};
pub use laws::worked_examples;
pub use listing::{ListForm, list_item};
pub use names::SiteNames;
pub use showing::{show_image, show_site};
pub use upgrading::{upgrade_image, upgraded_line};
