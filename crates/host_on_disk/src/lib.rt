//! A site on a disk: a device is opened as a site, and events run over it; an image of version 1 becomes one of version 2.
#![tactic(auto)]

mod laws;
mod on_disk;
mod open_fault;
mod opening;
mod upgrading;

pub use laws::{
    an_image_represents_one_site, any_number_of_crashes, full_is_tight,
    what_a_crash_left_is_found_again,
};
pub use on_disk::{run_on, run_over};
pub use open_fault::OpenFault;
pub use opening::{SiteOn, open_site};
pub use upgrading::upgrade_on;
