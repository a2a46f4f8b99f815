//! The site of an image, written as a new one.
#![tactic(auto)]

mod all_pairs;
mod copying;
mod fault;
mod fault_lines;
mod lines;
mod planning;
mod site_copy;
mod site_read;
mod site_reading;

pub use copying::copy_image;
pub use fault::CopyFault;
pub use fault_lines::{copy_advice, copy_fault_line};
pub use lines::copied_line;
pub use planning::plan_copy;
pub use site_copy::SiteCopy;
