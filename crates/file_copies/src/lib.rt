//! The image in a file, copied to a new file.
#![tactic(auto)]

mod copying;
mod new_file;

pub use copying::copy_opened;
pub use new_file::{expect_missing, part_name};
