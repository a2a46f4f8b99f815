//! An image of some pairs, in filled pages.
#![tactic(auto)]

mod filled_image;
mod making;
mod writing;

pub use filled_image::FilledImage;
