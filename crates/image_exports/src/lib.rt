//! What commands tell of all items of an image.
#![tactic(auto)]

mod exporting;
mod image;
mod naming;
mod whole;

pub use image::export_image;
