//! What commands read of single items of an image.
#![tactic(auto)]

mod documents;
mod fault;
mod getting;
mod laws;
mod posts;
mod stored_view;
mod views;

pub use documents::document;
pub use fault::{ItemFault, item_line};
pub use getting::{get_image, posts_image};
pub use laws::worked_examples;
pub use posts::board_posts;
pub use stored_view::view_bytes;
