//! Texts, menus and errors as they are sent.
#![tactic(auto)]

mod error;
mod laws;
mod menus;
mod passing;
mod pipe;
mod place;
mod whole;

pub use error::{ErrorText, error_reply};
pub use laws::{menus_end_once, pipes_give_the_text, reads_back, worked_examples};
pub use menus::{
    add_link_line, add_menu_line, address_fields, ended_menu, item_line, link_line, menu, menu_line,
};
pub use pipe::{Moved, TextPipe};
pub use whole::text;
