//! Bytes, names and refusals, which the crates of the site and those of the disk share.
#![tactic(auto)]

mod byte_order;
mod bytes;
mod digits;
mod list;
mod names;
mod post_name;
mod printing;
mod refused;

pub use byte_order::{are_same, compare_bytes};
pub use bytes::Bytes;
pub use digits::{is_number, number_of};
pub use list::List;
pub use names::{Admin, GREATEST_STAMP, Host, Selector, Stamp, Title, Url, is_field, is_word};
pub use printing::{change_line, escaped, full_name, refused_name};
pub use refused::Refused;
