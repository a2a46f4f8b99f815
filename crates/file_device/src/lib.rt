//! A file as a disk of sectors, with a record of each call that is made of it.
#![tactic(auto)]

mod file_call;
mod file_device;
mod image_file;
mod laws;
mod record;
mod used_files;

pub use file_call::FileCall;
pub use file_device::FileDevice;
pub use laws::{what_was_synced_is_found, worked_examples};
pub use used_files::{FileLog, UsedFiles};
