//! Folders of the system, read whole and told as changes of a site.
#![tactic(auto)]

mod folder_log;
mod reading;
mod walking;

pub use folder_log::FolderLog;
pub use reading::read_folder;
pub use walking::{WalkFault, import_all};
