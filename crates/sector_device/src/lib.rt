//! A disk of sectors: what its calls mean, what a crash may leave of it, and disks for tests.
#![tactic(auto)]

mod call;
mod call_counts;
mod chunks;
mod device;
mod fuse_disk;
mod laws;
mod lie_disk;
mod mem_disk;
mod once_disk;
mod sizes;

pub use call::Call;
pub use call_counts::{CallCounts, CallKind};
pub use chunks::sector_of;
pub use device::{Device, DeviceFault};
pub use fuse_disk::FuseDisk;
pub use laws::{
    each_image_is_picked, only_that_call_fails, picks_leave_images, store, worked_examples,
};
pub use lie_disk::LieDisk;
pub use mem_disk::MemDisk;
pub use once_disk::OnceDisk;
pub use sizes::{PAGE_SIZE, SECTOR_SIZE};
