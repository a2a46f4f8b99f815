// The lines of all faults.
use host_types::Refused;
use image_commands::{ImageFault, advice, fault_line};
use page_store::KeeperFault;
use std::alloc::{AllocError, Global};

/// The line of a fault, and what it advises on a line of its own.
pub fn fault_text(alloc: Global, fault: ImageFault) -> Result<String, AllocError> {
    let mut text = fault_line(alloc, fault)?;
    let more = advice(fault);
    if !more.is_empty() {
        text.push('\n')?;
        text.push_str(more)?;
    }
    Ok(text)
}

/// The line of each fault, and its text as an error.
pub fn all_fault_texts(alloc: Global) -> Result<String, AllocError> {
    let mut text = String::from_str(alloc, "all")?;
    for fault in [
        ImageFault::Refused(Refused::TooLong),
        ImageFault::NoFile,
        ImageFault::BadRecord,
        ImageFault::Store(KeeperFault::Device),
        ImageFault::Store(KeeperFault::NoImage),
        ImageFault::Store(KeeperFault::Version),
        ImageFault::Store(KeeperFault::Damaged { page: 5 }),
        ImageFault::Store(KeeperFault::Small),
        ImageFault::Store(KeeperFault::Spent),
        ImageFault::Store(KeeperFault::Full { need: 9, free: 4 }),
        ImageFault::Store(KeeperFault::Failed),
        ImageFault::Store(KeeperFault::Deep),
        ImageFault::Memory,
    ] {
        text.push('\n')?;
        text.push_str(&fault_line(alloc, fault)?)?;
        text.push_str(" = ")?;
        text.push_str(&fault.to_string(alloc)?)?;
    }
    Ok(text)
}
