// Faults of a copy.
ghost use Rattle.std.specs.Prelude.{◌≡◌};
ghost use Rattle.image_copies.specs.CopyFaults.{of_new};
ghost use Rattle.image_copies.specs.declared.fault.CopyFault.TheVariants.{Image as OfImage};
ghost use Rattle.image_commands.specs.declared.fault.ImageFault.TheVariants as images;

use image_commands::ImageFault;
use page_store::KeeperFault;
use std::alloc::AllocError;
use thiserror::Error;

/// Why the site of an image is not copied.
#[derive(Clone, Copy, Debug, PartialEq, Eq, Error)]
pub enum CopyFault {
    /// The image is not opened or not read; or memory lacks, for whatever it is.
    #[error("{0}")]
    Image(ImageFault),
    /// The new image can't have so many pages, or its device is smaller.
    #[error("Small")]
    Small,
    /// The new image would have too few pages for the site.
    #[error("Full {need} {free}")]
    Full {
        /// How many pages the site takes.
        need: u64,
        /// How many there would be, but for the root slots.
        free: u64,
    },
    /// A write or a sync of the new image failed, or it could not be given its name.
    #[error("Failed")]
    Failed,
    /// The new file can't be made or opened.
    #[error("NoFile")]
    NoFile,
    /// The new file is there already.
    #[error("There")]
    There,
}

impl CopyFault {
    /// A fault of making the new image.
    pub fn of_new(fault: KeeperFault) -> Self
        ensures { result ≡ of_new fault }
    {
        match fault {
            KeeperFault::Small => CopyFault::Small,
            KeeperFault::Full { need, free } => CopyFault::Full { need, free },
            KeeperFault::Failed => CopyFault::Failed,
            _ => CopyFault::Image(ImageFault::from(fault)),
        }
    }
}

impl From<ImageFault> for CopyFault {
    ghost from_gives = { λ image fault. fault ≡ OfImage image };

    fn from(fault: ImageFault) -> Self {
        CopyFault::Image(fault)
    }
}

impl From<AllocError> for CopyFault {
    ghost from_gives = { λ _ fault. fault ≡ OfImage images.Memory };

    fn from(_: AllocError) -> Self {
        CopyFault::Image(ImageFault::Memory)
    }
}
