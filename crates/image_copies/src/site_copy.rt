// A site that is ready to be written as a new image.
ghost use Rattle.std.specs.Prelude.{◌≡◌, ◌≢◌, ℕ, IsTrue, IfOk, OnOk, IfErr};
ghost use Rattle.std.specs.String.{string_bytes};
ghost use Rattle.host_types.specs.Site.{Site};
ghost use Rattle.sector_device.specs.Device.{NothingCounted};
ghost use Rattle.sector_device.specs.Effects.{IsSameDevice};
ghost use Rattle.page_store.specs.Steps.{crash_states_of, AllAre};
ghost use Rattle.image_copies.specs.Copies.{IsCopyOf, IsCopied};
ghost use Rattle.image_copies.specs.CopyFaults.{IsNotCopiedWhole};
ghost use Rattle.image_copies.specs.declared.fault.CopyFault.TheVariants.{Failed};

use crate::CopyFault;
use crate::lines::copied_line;
use filled_images::FilledImage;
use image_commands::ImageFault;
use sector_device::Device;
use std::alloc::Global;

/// A site that is ready to be written as a new image, in filled pages.
#[derive(Drop)]
pub struct SiteCopy {
    pub(crate) image: FilledImage,
    pub(crate) items: u64,
}

impl SiteCopy {
    /// How many pages the new image has.
    pub fn pages(&self) -> u32
        ensures { (s : Site) (count : ℕ) → IsCopyOf s count self.now → result ≡ count }
    {
        self.image.pages()
    }

    /// Writes the new image on a device, and gives the line to print. What was on the device is gone.
    ///
    /// `Memory`, and `Small` where the device hasn't eight sectors for each page, leave it as it is; `Failed` where a write or a sync failed. A crash within the call may leave anything.
    pub fn write<D: Device>(&self, alloc: Global, device: &mut D) -> Result<String, CopyFault>
        ensures copied { IsTrue (D.state device.old).honest → (s : Site) (count : ℕ) → IsCopyOf s count self.now → IfOk result (λ line. IsCopied s count (string_bytes line) (D.state device.new).disk.view) }
        ensures sure { IsTrue (D.state device.old).honest → OnOk result (AllAre (crash_states_of D.moment D.possible_since device.new) (D.state device.new).disk.view) }
        ensures fault { (s : Site) (count : ℕ) → IsCopyOf s count self.now → IfErr result (IsNotCopiedWhole count (D.state device.old) (D.state device.new)) }
        ensures counts { OnOk result (NothingCounted (D.state device.old) (D.state device.new)) }
        ensures unwritten { IfErr result (λ e. e ≢ Failed → device.new ≡ device.old) }
        ensures same { IsSameDevice (D.state device.old) (D.state device.new) }
    {
        let line = match copied_line(alloc, self.items, self.image.free()) {
            Ok(line) => line,
            Err(_) => return Err(CopyFault::Image(ImageFault::Memory)),
        };
        match self.image.write(device) {
            Ok(()) => {}
            Err(fault) => return Err(CopyFault::of_new(fault)),
        }
        Ok(line)
    }
}
