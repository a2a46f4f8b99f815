// Writing an image in filled pages.
ghost use Rattle.std.specs.Prelude.{◌≡◌, ◌≢◌, ◌≤◌, ◌+◌, ◌*◌, ℕ, List, IsTrue, OnOk, IfErr, length};
ghost use Rattle.sector_device.specs.Device.{NothingCounted};
ghost use Rattle.sector_device.specs.Effects.{IsSameDevice, WriteOutcome, MadeIfOk};
ghost use Rattle.page_store.specs.Pages.{Pair};
ghost use Rattle.page_store.specs.Steps.{crash_states_of, AllAre};
ghost use Rattle.page_store.specs.declared.banner.Banner.{Banner};
ghost use Rattle.page_store.specs.declared.fault.KeeperFault.TheVariants.{Failed};
ghost use Rattle.filled_images.specs.FilledImages.{pages_for, IsImageOf, IsSurelyWritten, GivesFilled, IsNotWritten};

use crate::FilledImage;
use page_store::{KeeperFault, sync_all, write_page, write_pages};
use sector_device::{Device, DeviceFault, PAGE_SIZE};

impl FilledImage {
    /// Clears the second slot, writes the pages and that of the first slot, and makes sure of them.
    fn write_all<D: Device>(&self, device: &mut D) -> Result<(), DeviceFault>
        requires fits { 8 * self.now.slot.root.pages ≤ (D.state device.old).size }
        ensures written { IsTrue (D.state device.old).honest → OnOk result (IsSurelyWritten self.now (D.state device.old).disk.view (D.state device.new).disk.view (crash_states_of D.moment D.possible_since device.new)) }
        ensures outcome { WriteOutcome result (D.state device.old) (D.state device.new) }
        ensures work { MadeIfOk result 0 (16 + 8 * length self.now.pages.items) 1 (D.state device.old) (D.state device.new) }
    {
        let cleared = [0; PAGE_SIZE];
        write_page(device, 1, &cleared)?;
        write_pages(device, &self.pages)?;
        write_page(device, 0, &self.root)?;
        sync_all(device)
    }

    /// Writes the image. What was on the device is gone.
    ///
    /// `Small` where the device hasn't eight sectors for each page: it is left as it is. `Failed` where a write or a sync failed. A crash within the call may leave anything.
    pub fn write<D: Device>(&self, device: &mut D) -> Result<(), KeeperFault>
        ensures written { IsTrue (D.state device.old).honest → OnOk result (GivesFilled self.now (D.state device.new).disk.view) }
        ensures sure { IsTrue (D.state device.old).honest → OnOk result (AllAre (crash_states_of D.moment D.possible_since device.new) (D.state device.new).disk.view) }
        ensures fault { (count : ℕ) (banner : Banner) (pairs : List Pair) → IsImageOf count banner pairs self.now → IfErr result (IsNotWritten count (D.state device.old) (D.state device.new)) }
        ensures counts { OnOk result (NothingCounted (D.state device.old) (D.state device.new)) }
        ensures unwritten { IfErr result (λ e. e ≢ Failed → device.new ≡ device.old) }
        ensures same { IsSameDevice (D.state device.old) (D.state device.new) }
        // Each page of the tree is written once, and both root slots, with one sync.
        ensures work { (count : ℕ) (banner : Banner) (pairs : List Pair) → IsImageOf count banner pairs self.now → MadeIfOk result 0 (16 + 8 * pages_for pairs) 1 (D.state device.old) (D.state device.new) }
    {
        if 8 * u64::from(self.slot.root.pages) > device.sectors() {
            return Err(KeeperFault::Small);
        }
        match self.write_all(device) {
            Ok(()) => Ok(()),
            Err(_) => Err(KeeperFault::Failed),
        }
    }
}
