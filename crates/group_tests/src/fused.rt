// A disk in memory that fails for good after so many calls.
ghost use Rattle.sector_device.specs.FuseState.{inside};
ghost use Rattle.sector_device.specs.Images.{good, only_images, all_images};

use sector_device::{Device, DeviceFault, FuseDisk, MemDisk, SECTOR_SIZE};

/// A disk in memory that passes so many calls on, under one name: what is proved of its calls then names one type in place of two.
#[derive(Drop)]
pub(crate) struct FusedDisk {
    disk: FuseDisk<MemDisk>,
}

impl FusedDisk {
    pub fn new(disk: MemDisk, calls: u64) -> FusedDisk {
        FusedDisk {
            disk: FuseDisk::new(disk, calls),
        }
    }

    pub fn into_inner(self) -> MemDisk {
        self.disk.into_inner()
    }
}

impl Device for FusedDisk {
    ghost state = { λ d. ⟦<FuseDisk<MemDisk> as Device>⟧.state d.disk };

    ghost moment = { λ d. ⟦<FuseDisk<MemDisk> as Device>⟧.moment d.disk };

    ghost possible_since = { λ d. ⟦<FuseDisk<MemDisk> as Device>⟧.possible_since d.disk };

    ghost crash_states_are_images = { λ d c h left. only_images (inside d.disk).first (inside d.disk).writes_and_syncs c left };

    ghost each_image_is_a_crash_state = { λ d c h image. all_images (inside d.disk).first (inside d.disk).writes_and_syncs c image };

    ghost view_is_image = { λ d h. (good (inside d.disk).first (inside d.disk).writes_and_syncs).view };

    ghost base_has_size = { λ d h. (good (inside d.disk).first (inside d.disk).writes_and_syncs).size_is };

    fn sectors(&self) -> u64 {
        self.disk.sectors()
    }

    fn read(&mut self, n: u64, buffer: &mut [u8; SECTOR_SIZE]) -> Result<(), DeviceFault> {
        self.disk.read(n, buffer)
    }

    fn write(&mut self, n: u64, bytes: &[u8; SECTOR_SIZE]) -> Result<(), DeviceFault> {
        self.disk.write(n, bytes)
    }

    fn sync(&mut self) -> Result<(), DeviceFault> {
        self.disk.sync()
    }
}
