// A disk that counts its reads.
ghost use Rattle.sector_device.specs.Images.{good, only_images, all_images};

use sector_device::{Device, DeviceFault, MemDisk, SECTOR_SIZE};
use std::cell::Cell;
use std::rc::Rc;

/// How many sectors were read.
pub(crate) type Reads = Rc<Cell<u64>>;

/// A disk in memory that counts the sectors that are read of it.
#[derive(Drop)]
pub(crate) struct CountingDisk {
    inner: MemDisk,
    reads: Reads,
}

impl CountingDisk {
    pub fn new(inner: MemDisk, reads: Reads) -> Self {
        CountingDisk { inner, reads }
    }
}

impl Device for CountingDisk {
    ghost state = { λ d. ⟦<MemDisk as Device>⟧.state d.inner };

    ghost moment = { λ d. ⟦<MemDisk as Device>⟧.moment d.inner };

    ghost possible_since = { λ d. ⟦<MemDisk as Device>⟧.possible_since d.inner };

    ghost crash_states_are_images = { λ d c h left. only_images d.inner.first d.inner.writes_and_syncs c left };

    ghost each_image_is_a_crash_state = { λ d c h image. all_images d.inner.first d.inner.writes_and_syncs c image };

    ghost view_is_image = { λ d h. (good d.inner.first d.inner.writes_and_syncs).view };

    ghost base_has_size = { λ d h. (good d.inner.first d.inner.writes_and_syncs).size_is };

    fn sectors(&self) -> u64 {
        self.inner.sectors()
    }

    fn read(&mut self, n: u64, buffer: &mut [u8; SECTOR_SIZE]) -> Result<(), DeviceFault> {
        self.reads.set(self.reads.get().saturating_add(1));
        self.inner.read(n, buffer)
    }

    fn write(&mut self, n: u64, bytes: &[u8; SECTOR_SIZE]) -> Result<(), DeviceFault> {
        self.inner.write(n, bytes)
    }

    fn sync(&mut self) -> Result<(), DeviceFault> {
        self.inner.sync()
    }
}
