// A disk in memory of whose calls some fail, or lie.
ghost use Rattle.sector_device.specs.Lying.{lies};

use sector_device::{Device, DeviceFault, FuseDisk, LieDisk, MemDisk, OnceDisk, SECTOR_SIZE};

/// A disk in memory, which may fail for good, fail once, and lie about a sector.
type Layers = FuseDisk<OnceDisk<LieDisk<MemDisk>>>;

/// These layers under one name: what a test proves of its calls then names one type in place of four.
#[derive(Drop)]
pub(crate) struct TestedDisk {
    layers: Layers,
}

impl TestedDisk {
    /// How many reads it failed for good.
    pub fn refused_reads(&self) -> u64 {
        self.layers.refused_reads()
    }

    /// How many writes and syncs it failed for good.
    pub fn refused_writes(&self) -> u64 {
        self.layers.refused_writes()
    }
}

/// More calls than are ever made.
const NEVER: u64 = u64::MAX;

fn honest(disk: MemDisk) -> LieDisk<MemDisk> {
    LieDisk::new(disk, NEVER, 0, [0; SECTOR_SIZE])
}

/// The disk, which fails for good after so many calls.
pub fn fused(disk: MemDisk, calls: u64) -> TestedDisk {
    TestedDisk {
        layers: FuseDisk::new(OnceDisk::new(honest(disk), NEVER), calls),
    }
}

/// The disk as it is.
pub fn plain(disk: MemDisk) -> TestedDisk {
    fused(disk, NEVER)
}

/// The disk, whose call of this number fails.
pub fn failing_once(disk: MemDisk, call: u64) -> TestedDisk {
    TestedDisk {
        layers: FuseDisk::new(OnceDisk::new(honest(disk), call), NEVER),
    }
}

/// The disk, whose reads of sector n give these bytes after so many calls.
pub fn lying(disk: MemDisk, calls: u64, n: u64, bytes: [u8; SECTOR_SIZE]) -> TestedDisk {
    let lie = LieDisk::new(disk, calls, n, bytes);
    TestedDisk {
        layers: FuseDisk::new(OnceDisk::new(lie, NEVER), NEVER),
    }
}

/// The disk itself.
pub fn disk_under(device: TestedDisk) -> MemDisk {
    device.layers.into_inner().into_inner().into_inner()
}

impl Device for TestedDisk {
    ghost state = { λ d. ⟦<Layers as Device>⟧.state d.layers };

    ghost moment = { λ d. ⟦<Layers as Device>⟧.moment d.layers };

    ghost possible_since = { λ d. ⟦<Layers as Device>⟧.possible_since d.layers };

    ghost crash_states_are_images = { λ d c h left. lies h };

    ghost each_image_is_a_crash_state = { λ d c h image. lies h };

    ghost view_is_image = { λ d h. lies h };

    ghost base_has_size = { λ d h. lies h };

    fn sectors(&self) -> u64 {
        self.layers.sectors()
    }

    fn read(&mut self, n: u64, buffer: &mut [u8; SECTOR_SIZE]) -> Result<(), DeviceFault> {
        self.layers.read(n, buffer)
    }

    fn write(&mut self, n: u64, bytes: &[u8; SECTOR_SIZE]) -> Result<(), DeviceFault> {
        self.layers.write(n, bytes)
    }

    fn sync(&mut self) -> Result<(), DeviceFault> {
        self.layers.sync()
    }
}
