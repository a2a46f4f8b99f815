// The sectors of a page's bytes.
ghost use Rattle.std.specs.Prelude.{◌≡◌, ◌<◌};
ghost use Rattle.sector_device.specs.Steps.{chunk};

use crate::{PAGE_SIZE, SECTOR_SIZE};

/// Bytes 512 * k and on.
pub fn sector_of(bytes: &[u8; PAGE_SIZE], k: usize) -> [u8; SECTOR_SIZE]
    requires { k < 8 }
    ensures { result ≡ chunk bytes.now k }
{
    let mut sector = [0; SECTOR_SIZE];
    sector.copy_from_slice(&bytes[SECTOR_SIZE * k..SECTOR_SIZE * k + SECTOR_SIZE]);
    sector
}
