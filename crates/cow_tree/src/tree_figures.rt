// What a keeper of a tree tells of its room.
ghost use Rattle.std.specs.Prelude.{◌≡◌};
ghost use Rattle.cow_tree.specs.TreeSeen.{held};

use crate::TreeKeeper;
use sector_device::Device;

impl<D: Device> TreeKeeper<D> {
    /// How many pages no generation in use has, the root slots left out. It takes no memory.
    pub fn free(&self) -> u64
        ensures { result ≡ (held D.state self.now).free }
    {
        self.ledger.free() as u64
    }
}
