// A key-value store in two halves of flat pages.
ghost use Rattle.std.specs.Prelude.{IsTrue};
ghost use Rattle.page_store.specs.FlatState.{IsFitted, CrashStatesDoRepresent};

use crate::{Pair, Slot};
use sector_device::Device;
use std::alloc::Global;

/// A key-value store in two halves of flat pages, on any device. A commit writes the other half whole, and then switches the root.
///
/// The pairs stand in memory too, so that looking them up reads no page.
#[derive(Drop)]
pub struct FlatKeeper<D: Device> {
    pub(crate) alloc: Global,
    pub(crate) device: D,
    pub(crate) slot: Slot,
    pub(crate) pairs: Vec<Pair>,
    pub(crate) top: u64,
    pub(crate) usable: bool,
    ghost fitted: { IsFitted (D.state device).size slot pairs.items },
    ghost crash_states_represent: { IsTrue (D.state device).honest → IsTrue usable → CrashStatesDoRepresent (D.state device).disk slot pairs.items top },
}
