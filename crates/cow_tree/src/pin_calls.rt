// Pins of a keeper of a tree.
ghost use Rattle.std.specs.List.{list_all};
ghost use Rattle.std.specs.Prelude.{◌≡◌, Some, None, is_none, IsTrue, slice_index_or, ◌*◌, IfOk, IfSome};
ghost use Rattle.page_store.specs.Work.{ReadsPages, pages_tried};
ghost use Rattle.page_store.specs.ReadCalls.{IsValueAt, IsPairAfter, FillsBuffer, FillsBuffers, StoreReadsOnly, FailsToLookUp};
ghost use Rattle.page_store.specs.StoreState.{most_levels};
ghost use Rattle.sector_device.specs.Effects.{MadeAtMost};
ghost use Rattle.page_store.specs.Pins.{is_out, pairs_at};
ghost use Rattle.cow_tree.specs.KeeperLaws.{few_out};
ghost use Rattle.cow_tree.specs.TreeSeen.{held, pinned_by, device_of, needs, crashes_of};

use crate::TreeKeeper;
use crate::lookups::find_value;
use crate::pinned_reads::read_next;
use crate::tree_root::TreeRoot;
use page_alloc::Pin;
use page_store::{KeeperFault, LONGEST_KEY, LONGEST_VALUE, PinFault, PinKeeper};
use sector_device::Device;

/// Whether none of these is a tree.
fn are_none(trees: &[Option<TreeRoot>]) -> bool
    ensures { result ≡ list_all is_none trees.now }
{
    trees.iter().all(|tree| tree.is_none())
}

impl<D: Device> TreeKeeper<D> {
    /// The tree that a pin keeps.
    fn tree_of(&self, pin: &Pin) -> TreeRoot
        requires { IsTrue (is_out (held D.state self.now) pin.now) }
        ensures { slice_index_or (pinned_by self.now) pin.now None ≡ Some result }
    {
        match self.pinned[pin.number()] {
            Some(tree) => tree,
            None => unreachable!(),
        }
    }
}

impl<D: Device> PinKeeper for TreeKeeper<D> {
    type Pin = Pin;

    ghost number = { λ pin. pin };

    ghost few_pins = { λ k. few_out (D.state k.device).disk.view k.slot.root.pages k.ledger k.pinned k.pins };

    fn is_unpinned(&self) -> bool {
        are_none(&self.pinned)
    }

    fn pin(&mut self) -> Result<Pin, PinFault> {
        if !self.usable {
            return Err(PinFault::Failed);
        }
        match self.ledger.pin() {
            Ok(pin) => {
                self.pinned[pin.number()] = Some(TreeRoot::under(&self.slot));
                Ok(pin)
            }
            Err(_) => Err(PinFault::Crowded),
        }
    }

    fn unpin(&mut self, pin: Pin) {
        self.pinned[pin.number()] = None;
        self.ledger.unpin(pin);
    }

    fn get_at(
        &mut self,
        pin: &Pin,
        key: &[u8],
        buffer: &mut [u8; LONGEST_VALUE],
    ) -> Result<Option<usize>, KeeperFault>
        requires out { IsTrue (is_out (held D.state self.old) pin.now) }
        ensures value { IsTrue (held D.state self.old).honest → IfOk result (λ found. IfSome (pairs_at (held D.state self.old) pin.now) (IsValueAt key.now buffer.new found)) }
        ensures fills { FillsBuffer result buffer.old buffer.new }
        ensures only { StoreReadsOnly (held D.state) (needs D.state) (crashes_of D.moment D.possible_since) self.old self.new }
        ensures fails { FailsToLookUp (held D.state self.old) (held D.state self.new) result }
        ensures work { ReadsPages most_levels (held D.state self.old).made (held D.state self.new).made }

        // At most one page of each level of the pinned tree is read.
        ensures each_level { IfSome (slice_index_or (pinned_by self.old) pin.now None) (λ tree. MadeAtMost (8 * tree.height) 0 0 (D.state (device_of self.old)) (D.state (device_of self.new))) }
    {
        if !self.usable {
            return Err(KeeperFault::Failed);
        }
        let tree = self.tree_of(pin);
        match find_value(&mut self.device, &mut self.places, tree, key, buffer) {
            Ok(found) => Ok(found),
            Err(fault) => Err(KeeperFault::from(fault)),
        }
    }

    fn next_at(
        &mut self,
        pin: &Pin,
        after: &[u8],
        key: &mut [u8; LONGEST_KEY],
        value: &mut [u8; LONGEST_VALUE],
    ) -> Result<Option<(usize, usize)>, KeeperFault>
        requires out { IsTrue (is_out (held D.state self.old) pin.now) }
        ensures pair { IsTrue (held D.state self.old).honest → IfOk result (λ found. IfSome (pairs_at (held D.state self.old) pin.now) (IsPairAfter after.now key.new value.new found)) }
        ensures fills { FillsBuffers result key.old key.new value.old value.new }
        ensures only { StoreReadsOnly (held D.state) (needs D.state) (crashes_of D.moment D.possible_since) self.old self.new }
        ensures fails { FailsToLookUp (held D.state self.old) (held D.state self.new) result }
        ensures work { ReadsPages (pages_tried most_levels) (held D.state self.old).made (held D.state self.new).made }

        // By the levels of the pinned tree.
        ensures by_levels { IfSome (slice_index_or (pinned_by self.old) pin.now None) (λ tree. MadeAtMost (8 * pages_tried tree.height) 0 0 (D.state (device_of self.old)) (D.state (device_of self.new))) }
    {
        if !self.usable {
            return Err(KeeperFault::Failed);
        }
        let tree = self.tree_of(pin);
        match read_next(&mut self.device, tree, after, key, value) {
            Ok(found) => Ok(found),
            Err(fault) => Err(KeeperFault::from(fault)),
        }
    }
}
