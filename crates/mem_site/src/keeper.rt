// A site in memory as a keeper: it is always honest, and nothing of it can fail but for lack of memory.
ghost use Rattle.std.specs.Prelude.{ℕ, true, []};
ghost use Rattle.host_types.specs.Pins.{Copied};
ghost use Rattle.common_types.specs.CrashStates.{nothing, no_crash_state};

use crate::mem_site::viewed_among;
use crate::{MemPin, MemSite};
use host_types::{
    Address, Card, CardFront, Change, ChangesFault, Selector, SiteFault, SiteKeeper, SitePinFault,
    Stamp, chunk_of,
};

impl SiteKeeper for MemSite {
    ghost site_state = { λ m. record { site = m; honest = true; usable = true; free = 0; failed_reads = 0; failed_writes = 0; pins = [] } };

    ghost lacks = { λ m changes fault. ⊥ };

    ghost CrashState = { ℕ };

    ghost represents = { λ c s. ⊥ };

    ghost crash_states = { λ m. nothing };

    ghost crash_states_represent = { λ m c honest usable left. no_crash_state left };

    type Pin = MemPin;

    ghost pinned = { λ p. Copied p.items.entries };

    fn front(&self) -> Address<'_> {
        self.shown()
    }

    fn is_usable(&self) -> bool {
        true
    }

    fn card(&mut self, selector: &Selector) -> Result<Option<Card>, SiteFault> {
        Ok(self.card_at(selector)?)
    }

    fn card_front(&mut self, selector: &Selector) -> Result<Option<CardFront>, SiteFault> {
        Ok(self.front_at(selector)?)
    }

    fn pin_site(&mut self) -> Result<MemPin, SitePinFault> {
        Ok(MemPin {
            items: self.copied()?,
        })
    }

    fn unpin_site(&mut self, pin: MemPin) {
        let MemPin { items: _ } = pin;
    }

    fn chunk(
        &mut self,
        pin: &MemPin,
        selector: &Selector,
        view: usize,
        k: usize,
        buffer: &mut [u8; 1000],
    ) -> Result<usize, SiteFault> {
        let chunk = chunk_of(viewed_among(&pin.items, selector, view), k);
        buffer[..chunk.len()].copy_from_slice(chunk);
        Ok(chunk.len())
    }

    fn known_chunk(
        &mut self,
        pin: &MemPin,
        selector: &Selector,
        view: usize,
        k: usize,
        buffer: &mut [u8; 1000],
    ) -> Result<usize, SiteFault> {
        self.chunk(pin, selector, view, k, buffer)
    }

    fn change(&mut self, change: Change, now: Stamp) -> Result<(), SiteFault> {
        self.make(change, now)
    }

    fn change_all(&mut self, changes: Vec<(Change, Stamp)>) -> Result<(), ChangesFault> {
        self.make_all(changes)
    }
}
