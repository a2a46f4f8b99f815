// A site in memory whose reads and changes can be made to fail, or be refused. It promises nothing of its contents.
ghost use Rattle.std.specs.Prelude.{◌≡◌, ℕ, true, false, if◌then◌else◌, []};
ghost use Rattle.host_types.specs.CrashStates.{nothing, no_crash_state};
ghost use Rattle.host_types.specs.Pins.{Copied};

use host_types::{
    Address, Card, CardFront, Change, ChangesFault, Refused, Selector, SiteFault, SiteKeeper,
    SitePinFault, Stamp,
};
use mem_site::{MemPin, MemSite};
use word_search::{FindList, SearchKeeper};

/// A site of which one read fails, or a change.
#[derive(Drop)]
pub(crate) struct FailingSite {
    site: MemSite,
    reads: u64,
    changes: u64,
    refuses: bool,
    usable: bool,
}

impl FailingSite {
    /// The read after so many others fails, and the change after so many others.
    pub fn new(site: MemSite, reads: u64, changes: u64) -> Self
        ensures { result.usable ≡ true }
    {
        FailingSite {
            site,
            reads,
            changes,
            refuses: false,
            usable: true,
        }
    }

    /// A site that refuses each change, which its own reads may allow.
    pub fn refusing(site: MemSite) -> Self
        ensures { result.usable ≡ true }
    {
        FailingSite {
            site,
            reads: u64::MAX,
            changes: u64::MAX,
            refuses: true,
            usable: true,
        }
    }

    /// Whether this read fails.
    fn read_fails(&mut self) -> bool
        ensures { self.new.usable ≡ self.old.usable }
    {
        let fails = self.reads == 0;
        self.reads = self.reads.wrapping_sub(1);
        fails
    }
}

impl SiteKeeper for FailingSite {
    ghost site_state = { λ m. record { site = m.site; honest = false; usable = m.usable; free = 0; failed_reads = 0; failed_writes = if m.usable then 0 else 1; pins = [] } };

    ghost lacks = { λ m changes fault. ⊥ };

    ghost CrashState = { ℕ };

    ghost represents = { λ c s. ⊥ };

    ghost crash_states = { λ m. nothing };

    ghost crash_states_represent = { λ m c honest usable left. no_crash_state left };

    type Pin = MemPin;

    ghost pinned = { λ p. Copied [] };

    fn front(&self) -> Address<'_> {
        self.site.front()
    }

    fn is_usable(&self) -> bool {
        self.usable
    }

    fn card(&mut self, selector: &Selector) -> Result<Option<Card>, SiteFault> {
        if !self.usable {
            return Err(SiteFault::Failed);
        }
        if self.read_fails() {
            return Err(SiteFault::Read);
        }
        self.site.card(selector)
    }

    fn card_front(&mut self, selector: &Selector) -> Result<Option<CardFront>, SiteFault> {
        if !self.usable {
            return Err(SiteFault::Failed);
        }
        if self.read_fails() {
            return Err(SiteFault::Read);
        }
        self.site.card_front(selector)
    }

    fn pin_site(&mut self) -> Result<MemPin, SitePinFault> {
        if !self.usable {
            return Err(SitePinFault::Failed);
        }
        self.site.pin_site()
    }

    fn unpin_site(&mut self, pin: MemPin) {
        self.site.unpin_site(pin);
    }

    fn chunk(
        &mut self,
        pin: &MemPin,
        selector: &Selector,
        view: usize,
        k: usize,
        buffer: &mut [u8; 1000],
    ) -> Result<usize, SiteFault> {
        if !self.usable {
            return Err(SiteFault::Failed);
        }
        if self.read_fails() {
            return Err(SiteFault::Read);
        }
        self.site.chunk(pin, selector, view, k, buffer)
    }

    fn known_chunk(
        &mut self,
        pin: &MemPin,
        selector: &Selector,
        view: usize,
        k: usize,
        buffer: &mut [u8; 1000],
    ) -> Result<usize, SiteFault> {
        self.chunk(pin, selector, view, k, buffer)
    }

    fn change(&mut self, change: Change, now: Stamp) -> Result<(), SiteFault> {
        if !self.usable {
            return Err(SiteFault::Failed);
        }
        if self.changes == 0 {
            self.usable = false;
            return Err(SiteFault::Failed);
        }
        self.changes -= 1;
        if self.refuses {
            return Err(SiteFault::Refused(Refused::NotABoard));
        }
        self.site.change(change, now)
    }

    fn change_all(&mut self, changes: Vec<(Change, Stamp)>) -> Result<(), ChangesFault> {
        if !self.usable {
            return Err(ChangesFault::Failed);
        }
        if self.changes == 0 {
            self.usable = false;
            return Err(ChangesFault::Failed);
        }
        self.changes -= 1;
        if self.refuses {
            return Err(ChangesFault::RefusedAt {
                place: 0,
                refused: Refused::NotABoard,
            });
        }
        self.site.change_all(changes)
    }
}

impl SearchKeeper for FailingSite {
    fn search(
        &mut self,
        scope: &Selector,
        query: &[u8],
        now: Stamp,
    ) -> Result<FindList, SiteFault> {
        if !self.usable {
            return Err(SiteFault::Failed);
        }
        if self.read_fails() {
            return Err(SiteFault::Read);
        }
        self.site.search(scope, query, now)
    }
}
