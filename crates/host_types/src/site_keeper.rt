// A site that is kept somewhere.
ghost use Rattle.std.specs.Prelude.{◌≡◌, ◌∷◌, [], Bool, true, false, IfOk, IfErr, IsErrOf, IsTrue};
ghost use Rattle.host_types.specs.Site.{Site};
ghost use Rattle.host_types.specs.Change.{apply};
ghost use Rattle.host_types.specs.AllChanges.{Changes, all_applied};
ghost use Rattle.host_types.specs.ChangesFaults.{as_one, IsChangesFault};
ghost use Rattle.host_types.specs.Card.{card_at};
ghost use Rattle.host_types.specs.Fronts.{front_at};
ghost use Rattle.common_types.specs.CrashStates.{CrashStates, AddsNone, may_crash_to};
ghost use Rattle.host_types.specs.Counting.{CountsReads};
ghost use Rattle.host_types.specs.SiteState.{SiteState, HasRead, LacksTheSame, IsReadFault, IsChangeFault};
ghost use Rattle.host_types.specs.SiteCalls.{pinned_view, GivesChunk, GivesKnownChunk, ReadsOnly, ReadsOrFails, ChangesSite, ChangesNoMore, CountsChange, ChangeCrashes};
ghost use Rattle.host_types.specs.Pins.{Pinned, is_out, IsPinned, IsPinFault, IsUnpinned};
ghost use Rattle.host_types.specs.Address.{address};
ghost use Rattle.host_types.specs.declared.site_fault.SiteFault.{SiteFault as SiteFaultValue};
ghost use Rattle.host_types.specs.declared.site_fault.SiteFault.TheVariants.{Failed};
ghost use Rattle.host_types.specs.declared.changes_fault.ChangesFault.TheVariants.{Failed as AllFailed};
ghost use Rattle.host_types.specs.declared.pin_fault.SitePinFault.TheVariants.{Failed as PinFailed};

use crate::{
    Admin, Card, CardFront, Change, ChangesFault, Host, Selector, SiteFault, SitePinFault, Stamp,
};
use std::marker::Model;

/// Under which name clients find a site, and who keeps it.
#[derive(Debug, Drop)]
pub struct Address<'a> {
    /// The name of the host that clients connect to.
    pub host: &'a Host,
    /// The port that they connect to.
    pub port: u16,
    /// Who keeps the site.
    pub admin: &'a Admin,
}

impl<'a> Model for Address<'a> {
    ghost use Rattle.host_types.specs.Address.{Address};

    ghost Value = { Address };

    ghost view = { λ a. record { host = a.host.now; port = a.port; admin = a.admin.now } };
}

/// A site that is kept somewhere: in memory, or on a device that may fail.
///
/// Whatever speaks of the site holds where what it is kept on is honest, that is, keeps its written meaning.
pub trait SiteKeeper {
    /// The site, the flags and the counts of failed calls.
    ghost site_state: { Self → SiteState };

    /// For lack of what valid changes that are made in one step may be refused: room, a further change at all, or levels.
    ghost lacks: { Self → Changes → SiteFaultValue → Type 0 };

    /// A crash state.
    ghost CrashState: { Type 0 };

    /// A crash state represents a site.
    ghost represents: { CrashState → Site → Type 0 };

    /// The crash states.
    ghost crash_states: { Self → CrashStates CrashState };

    /// A pin of the site as it stood: readers of it go on with that, whatever changes are made. It should be no `Drop`, so that it is spent by `unpin_site` alone.
    type Pin;

    /// The copy of the items that it has, or the number under which they are kept.
    ghost pinned: { Self.Pin → Pinned };

    /// Host, port and administrator. It takes no memory.
    fn front(&self) -> Address<'_>
        ensures { IsTrue (site_state self.now).honest → result ≡ address (site_state self.now).site };

    /// Whether no write or sync has failed.
    fn is_usable(&self) -> bool
        ensures { result ≡ (site_state self.now).usable };

    /// The item at a selector, with lengths in place of the bytes of its views.
    fn card(&mut self, selector: &Selector) -> Result<Option<Card>, SiteFault>
        ensures card { IsTrue (site_state self.old).honest → IfOk result (λ card. card ≡ card_at (site_state self.old).site selector.now) }
        ensures kept { HasRead (site_state self.old) (site_state self.new) }
        ensures fault { IfErr result (IsReadFault true (site_state self.old) (site_state self.new)) }
        ensures reads { CountsReads result (site_state self.old) (site_state self.new) }
        ensures closed { (site_state self.old).usable ≡ false → IsErrOf result Failed }
        ensures lacking { LacksTheSame (lacks self.old) (lacks self.new) }
        ensures at_crash { IsTrue (site_state self.old).honest → AddsNone (crash_states self.old) (crash_states self.new) };

    /// What the line of a menu says of the item at a selector.
    fn card_front(&mut self, selector: &Selector) -> Result<Option<CardFront>, SiteFault>
        ensures front { IsTrue (site_state self.old).honest → IfOk result (λ front. front ≡ front_at (site_state self.old).site selector.now) }
        ensures kept { HasRead (site_state self.old) (site_state self.new) }
        ensures fault { IfErr result (IsReadFault true (site_state self.old) (site_state self.new)) }
        ensures reads { CountsReads result (site_state self.old) (site_state self.new) }
        ensures closed { (site_state self.old).usable ≡ false → IsErrOf result Failed }
        ensures lacking { LacksTheSame (lacks self.old) (lacks self.new) }
        ensures at_crash { IsTrue (site_state self.old).honest → AddsNone (crash_states self.old) (crash_states self.new) };

    /// Pins the site as it stands.
    fn pin_site(&mut self) -> Result<Self::Pin, SitePinFault>
        ensures pinned { IfOk result (λ pin. IsPinned (site_state self.old) (site_state self.new) (pinned pin)) }
        ensures fault { IfErr result (IsPinFault (site_state self.old) (site_state self.new)) }
        ensures closed { (site_state self.old).usable ≡ false → IsErrOf result PinFailed }
        ensures lacking { LacksTheSame (lacks self.old) (lacks self.new) }
        ensures at_crash { IsTrue (site_state self.old).honest → AddsNone (crash_states self.old) (crash_states self.new) };

    /// Spends a pin, also once a write or a sync has failed. It takes no memory.
    fn unpin_site(&mut self, pin: Self::Pin)
        requires out { IsTrue (is_out (site_state self.old) (pinned pin)) }
        ensures unpinned { IsUnpinned (site_state self.old) (site_state self.new) (pinned pin) }
        ensures lacking { LacksTheSame (lacks self.old) (lacks self.new) }
        ensures at_crash { IsTrue (site_state self.old).honest → AddsNone (crash_states self.old) (crash_states self.new) }
        ensures moment { (crash_states self.new).moment ≡ (crash_states self.old).moment };

    /// Puts chunk k of a view of the site as it was pinned into the front of the buffer, and answers its length: no bytes where there was no such view or chunk. What stands behind stays, and after a fault the whole buffer does. It takes no memory.
    fn chunk(
        &mut self,
        pin: &Self::Pin,
        selector: &Selector,
        view: usize,
        k: usize,
        buffer: &mut [u8; 1000],
    ) -> Result<usize, SiteFault>
        requires out { IsTrue (is_out (site_state self.old) (pinned pin.now)) }
        ensures gives { GivesChunk (IsTrue (site_state self.old).honest) (pinned_view (site_state self.old) (pinned pin.now) selector.now view) k buffer.old buffer.new result }
        ensures only { ReadsOnly site_state lacks crash_states self.old self.new }
        ensures reads { ReadsOrFails false (site_state self.old) (site_state self.new) result };

    /// The same of a view that is known to have bytes, so that nothing else is looked up. Of one that has none it says nothing.
    fn known_chunk(
        &mut self,
        pin: &Self::Pin,
        selector: &Selector,
        view: usize,
        k: usize,
        buffer: &mut [u8; 1000],
    ) -> Result<usize, SiteFault>
        requires out { IsTrue (is_out (site_state self.old) (pinned pin.now)) }
        ensures gives { GivesKnownChunk (site_state self.old).honest (pinned_view (site_state self.old) (pinned pin.now) selector.now view) k buffer.old buffer.new result }
        ensures only { ReadsOnly site_state lacks crash_states self.old self.new }
        ensures reads { ReadsOrFails false (site_state self.old) (site_state self.new) result };

    /// Makes a change, or answers its first refusal.
    fn change(&mut self, change: Change, now: Stamp) -> Result<(), SiteFault>
        ensures done { ChangesSite (site_state self.old) (site_state self.new) (apply (site_state self.old).site change now) result }
        ensures fault { IfErr result (IsChangeFault (lacks self.old ((change, now) ∷ [])) (site_state self.old) (site_state self.new) (apply (site_state self.old).site change now)) }
        ensures lacking { IfErr result (λ e. (site_state self.new).usable ≡ (site_state self.old).usable → LacksTheSame (lacks self.old) (lacks self.new)) }
        ensures ended { ChangesNoMore (lacks self.old ((change, now) ∷ [])) Failed (site_state self.old).usable result result }
        ensures counts { CountsChange (site_state self.old) (site_state self.new) result }
        ensures at_crash { ChangeCrashes site_state crash_states represents self.old self.new (apply (site_state self.old).site change now) result };

    /// Makes all of these changes in one step, each at its own moment on the site with those before it. Where one is refused, or the step can't be made, none is.
    fn change_all(&mut self, changes: Vec<(Change, Stamp)>) -> Result<(), ChangesFault>
        ensures done { ChangesSite (site_state self.old) (site_state self.new) (all_applied (site_state self.old).site changes.items) result }
        ensures fault { IfErr result (IsChangesFault (lacks self.old changes.items) (site_state self.old) (site_state self.new) (all_applied (site_state self.old).site changes.items)) }
        ensures lacking { IfErr result (λ e. (site_state self.new).usable ≡ (site_state self.old).usable → LacksTheSame (lacks self.old) (lacks self.new)) }
        ensures ended { ChangesNoMore (lacks self.old changes.items) AllFailed (site_state self.old).usable (as_one result) result }
        ensures counts { CountsChange (site_state self.old) (site_state self.new) (as_one result) }
        ensures at_crash { ChangeCrashes site_state crash_states represents self.old self.new (all_applied (site_state self.old).site changes.items) result };

    /// Between two calls each crash state represents the site.
    ghost crash_states_represent: { (k : Self) (c : CrashState) → IsTrue (site_state k).honest → (site_state k).usable ≡ true → may_crash_to (crash_states k) c → represents c (site_state k).site };
}
