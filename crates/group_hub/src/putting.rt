// Sessions are put into their next phases.
ghost use Rattle.std.specs.Prelude.{◌≡◌, ◌≤◌, ◌++◌, None, IfSome, IsTrue, vec_len, vec_capacity};
ghost use Rattle.host_types.specs.CrashStates.{AddsNone};
ghost use Rattle.host_types.specs.Pins.{is_out};
ghost use Rattle.group_hub.specs.Flushing.{next_pins, given_back, put_phase, IsForWaiting, AreForWaiting, PutsSessions, GivesBackBeside};
ghost use Rattle.group_hub.specs.HeldPins.{HoldsAll, HoldsBeside, MovesPins, MayGiveBack};
ghost use Rattle.group_hub.specs.Sessions.{pins_of};

use crate::next::{Next, Putting};
use crate::phase::put;
use crate::pins::give_back;
use crate::session::{Phase, Session};
use word_search::SearchKeeper;

/// Puts a session into its next phase, or gives the pin back that was taken for it.
fn put_one<S: SearchKeeper>(
    site: &mut S,
    phase: &mut Phase<S::Pin>,
    next: Next<S::Pin>,
    putting: Putting,
)
    requires waiting { IsForWaiting phase.old next }
    requires out { IfSome (given_back S.pinned putting next) (λ pin. IsTrue (is_out (S.site_state site.old) pin)) }
    ensures phase { phase.new ≡ put_phase putting phase.old next }
    ensures pins { MovesPins (S.site_state site.old) (S.site_state site.new) (given_back S.pinned putting next) None }
    ensures same { given_back S.pinned putting next ≡ None → site.new ≡ site.old }
    ensures keeper { MayGiveBack (S.site_state site.old) (S.site_state site.new) }
    ensures at_crash { IsTrue (S.site_state site.old).honest → AddsNone (S.crash_states site.old) (S.crash_states site.new) }
{
    match next {
        Next::Stays => {}
        Next::Gone(next) => put(site, phase, next),
        Next::Replied(next) => match putting {
            Putting::All => put(site, phase, next),
            Putting::Gone => give_back(site, next),
        },
    }
}

/// Puts sessions into their next phases, and gives the pins back of those that are not put.
pub fn put_next<S: SearchKeeper>(
    site: &mut S,
    sessions: &mut Vec<Session<S::Pin>>,
    next: Vec<Next<S::Pin>>,
    putting: Putting,
)
    requires waiting { AreForWaiting sessions.old.items next.items }
    requires held { HoldsAll (S.site_state site.old) (next_pins S.pinned next.items ++ pins_of S.pinned sessions.old.items) }
    ensures puts { PutsSessions putting S.pinned (S.site_state site.old) (S.site_state site.new) sessions.old.items sessions.new.items next.items }
    ensures at_crash { IsTrue (S.site_state site.old).honest → AddsNone (S.crash_states site.old) (S.crash_states site.new) }
    ensures places { (vec_len sessions.new ≡ vec_len sessions.old) × (vec_capacity sessions.old ≤ vec_capacity sessions.new) }
{
    let mut next = next;
    for session in sessions.iter_mut() {
        put_one(site, &mut session.phase, next.remove(0), putting);
    }
    next.destroy_empty();
}

/// Gives the pins back that were taken for some sessions, none of which is put.
pub fn put_nobody<S: SearchKeeper>(site: &mut S, next: Vec<Next<S::Pin>>)
    requires held { HoldsBeside (S.site_state site.old) (next_pins S.pinned next.items) }
    ensures stands { GivesBackBeside S.pinned (S.site_state site.old) (S.site_state site.new) (next_pins S.pinned next.items) }
    ensures keeper { MayGiveBack (S.site_state site.old) (S.site_state site.new) }
    ensures at_crash { IsTrue (S.site_state site.old).honest → AddsNone (S.crash_states site.old) (S.crash_states site.new) }
{
    let mut next = next;
    while !next.is_empty() {
        match next.remove(0) {
            Next::Stays => {}
            Next::Gone(phase) | Next::Replied(phase) => give_back(site, phase),
        }
    }
    next.destroy_empty();
}
