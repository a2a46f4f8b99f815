// Pins that sessions hold.
ghost use Rattle.std.specs.Prelude.{◌≡◌, [], None, OnErr, IfOk, IfErr, IfSome, IsTrue, length};
ghost use Rattle.host_types.specs.SiteState.{SiteState};
ghost use Rattle.host_types.specs.CrashStates.{AddsNone};
ghost use Rattle.host_types.specs.Pins.{is_out, most_pins};
ghost use Rattle.group_hub.specs.HeldPins.{HoldsAll, IsClosed, MovesPins, MayGiveBack};
ghost use Rattle.group_hub.specs.Sessions.{pin_of, pins_of};

use crate::session::{Drawing, Phase, Session};
use host_types::SiteKeeper;

/// Gives back the pin of a phase, where it holds one.
pub fn give_back<S: SiteKeeper>(site: &mut S, phase: Phase<S::Pin>)
    requires out { IfSome (pin_of S.pinned phase) (λ pin. IsTrue (is_out (S.site_state site.old) pin)) }
    ensures pins { MovesPins (S.site_state site.old) (S.site_state site.new) (pin_of S.pinned phase) None }
    ensures only { MayGiveBack (S.site_state site.old) (S.site_state site.new) }
    ensures none { pin_of S.pinned phase ≡ None → site.new ≡ site.old }
    ensures at_crash { IsTrue (S.site_state site.old).honest → AddsNone (S.crash_states site.old) (S.crash_states site.new) }
    ensures moment { (S.crash_states site.new).moment ≡ (S.crash_states site.old).moment }
{
    match phase {
        Phase::Hearing(_) | Phase::Waiting(_) => {}
        Phase::Replying(_) => {}
        Phase::Drawing(Drawing { pin, view: _ }) => site.unpin_site(pin),
        Phase::Drawn | Phase::Early => {}
    }
}

/// Ends all sessions, and gives their pins back.
pub fn end_all<S: SiteKeeper>(site: S, sessions: Vec<Session<S::Pin>>) -> S
    requires { HoldsAll (S.site_state site) (pins_of S.pinned sessions.items) }
    ensures closed { IsClosed S.site_state S.crash_states site result }
    ensures none { sessions.items ≡ [] → result ≡ site }
{
    let mut site = site;
    let mut sessions = sessions;
    while !sessions.is_empty() {
        let Session { id: _, phase } = sessions.remove(0);
        give_back(&mut site, phase);
    }
    sessions.destroy_empty();
    site
}
