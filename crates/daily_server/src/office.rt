// Who else works on a hub, behind the turns of its clients.
ghost use Rattle.std.specs.Prelude.{◌≡◌, ℕ, Bool, List};
ghost use Rattle.group_hub.specs.Calls.{RunsHub};
ghost use Rattle.group_world.specs.declared.event.Event.{Event};
ghost use Rattle.group_world.specs.declared.event.Outcome.{Outcome};
ghost use Rattle.turns.specs.Runs.{HasRun};
ghost use Rattle.daily_server.specs.Offices.{DoesNothing};
ghost use Rattle.daily_server.specs.declared.pace.Pace.{Pace};
ghost use Rattle.daily_server.specs.declared.pace.Pace.TheVariants as pace;

use crate::{Desk, Pace};
use group_hub::Hub;
use turns::Clock;
use word_search::SearchKeeper;

/// Who else works on a hub: it has one turn a round, behind those of the clients.
pub trait Office {
    /// How long it lets the next wait last.
    ghost lets_wait: { Self → Pace };

    /// What it does in a turn, by whether it is called and at a second of the watch: from how it was, by these events with these outcomes, to how it is.
    ghost works: { Bool → ℕ → Self → List Event → List Outcome → Self → Type 0 };

    /// How long it lets the next wait last.
    fn pace(&self) -> Pace
        ensures { result ≡ lets_wait self.now };

    /// Its turn. By the desk it has waits tell of its sockets.
    fn turn<S: SearchKeeper, C: Clock>(
        &mut self,
        desk: &Desk<'_>,
        hub: &mut Hub<S>,
        clock: &mut C,
        called: bool,
        now: u64,
    )
        ensures { HasRun RunsHub hub.old hub.new (C.given clock.old) (C.given clock.new) (λ es os. works called now self.old es os self.new) };
}

/// Nobody else works on the hub.
#[derive(Clone, Copy, Debug, Drop)]
pub struct NoOffice;

impl Office for NoOffice {
    ghost lets_wait = { λ _. pace.Idle };

    ghost works = { DoesNothing };

    fn pace(&self) -> Pace {
        Pace::Idle
    }

    fn turn<S: SearchKeeper, C: Clock>(
        &mut self,
        _desk: &Desk<'_>,
        _hub: &mut Hub<S>,
        _clock: &mut C,
        _called: bool,
        _now: u64,
    ) {}
}
