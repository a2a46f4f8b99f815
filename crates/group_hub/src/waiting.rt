// Sessions whose posts wait.
ghost use Rattle.std.specs.Prelude.{◌≡◌, ◌<◌, ◌≤◌, ◌&&◌, not, vec_len, vec_capacity, if◌then◌else◌};
ghost use Rattle.host_types.specs.Pins.{Pinned};
ghost use Rattle.host_types.specs.SiteState.{SiteState};
ghost use Rattle.group_world.specs.World.{count_waiting};
ghost use Rattle.group_hub.specs.Sessions.{is_waiting, sessions_of, moved_last};
ghost use Rattle.group_hub.specs.Hears.{is_wait};

use crate::session::{Phase, Session};
use group_world::{HubFault, InputStatus};

impl<P> Phase<P> {
    /// Whether its post waits.
    pub fn is_waiting(&self) -> bool
        ensures { result ≡ is_waiting self.now }
    {
        matches!(self, Phase::Waiting(_))
    }
}

/// How many posts wait.
pub fn waiting_in<P>(sessions: &[Session<P>]) -> usize
    ensures count { (pinned : P → Pinned) (h : SiteState) → result ≡ count_waiting (sessions_of pinned h sessions.now) }
{
    let mut count = 0;
    for session in sessions {
        if session.phase.is_waiting() {
            count += 1;
        }
    }
    count
}

/// Whether a session that was heard so comes to wait, and didn't before.
pub fn comes_to_wait(heard: &Result<InputStatus, HubFault>, waited: bool) -> bool
    ensures { result ≡ (not waited && is_wait heard.now) }
{
    !waited && matches!(heard, Ok(InputStatus::Waiting))
}

/// Puts a session behind all others where it `goes`; else all stay.
pub fn place<P>(sessions: &mut Vec<Session<P>>, at: usize, goes: bool)
    requires within { at < vec_len sessions.old }
    ensures items { sessions.new.items ≡ (if goes then moved_last sessions.old.items at else sessions.old.items) }
    ensures len { vec_len sessions.new ≡ vec_len sessions.old }
    ensures capacity { vec_capacity sessions.old ≤ vec_capacity sessions.new }
{
    if goes {
        let session = sessions.remove(at);
        sessions.push(session).unwrap();
    }
}
