// Posts that are made one at a time.
ghost use Rattle.std.specs.Prelude.{◌≡◌, ◌≤◌, true, IsTrue, vec_len, vec_capacity};
ghost use Rattle.host_types.specs.Site.{IsSite};
ghost use Rattle.group_world.specs.Step.{post_from};
ghost use Rattle.group_world.specs.World.{count_waiting};
ghost use Rattle.group_hub.specs.Flushing.{AnswersAlone, TakesSingly, WorksSingly};
ghost use Rattle.group_hub.specs.HeldPins.{MayPin};
ghost use Rattle.group_hub.specs.Hears.{MakesChanges};
ghost use Rattle.group_hub.specs.Sessions.{phase_of, sessions_of, is_waiting, SessionsStand, KeepsSessions};

use crate::phase::{Concluded, conclude, put};
use crate::posting::Posting;
use crate::session::{Phase, Session};
use group_world::HubFault;
use std::alloc::Global;
use word_search::SearchKeeper;

/// Makes the post of a session that waits, where it is a right one, and answers it. A fault leaves it waiting.
fn answer_alone<S: SearchKeeper>(
    alloc: Global,
    site: &mut S,
    phase: &mut Phase<S::Pin>,
) -> Result<(), HubFault>
    requires may_pin { MayPin (S.site_state site.old) }
    requires waits { is_waiting phase.old ≡ true }
    ensures answers { AnswersAlone S.pinned phase.old phase.new (S.site_state site.old) (S.site_state site.new) result }
    ensures site { MakesChanges S.site_state S.lacks S.crash_states S.represents (post_from (S.site_state site.old).site (phase_of S.pinned (S.site_state site.old) phase.old)) site.old site.new result }
    ensures valid { IsTrue (S.site_state site.old).honest → ∥ IsSite (S.site_state site.old).site ∥₁ → ∥ IsSite (S.site_state site.new).site ∥₁ }
{
    let Phase::Waiting(waiting) = phase else {
        unreachable!()
    };
    match conclude(
        alloc,
        site,
        waiting.reader.answer(),
        waiting.now,
        Posting::AtOnce,
    ) {
        Ok(Concluded::Answered(_, next)) => {
            put(site, phase, next);
            Ok(())
        }
        Ok(Concluded::Waits) => unreachable!(),
        Err(fault) => Err(fault),
    }
}

/// Makes the posts that wait one at a time, and says how many are left. Only `Failed` ends it.
pub fn answer_singly<S: SearchKeeper>(
    alloc: Global,
    site: &mut S,
    sessions: &mut Vec<Session<S::Pin>>,
) -> Result<usize, HubFault>
    requires usable { (S.site_state site.old).usable ≡ true }
    requires few { vec_len sessions.old ≤ 32 }
    requires stand { SessionsStand S.pinned (S.site_state site.old) sessions.old.items }
    ensures takes { TakesSingly S.site_state S.crash_states S.represents S.pinned site.old sessions.old.items site.new sessions.new.items result }
    ensures works { WorksSingly (S.site_state site.old) (S.site_state site.new) (count_waiting (sessions_of S.pinned (S.site_state site.old) sessions.old.items)) result }
    ensures sessions { KeepsSessions S.pinned (S.site_state site.old) (S.site_state site.new) sessions.old.items sessions.new.items }
    ensures valid { IsTrue (S.site_state site.old).honest → ∥ IsSite (S.site_state site.old).site ∥₁ → ∥ IsSite (S.site_state site.new).site ∥₁ }
    ensures places { (vec_len sessions.new ≡ vec_len sessions.old) × (vec_capacity sessions.old ≤ vec_capacity sessions.new) }
{
    let mut left = 0;
    for session in sessions.iter_mut() {
        if session.phase.is_waiting() {
            match answer_alone(alloc, site, &mut session.phase) {
                Ok(()) => {}
                Err(fault) => match fault {
                    HubFault::Failed => return Err(HubFault::Failed),
                    _ => left += 1,
                },
            }
        }
    }
    Ok(left)
}
