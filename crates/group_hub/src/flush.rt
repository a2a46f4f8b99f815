// The posts that wait are made.
ghost use Rattle.std.specs.Prelude.{◌≡◌, ◌<◌, ◌≤◌, true, IsTrue, vec_len, vec_capacity};
ghost use Rattle.host_types.specs.Site.{IsSite};
ghost use Rattle.group_world.specs.World.{count_waiting};
ghost use Rattle.group_world.specs.Outcomes.{flush_outcome};
ghost use Rattle.group_world.specs.declared.event.Event.TheVariants.{Flush};
ghost use Rattle.group_hub.specs.Calls.{SessionsCall};
ghost use Rattle.group_hub.specs.Sessions.{sessions_of, SessionsStand, KeepsSessions};

use crate::group_commit::GroupCommit;
use crate::next::Putting;
use crate::putting::{put_next, put_nobody};
use crate::session::Session;
use crate::singly::answer_singly;
use crate::together::make_together;
use crate::waiting::waiting_in;
use group_world::{Flushed, HubFault};
use std::alloc::Global;
use word_search::SearchKeeper;

/// Makes the posts that wait, and answers their sessions.
pub fn flush<S: SearchKeeper>(
    alloc: Global,
    site: &mut S,
    sessions: &mut Vec<Session<S::Pin>>,
) -> Result<Flushed, HubFault>
    requires usable { (S.site_state site.old).usable ≡ true }
    requires few { vec_len sessions.old ≤ 32 }
    requires stand { SessionsStand S.pinned (S.site_state site.old) sessions.old.items }
    requires valid { 0 < count_waiting (sessions_of S.pinned (S.site_state site.old) sessions.old.items) → IsTrue (S.site_state site.old).honest → ∥ IsSite (S.site_state site.old).site ∥₁ }
    ensures call { SessionsCall S.site_state S.lacks S.crash_states S.represents S.pinned site.old sessions.old.items Flush (flush_outcome result) site.new sessions.new.items }
    ensures sessions { KeepsSessions S.pinned (S.site_state site.old) (S.site_state site.new) sessions.old.items sessions.new.items }
    ensures valid { (IsTrue (S.site_state site.old).honest → ∥ IsSite (S.site_state site.old).site ∥₁) → IsTrue (S.site_state site.new).honest → ∥ IsSite (S.site_state site.new).site ∥₁ }
    ensures places { (vec_len sessions.new ≡ vec_len sessions.old) × (vec_capacity sessions.old ≤ vec_capacity sessions.new) }
{
    let waiting = waiting_in(sessions);
    if waiting == 0 {
        return Ok(Flushed {
            answered: 0,
            left: 0,
        });
    }
    let Ok(mut next) = Vec::with_capacity(alloc, sessions.len()) else {
        return Err(HubFault::Memory);
    };
    match make_together(alloc, site, sessions, &mut next) {
        Ok(GroupCommit::Whole) => {
            put_next(site, sessions, next, Putting::All);
            Ok(Flushed {
                answered: waiting,
                left: 0,
            })
        }
        Ok(GroupCommit::TooLarge) => {
            put_next(site, sessions, next, Putting::Gone);
            match answer_singly(alloc, site, sessions) {
                Ok(left) => Ok(Flushed {
                    answered: waiting - left,
                    left,
                }),
                Err(fault) => Err(fault),
            }
        }
        Err(fault) => {
            put_nobody(site, next);
            Err(fault)
        }
    }
}
