// Posts that are made in one step.
ghost use Rattle.std.specs.Prelude.{◌≡◌, ◌≤◌, true, [], vec_len, vec_capacity, length, IsTrue};
ghost use Rattle.host_types.specs.Site.{IsSite};
ghost use Rattle.group_hub.specs.HeldPins.{HoldsAll};
ghost use Rattle.group_hub.specs.Sessions.{pins_of};
ghost use Rattle.group_hub.specs.Together.{MakesTogether};

use crate::group::prepare;
use crate::group_commit::{GroupCommit, commit_group};
use crate::next::Next;
use crate::session::Session;
use group_world::HubFault;
use std::alloc::Global;
use word_search::SearchKeeper;

/// Prepares what all sessions are to have, and makes the changes of their posts in one step, where they fit.
pub fn make_together<S: SearchKeeper>(
    alloc: Global,
    site: &mut S,
    sessions: &[Session<S::Pin>],
    next: &mut Vec<Next<S::Pin>>,
) -> Result<GroupCommit, HubFault>
    requires usable { (S.site_state site.old).usable ≡ true }
    requires few { length sessions.now ≤ 32 }
    requires room { (next.old.items ≡ []) × (length sessions.now ≤ vec_capacity next.old) }
    requires held { HoldsAll (S.site_state site.old) (pins_of S.pinned sessions.now) }
    requires valid { IsTrue (S.site_state site.old).honest → ∥ IsSite (S.site_state site.old).site ∥₁ }
    ensures makes { MakesTogether S.site_state S.lacks S.crash_states S.represents S.pinned sessions.now next.new.items site.old site.new result }
    ensures valid { IsTrue (S.site_state site.old).honest → ∥ IsSite (S.site_state site.new).site ∥₁ }
{
    let mut changes = Vec::new(alloc);
    match prepare(alloc, site, sessions, next, &mut changes) {
        Ok(()) => commit_group(site, changes),
        Err(fault) => Err(fault),
    }
}
