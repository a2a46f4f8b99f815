// Posts that are made together: what their sessions are to have, and the changes.
ghost use Rattle.std.specs.Prelude.{◌≡◌, ◌<◌, ◌≤◌, ◌++◌, true, false, [], length, OnOk, IfOk, IfErr, IsTrue, vec_capacity};
ghost use Rattle.host_types.specs.Site.{IsSite, item_at};
ghost use Rattle.host_types.specs.SiteState.{SiteState};
ghost use Rattle.host_types.specs.Pins.{most_pins};
ghost use Rattle.host_types.specs.Visible.{visible};
ghost use Rattle.request_reader.specs.Seen.{request_of};
ghost use Rattle.request_reader.specs.ReceivedInput.{verdict_by};
ghost use Rattle.site_replies.specs.Forms.{is_form_in};
ghost use Rattle.site_replies.specs.LaterReply.{are_posts};
ghost use Rattle.site_replies.specs.Replies.{IsSized};
ghost use Rattle.group_world.specs.Step.{at_moment};
ghost use Rattle.group_world.specs.World as world;
ghost use Rattle.group_world.specs.declared.fault.HubFault.TheVariants.{Memory as OutOfMemory};
ghost use Rattle.group_hub.specs.Flushing.{waits_no_more, IsForWaiting, GivesReplyAlways, GivesReplyBehind, TakesNextPin, PreparesGroup};
ghost use Rattle.group_hub.specs.HeardSteps.{SendsReply};
ghost use Rattle.group_hub.specs.HeldPins.{HoldsAll, MayPin};
ghost use Rattle.group_hub.specs.Preparing.{Prepares};
ghost use Rattle.group_hub.specs.Sessions.{waits_by, phase_of, pins_of, is_waiting};

use crate::next::Next;
use crate::phase::pin_view;
use crate::session::{Phase, Replying, Session, Waiting};
use group_world::HubFault;
use host_types::{Change, Stamp};
use request_reader::{Request, StreamVerdict};
use site_replies::{Answered, Reply, finds_form, later_reply, reply};
use std::alloc::Global;
use word_search::SearchKeeper;

/// The phase of a session that is sent a reply.
fn sent<S: SearchKeeper>(site: &mut S, reply: Reply) -> Result<Phase<S::Pin>, HubFault>
    requires may_pin { MayPin (S.site_state site.old) }
    requires sized { IsTrue (S.site_state site.old).honest → IsSized (S.site_state site.old).site reply }
    ensures sends { SendsReply S.pinned reply (S.site_state site.old) (S.site_state site.new) result }
    ensures prepares { Prepares S.site_state S.lacks S.crash_states site.old site.new result }
{
    match reply {
        Reply::Whole(bytes) => Ok(Phase::Replying(Replying { bytes, drawn: 0 })),
        Reply::View(view) => pin_view(site, view),
    }
}

/// What a session whose form is gone is to have, by the site as it stands.
fn gone_of<S: SearchKeeper>(
    alloc: Global,
    site: &mut S,
    request: Request<'_>,
    now: Stamp,
) -> Result<Next<S::Pin>, HubFault>
    requires may_pin { MayPin (S.site_state site.old) }
    requires gone { IsTrue (S.site_state site.old).honest → is_form_in (item_at (visible (S.site_state site.old).site now) (request_of request).selector) ≡ false }
    ensures next { GivesReplyAlways S.pinned (S.site_state site.old) (S.site_state site.new) (world.Waits (request_of request.entry) now) result }
    ensures answers { IfOk result (λ n. waits_no_more n ≡ true) }
    ensures takes_pin { TakesNextPin S.pinned (S.site_state site.old) (S.site_state site.new) result }
    ensures prepares { Prepares S.site_state S.lacks S.crash_states site.old site.new result }
{
    match reply(alloc, site, request, now) {
        Ok(Answered { reply, post: _ }) => {
            let phase = sent(site, reply)?;
            Ok(Next::Gone(phase))
        }
        Err(fault) => Err(HubFault::of_site(fault)),
    }
}

/// A post, where there is one, goes behind others.
fn put_behind(
    changes: &mut Vec<(Change, Stamp)>,
    post: Option<Change>,
    now: Stamp,
) -> Result<(), HubFault>
    ensures behind { OnOk result (changes.new.items ≡ changes.old.items ++ at_moment now post) }
    ensures fault { IfErr result (λ e. e ≡ OutOfMemory) }
{
    let Some(post) = post else {
        return Ok(());
    };
    match changes.push((post, now)) {
        Ok(()) => Ok(()),
        Err(_) => Err(HubFault::Memory),
    }
}

/// What a session is to have whose form stands, once the posts before it are made. Its own post, where it is a right one, goes behind them.
fn replied_of<S: SearchKeeper>(
    alloc: Global,
    site: &mut S,
    request: Request<'_>,
    now: Stamp,
    changes: &mut Vec<(Change, Stamp)>,
) -> Result<Next<S::Pin>, HubFault>
    requires may_pin { MayPin (S.site_state site.old) }
    requires valid { IsTrue (S.site_state site.old).honest → ∥ IsSite (S.site_state site.old).site ∥₁ }
    requires posts { IsTrue (S.site_state site.old).honest → are_posts changes.old.items ≡ true }
    requires stands { IsTrue (S.site_state site.old).honest → is_form_in (item_at (visible (S.site_state site.old).site now) (request_of request).selector) ≡ true }
    ensures next { GivesReplyBehind S.pinned (S.site_state site.old) (S.site_state site.new) changes.old.items changes.new.items (world.Waits (request_of request.entry) now) result }
    ensures answers { IfOk result (λ n. waits_no_more n ≡ true) }
    ensures takes_pin { TakesNextPin S.pinned (S.site_state site.old) (S.site_state site.new) result }
    ensures prepares { Prepares S.site_state S.lacks S.crash_states site.old site.new result }
{
    match later_reply(alloc, site, request, changes, now) {
        Ok(Answered { reply, post }) => {
            put_behind(changes, post, now)?;
            let phase = sent(site, reply)?;
            Ok(Next::Replied(phase))
        }
        Err(fault) => Err(HubFault::of_site(fault)),
    }
}

/// What a session whose post waits is to have, once the posts before it are made. Its own post, where it is a right one, goes behind them.
fn next_of<S: SearchKeeper>(
    alloc: Global,
    site: &mut S,
    waiting: &Waiting,
    changes: &mut Vec<(Change, Stamp)>,
) -> Result<Next<S::Pin>, HubFault>
    requires may_pin { MayPin (S.site_state site.old) }
    requires valid { IsTrue (S.site_state site.old).honest → ∥ IsSite (S.site_state site.old).site ∥₁ }
    requires posts { IsTrue (S.site_state site.old).honest → are_posts changes.old.items ≡ true }
    ensures next { GivesReplyBehind S.pinned (S.site_state site.old) (S.site_state site.new) changes.old.items changes.new.items (waits_by (verdict_by waiting.entry.now.reader.input) waiting.entry.now.now) result }
    ensures answers { IfOk result (λ n. waits_no_more n ≡ true) }
    ensures takes_pin { TakesNextPin S.pinned (S.site_state site.old) (S.site_state site.new) result }
    ensures prepares { Prepares S.site_state S.lacks S.crash_states site.old site.new result }
{
    let StreamVerdict::Whole(request) = waiting.reader.answer() else {
        unreachable!()
    };
    match finds_form(site, &request, waiting.now) {
        Ok(true) => replied_of(alloc, site, request, waiting.now, changes),
        Ok(false) => gone_of(alloc, site, request, waiting.now),
        Err(fault) => Err(HubFault::of_site(fault)),
    }
}

/// What any session is to have, once the posts before it are made.
fn next_for<S: SearchKeeper>(
    alloc: Global,
    site: &mut S,
    phase: &Phase<S::Pin>,
    changes: &mut Vec<(Change, Stamp)>,
) -> Result<Next<S::Pin>, HubFault>
    requires usable { (S.site_state site.old).usable ≡ true }
    requires room { is_waiting phase.now ≡ true → length (S.site_state site.old).pins < most_pins }
    requires valid { IsTrue (S.site_state site.old).honest → ∥ IsSite (S.site_state site.old).site ∥₁ }
    requires posts { IsTrue (S.site_state site.old).honest → are_posts changes.old.items ≡ true }
    ensures next { (g : SiteState) → GivesReplyBehind S.pinned (S.site_state site.old) (S.site_state site.new) changes.old.items changes.new.items (phase_of S.pinned g phase.now) result }
    ensures waiting { IfOk result (IsForWaiting phase.now) }
    ensures takes_pin { TakesNextPin S.pinned (S.site_state site.old) (S.site_state site.new) result }
    ensures prepares { Prepares S.site_state S.lacks S.crash_states site.old site.new result }
{
    match phase {
        Phase::Waiting(waiting) => next_of(alloc, site, waiting, changes),
        _ => Ok(Next::Stays),
    }
}

/// What all sessions are to have once the posts are made, and the changes that these make. After a fault pins may be out for some.
pub fn prepare<S: SearchKeeper>(
    alloc: Global,
    site: &mut S,
    sessions: &[Session<S::Pin>],
    next: &mut Vec<Next<S::Pin>>,
    changes: &mut Vec<(Change, Stamp)>,
) -> Result<(), HubFault>
    requires usable { (S.site_state site.old).usable ≡ true }
    requires few { length sessions.now ≤ 32 }
    requires room { (next.old.items ≡ []) × (length sessions.now ≤ vec_capacity next.old) }
    requires none { changes.old.items ≡ [] }
    requires held { HoldsAll (S.site_state site.old) (pins_of S.pinned sessions.now) }
    requires valid { IsTrue (S.site_state site.old).honest → ∥ IsSite (S.site_state site.old).site ∥₁ }
    ensures group { PreparesGroup S.pinned (S.site_state site.old) (S.site_state site.new) sessions.now next.new.items changes.new.items result }
    ensures prepares { Prepares S.site_state S.lacks S.crash_states site.old site.new result }
{
    for session in sessions {
        let made = next_for(alloc, site, &session.phase, changes)?;
        next.push(made).unwrap();
    }
    Ok(())
}
