// What moves one session that hears a request.
ghost use Rattle.std.specs.Prelude.{◌≡◌, ◌&&◌, true, false, [], None, IfOk, IfErr, IfSome, IsTrue, is_some};
ghost use Rattle.std.specs.Option.{option_map};
ghost use Rattle.host_types.specs.Counting.{CountsReads};
ghost use Rattle.host_types.specs.Pins.{Pinned};
ghost use Rattle.host_types.specs.Site.{IsSite};
ghost use Rattle.host_types.specs.SiteState.{SiteState, IsReadFault};
ghost use Rattle.request_reader.specs.ReceivedInput.{verdict_by, undone};
ghost use Rattle.request_reader.specs.Seen.{seen};
ghost use Rattle.site_replies.specs.PostReply.{IsRight};
ghost use Rattle.site_replies.specs.Replies.{answer_of, IsSized, PostsNoView};
ghost use Rattle.site_replies.specs.declared.answered.Reply.TheVariants as replies;
ghost use Rattle.group_world.specs.World as world;
ghost use Rattle.group_world.specs.Step.{at_moment};
ghost use Rattle.group_world.specs.declared.fault.HubFault.TheVariants.{Memory as OutOfMemory, Crowded};
ghost use Rattle.group_hub.specs.HeldPins.{MayPin};
ghost use Rattle.group_hub.specs.Hears.{is_grouped, is_full, fault_alone, status_of, made_post, MakesChanges, GetsNext, TakesIn, Hears};
ghost use Rattle.group_hub.specs.HeardSteps.{verdict_step, piece_step, end_step, MakesPost, SendsReply, Concludes};
ghost use Rattle.group_hub.specs.Preparing.{KeeperOnlyReads, Prepares};
ghost use Rattle.group_hub.specs.Sessions.{phase_of, pin_of, IsSound};
ghost use Rattle.group_hub.specs.Understood.{reply_by, answered, post_of, is_whole, HasRoomFor};
ghost use Rattle.group_hub.specs.declared.phase.Concluded.TheVariants.{Waits};
ghost use Rattle.group_hub.specs.declared.session.Phase.TheVariants as phases;

use crate::pins::give_back;
use crate::posting::Posting;
use crate::session::{Drawing, Hearing, Phase, Replying, Waiting};
use group_world::{HubFault, InputStatus};
use host_types::{Change, SiteFault, SitePinFault, Stamp, changes_keep_sites_valid};
use request_reader::{Reader, StreamVerdict};
use site_replies::{Answered, Reply, ViewReply, bad_reply, reply};
use std::alloc::Global;
use std::mem;
use view_draws::ViewDraw;
use word_search::SearchKeeper;

/// What a request that is heard comes to.
pub enum Concluded<P> {
    /// A session answers so, and is in its next phase.
    Answered(InputStatus, Phase<P>),
    /// Its post waits.
    Waits,
}

/// A session that has heard nothing.
pub fn new_phase<P>(alloc: Global) -> Phase<P>
    ensures phase { (pinned : P → Pinned) (h : SiteState) → phase_of pinned h result ≡ world.Heard [] }
    ensures no_pin { (pinned : P → Pinned) → pin_of pinned result ≡ None }
    ensures sound { (pinned : P → Pinned) (h : SiteState) → IsSound pinned h result }
{
    Phase::Hearing(Hearing {
        reader: Reader::new(alloc),
    })
}

/// The reply to what is a request or none, or nothing where it is not known yet or ended too early.
fn reply_to<S: SearchKeeper>(
    alloc: Global,
    site: &mut S,
    answer: StreamVerdict<'_>,
    now: Stamp,
) -> Result<Option<Answered>, SiteFault>
    ensures reply { IsTrue (S.site_state site.old).honest → IfOk result (λ made. option_map (answer_of (S.site_state site.old).site) made ≡ reply_by (S.site_state site.old).site now (seen answer.entry)) }
    ensures sized { IsTrue (S.site_state site.old).honest → IfOk result (λ made. IfSome made (λ a. IsSized (S.site_state site.old).site a.reply)) }
    ensures posts { IfOk result (λ made. IfSome made (λ a. PostsNoView a.reply a.post)) }
    ensures whole { IfOk result (λ made. IfSome made (λ a. is_some a.post ≡ true → is_whole (seen answer.entry) ≡ true)) }
    ensures only { KeeperOnlyReads S.site_state S.lacks S.crash_states site.old site.new }
    ensures fault { IfErr result (IsReadFault true (S.site_state site.old) (S.site_state site.new)) }
    ensures reads { CountsReads result (S.site_state site.old) (S.site_state site.new) }
{
    match answer {
        StreamVerdict::Whole(request) => Ok(Some(reply(alloc, site, request, now)?)),
        StreamVerdict::Bad(cause) => {
            let bytes = bad_reply(alloc, cause)?;
            Ok(Some(Answered {
                reply: Reply::Whole(bytes),
                post: None,
            }))
        }
        StreamVerdict::More | StreamVerdict::Early => Ok(None),
    }
}

/// Makes a post that the site takes, where there is one.
fn store<S: SearchKeeper>(site: &mut S, post: Option<Change>, now: Stamp) -> Result<(), HubFault>
    requires usable { (S.site_state site.old).usable ≡ true }
    requires right { IsTrue (S.site_state site.old).honest → IsRight (S.site_state site.old).site now post }
    ensures pins { (S.site_state site.new).pins ≡ (S.site_state site.old).pins }
    ensures site { MakesChanges S.site_state S.lacks S.crash_states S.represents (at_moment now post) site.old site.new result }
    ensures uncrowded { IfErr result (λ e. e ≡ Crowded → ⊥) }
    ensures valid { IsTrue (S.site_state site.old).honest → ∥ IsSite (S.site_state site.old).site ∥₁ → ∥ IsSite (S.site_state site.new).site ∥₁ }
{
    let Some(change) = post else {
        return Ok(());
    };
    changes_keep_sites_valid();
    change.valid_names();
    let _ = now.seconds();
    match site.change(change, now) {
        Ok(()) => Ok(()),
        // What was read before is no more there.
        Err(SiteFault::Refused(_)) => Err(HubFault::Broken),
        Err(fault) => Err(HubFault::of_site(fault)),
    }
}

/// Pins the site for a view that is sent, of which the reply has this many bytes.
pub fn pin_view<S: SearchKeeper>(site: &mut S, reply: ViewReply) -> Result<Phase<S::Pin>, HubFault>
    requires may_pin { MayPin (S.site_state site.old) }
    requires sized { IsTrue (S.site_state site.old).honest → IsSized (S.site_state site.old).site (replies.View reply) }
    ensures sends { SendsReply S.pinned (replies.View reply) (S.site_state site.old) (S.site_state site.new) result }
    ensures fault { IfErr result (λ e. (e ≡ OutOfMemory) × ((S.site_state site.new) ≡ (S.site_state site.old))) }
    ensures prepares { Prepares S.site_state S.lacks S.crash_states site.old site.new result }
{
    let ViewReply {
        head,
        selector,
        view,
        size,
        is_text,
    } = reply;
    match site.pin_site() {
        Ok(pin) => Ok(Phase::Drawing(Drawing {
            pin,
            view: ViewDraw::new(head, selector, view, size, is_text),
        })),
        Err(SitePinFault::Memory) => Err(HubFault::Memory),
        Err(SitePinFault::Failed) | Err(SitePinFault::Crowded) => unreachable!(),
    }
}

/// The session has its reply, once the post is made, or has none.
fn settle<S: SearchKeeper>(
    site: &mut S,
    made: Option<Answered>,
    now: Stamp,
) -> Result<(InputStatus, Phase<S::Pin>), HubFault>
    requires may_pin { MayPin (S.site_state site.old) }
    requires right { IsTrue (S.site_state site.old).honest → IsRight (S.site_state site.old).site now (post_of (option_map (answer_of (S.site_state site.old).site) made)) }
    requires sized { IsTrue (S.site_state site.old).honest → IfSome made (λ a. IsSized (S.site_state site.old).site a.reply) }
    requires posts { IfSome made (λ a. PostsNoView a.reply a.post) }
    ensures next { GetsNext S.pinned (answered (option_map (answer_of (S.site_state site.old).site) made)) (S.site_state site.old) (S.site_state site.new) result }
    ensures site { MakesChanges S.site_state S.lacks S.crash_states S.represents (at_moment now (post_of (option_map (answer_of (S.site_state site.old).site) made))) site.old site.new result }
    ensures valid { IsTrue (S.site_state site.old).honest → ∥ IsSite (S.site_state site.old).site ∥₁ → ∥ IsSite (S.site_state site.new).site ∥₁ }
{
    let Some(Answered { reply, post }) = made else {
        return Ok((InputStatus::Finished, Phase::Early));
    };
    match reply {
        Reply::Whole(bytes) => {
            store(site, post, now)?;
            Ok((
                InputStatus::Ready,
                Phase::Replying(Replying { bytes, drawn: 0 }),
            ))
        }
        Reply::View(view) => {
            let phase = pin_view(site, view)?;
            Ok((InputStatus::Ready, phase))
        }
    }
}

/// Whether what was made is to wait.
fn is_to_wait(made: &Option<Answered>, posting: Posting) -> bool
    ensures { result ≡ (is_grouped posting && is_some (made_post made.now)) }
{
    match (made, posting) {
        (Some(Answered { post: Some(_), .. }), Posting::Waits | Posting::Crowded) => true,
        _ => false,
    }
}

/// A right post waits, where one more may.
fn let_wait<P>(posting: Posting) -> Result<Concluded<P>, HubFault>
    ensures ok { IfOk result (λ c. (c ≡ Waits) × (is_full posting ≡ false)) }
    ensures err { IfErr result (λ e. (e ≡ Crowded) × (is_full posting ≡ true)) }
{
    match posting {
        Posting::Crowded => Err(HubFault::Crowded),
        Posting::AtOnce | Posting::Waits => Ok(Concluded::Waits),
    }
}

/// Answers what has been heard to its end, and makes the post that it comes to, or lets it wait.
pub fn conclude<S: SearchKeeper>(
    alloc: Global,
    site: &mut S,
    answer: StreamVerdict<'_>,
    now: Stamp,
    posting: Posting,
) -> Result<Concluded<S::Pin>, HubFault>
    requires may_pin { MayPin (S.site_state site.old) }
    ensures concludes { Concludes S.pinned posting (seen answer.entry) now (S.site_state site.old) (S.site_state site.new) result }
    ensures site { MakesPost S.site_state S.lacks S.crash_states S.represents now (verdict_step posting (S.site_state site.old) now (seen answer.entry)) site.old site.new result }
    ensures valid { IsTrue (S.site_state site.old).honest → ∥ IsSite (S.site_state site.old).site ∥₁ → ∥ IsSite (S.site_state site.new).site ∥₁ }
{
    let made = match reply_to(alloc, site, answer, now) {
        Ok(made) => made,
        Err(fault) => return Err(HubFault::of_site(fault)),
    };
    if is_to_wait(&made, posting) {
        return let_wait(posting);
    }
    match settle(site, made, now) {
        Ok((status, phase)) => Ok(Concluded::Answered(status, phase)),
        Err(fault) => Err(fault),
    }
}

/// A request has been heard to its end. It gives the next phase of its session, or the reader with what it had heard before.
fn take_in<S: SearchKeeper>(
    alloc: Global,
    site: &mut S,
    reader: Reader,
    now: Stamp,
    posting: Posting,
) -> Result<(InputStatus, Phase<S::Pin>), (HubFault, Reader)>
    requires may_pin { MayPin (S.site_state site.old) }
    ensures takes { TakesIn S.pinned (verdict_step posting (S.site_state site.old) now (verdict_by reader.input)) posting (S.site_state site.old) (S.site_state site.new) (fault_alone result) }
    ensures err { IfErr result (λ e. e.1 ≡ undone reader) }
    ensures site { MakesPost S.site_state S.lacks S.crash_states S.represents now (verdict_step posting (S.site_state site.old) now (verdict_by reader.input)) site.old site.new (fault_alone result) }
{
    match conclude(alloc, site, reader.answer(), now, posting) {
        Ok(Concluded::Answered(status, phase)) => Ok((status, phase)),
        Ok(Concluded::Waits) => Ok((
            InputStatus::Waiting,
            Phase::Waiting(Waiting { reader, now }),
        )),
        Err(fault) => {
            let mut reader = reader;
            reader.undo();
            Err((fault, reader))
        }
    }
}

/// A piece comes to a request that isn't whole yet. It gives the next phase of its session, or the request as it was.
fn hear_piece<S: SearchKeeper>(
    alloc: Global,
    site: &mut S,
    hearing: Hearing,
    piece: &[u8],
    now: Stamp,
    posting: Posting,
) -> Result<(InputStatus, Phase<S::Pin>), (HubFault, Hearing)>
    requires may_pin { MayPin (S.site_state site.old) }
    ensures takes { TakesIn S.pinned (piece_step S.pinned posting (S.site_state site.old) now piece.now (phases.Hearing hearing)) posting (S.site_state site.old) (S.site_state site.new) (fault_alone result) }
    ensures err { IfErr result (λ e. e.1.reader.input.bytes ≡ hearing.reader.input.bytes) }
    ensures site { MakesPost S.site_state S.lacks S.crash_states S.represents now (piece_step S.pinned posting (S.site_state site.old) now piece.now (phases.Hearing hearing)) site.old site.new (fault_alone result) }
{
    let Hearing { reader } = hearing;
    let mut reader = reader;
    if reader.feed(piece).is_err() {
        return Err((HubFault::Memory, Hearing { reader }));
    }
    if reader.is_open() {
        return Ok((InputStatus::More, Phase::Hearing(Hearing { reader })));
    }
    match take_in(alloc, site, reader, now, posting) {
        Ok(next) => Ok(next),
        Err((fault, reader)) => Err((fault, Hearing { reader })),
    }
}

/// The input ends before a request is whole. It gives the next phase of its session, or the request as it was.
fn hear_last<S: SearchKeeper>(
    alloc: Global,
    site: &mut S,
    hearing: Hearing,
    now: Stamp,
    posting: Posting,
) -> Result<(InputStatus, Phase<S::Pin>), (HubFault, Hearing)>
    requires may_pin { MayPin (S.site_state site.old) }
    ensures takes { TakesIn S.pinned (end_step S.pinned posting (S.site_state site.old) now (phases.Hearing hearing)) posting (S.site_state site.old) (S.site_state site.new) (fault_alone result) }
    ensures err { IfErr result (λ e. e.1.reader.input.bytes ≡ hearing.reader.input.bytes) }
    ensures site { MakesPost S.site_state S.lacks S.crash_states S.represents now (end_step S.pinned posting (S.site_state site.old) now (phases.Hearing hearing)) site.old site.new (fault_alone result) }
{
    let Hearing { reader } = hearing;
    let mut reader = reader;
    reader.finish();
    if reader.is_open() {
        reader.undo();
        return Ok((InputStatus::More, Phase::Hearing(Hearing { reader })));
    }
    match take_in(alloc, site, reader, now, posting) {
        Ok(next) => Ok(next),
        Err((fault, reader)) => Err((fault, Hearing { reader })),
    }
}

/// Puts a session that holds no pin into its next phase.
pub fn put<S: SearchKeeper>(site: &mut S, phase: &mut Phase<S::Pin>, next: Phase<S::Pin>)
    requires { pin_of S.pinned phase.old ≡ None }
    ensures phase { phase.new ≡ next }
    ensures site { site.new ≡ site.old }
{
    let before = mem::replace(phase, next);
    give_back(site, before);
}

/// What a session answers to further input.
fn status_of<P>(phase: &Phase<P>) -> InputStatus
    ensures { result ≡ status_of phase.now }
{
    match phase {
        Phase::Hearing(_) => InputStatus::More,
        Phase::Waiting(_) => InputStatus::Waiting,
        Phase::Replying(_) | Phase::Drawing(_) | Phase::Drawn => InputStatus::Ready,
        Phase::Early => InputStatus::Finished,
    }
}

/// A piece comes. An `Err` leaves the phase as it was.
pub fn hear<S: SearchKeeper>(
    alloc: Global,
    site: &mut S,
    phase: &mut Phase<S::Pin>,
    piece: &[u8],
    now: Stamp,
    posting: Posting,
) -> Result<InputStatus, HubFault>
    requires usable { (S.site_state site.old).usable ≡ true }
    requires room { HasRoomFor (S.site_state site.old) (phase_of S.pinned (S.site_state site.old) phase.old) }
    ensures hears { Hears S.pinned (piece_step S.pinned posting (S.site_state site.old) now piece.now phase.old) posting phase.old phase.new (S.site_state site.old) (S.site_state site.new) result }
    ensures site { MakesPost S.site_state S.lacks S.crash_states S.represents now (piece_step S.pinned posting (S.site_state site.old) now piece.now phase.old) site.old site.new result }
{
    let hearing = match mem::replace(phase, Phase::Early) {
        Phase::Hearing(hearing) => hearing,
        other => {
            let status = status_of(&other);
            put(site, phase, other);
            return Ok(status);
        }
    };
    match hear_piece(alloc, site, hearing, piece, now, posting) {
        Ok((status, next)) => {
            put(site, phase, next);
            Ok(status)
        }
        Err((fault, hearing)) => {
            put(site, phase, Phase::Hearing(hearing));
            Err(fault)
        }
    }
}

/// The input ends. An `Err` leaves the phase as it was.
pub fn hear_end<S: SearchKeeper>(
    alloc: Global,
    site: &mut S,
    phase: &mut Phase<S::Pin>,
    now: Stamp,
    posting: Posting,
) -> Result<InputStatus, HubFault>
    requires usable { (S.site_state site.old).usable ≡ true }
    requires room { HasRoomFor (S.site_state site.old) (phase_of S.pinned (S.site_state site.old) phase.old) }
    ensures hears { Hears S.pinned (end_step S.pinned posting (S.site_state site.old) now phase.old) posting phase.old phase.new (S.site_state site.old) (S.site_state site.new) result }
    ensures site { MakesPost S.site_state S.lacks S.crash_states S.represents now (end_step S.pinned posting (S.site_state site.old) now phase.old) site.old site.new result }
{
    let hearing = match mem::replace(phase, Phase::Early) {
        Phase::Hearing(hearing) => hearing,
        other => {
            let status = status_of(&other);
            put(site, phase, other);
            return Ok(status);
        }
    };
    match hear_last(alloc, site, hearing, now, posting) {
        Ok((status, next)) => {
            put(site, phase, next);
            Ok(status)
        }
        Err((fault, hearing)) => {
            put(site, phase, Phase::Hearing(hearing));
            Err(fault)
        }
    }
}
