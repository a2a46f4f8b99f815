// The hub: all sessions over one site.
ghost use Rattle.std.specs.Prelude.{[], ◌≡◌, ◌≤◌, ◌<◌, ◌==◌, ◌&&◌, true, false, nat_le, length, IfOk, IfErr, IfSome, IsTrue, vec_len, vec_capacity};
ghost use Rattle.std.specs.List.{position};
ghost use Rattle.group_hub.specs.HeldPins.{HoldsAll, HoldsAll-prop};
ghost use Rattle.group_world.specs.World.{count_waiting};
ghost use Rattle.group_hub.specs.Sessions.{sessions_of, pins_of, AreSound, AreSound-prop};
ghost use Rattle.group_hub.specs.Worlds.{IsValidWhereGrouped, IsValidWhereGrouped-prop};

use crate::drawing::draw;
use crate::flush::flush;
use crate::phase::{hear, hear_end, new_phase};
use crate::pins::{end_all, give_back};
use crate::posting::Posting;
use crate::session::Session;
use crate::waiting::{comes_to_wait, place, waiting_in};
use group_world::{Drawn, Flushed, HubFault, InputStatus};
use host_types::{Change, Stamp, changes_keep_sites_valid};
use std::alloc::Global;
use word_search::SearchKeeper;

/// How many sessions may be there at one time.
pub const MOST_SESSIONS: usize = 32;

/// How many posts may wait at one time.
pub const MOST_WAITING: usize = 16;

/// Sessions over one site. One call is one event of the world.
///
/// Where posts wait, the sessions whose posts do stand in the order in which they came to wait, and the site is a valid one.
///
/// A session that is sent a view of a document holds a pin of the site as it was asked, until the last byte is drawn or the session
/// leaves. No other pins of the site are out.
///
/// Whatever speaks of the site holds where what it is kept on is honest.
pub struct Hub<S: SearchKeeper> {
    alloc: Global,
    site: S,
    next: u64,
    grouped: bool,
    sessions: Vec<Session<S::Pin>>,
    ghost room: { 32 ≤ vec_capacity sessions },
    ghost few: { vec_len sessions ≤ 32 },
    ghost held: { HoldsAll (S.site_state site) (pins_of S.pinned sessions.items) } by { HoldsAll-prop (S.site_state site) (pins_of S.pinned sessions.items) },
    ghost sound: { IsTrue (S.site_state site).honest → AreSound S.pinned (S.site_state site) sessions.items } by { AreSound-prop S.pinned (S.site_state site) sessions.items },
    ghost valid: { IsValidWhereGrouped grouped (S.site_state site) } by { IsValidWhereGrouped-prop grouped (S.site_state site) },
    ghost alone: { grouped ≡ false → IsTrue (S.site_state site).honest → count_waiting (sessions_of S.pinned (S.site_state site) sessions.items) ≡ 0 },
}

/// The place of a session.
fn place_in<P>(sessions: &[Session<P>], id: u64) -> Option<usize>
    ensures place { result ≡ position (λ s. s.id == id) sessions.now }
    ensures within { IfSome result (λ at. at < length sessions.now) }
{
    sessions.iter().position(|session| session.id == id)
}

impl<S: SearchKeeper> Hub<S> {
    ghost use Rattle.group_world.specs.World.{started_as, phase_of};
    ghost use Rattle.host_types.specs.CrashStates.{AddsNone};
    ghost use Rattle.host_types.specs.Site.{IsSite};
    ghost use Rattle.group_world.specs.Run.{Step};
    ghost use Rattle.group_world.specs.Outcomes.{join_outcome, bytes_outcome, draw_outcome, leave_outcome, admin_outcome, flush_outcome};
    ghost use Rattle.group_world.specs.declared.event.Event.TheVariants.{Join, Bytes, End, Draw, Leave, Admin, Flush};
    ghost use Rattle.group_world.specs.declared.fault.HubFault.TheVariants.{Memory};
    ghost use Rattle.group_hub.specs.HeldPins.{HoldsForReplies, IsClosed};
    ghost use Rattle.group_hub.specs.SessionDraws.{OnlyReadsBreak};
    ghost use Rattle.group_hub.specs.Understood.{KeepsSite, FillsOut};
    ghost use Rattle.group_hub.specs.Hub.{keeper_of, sessions_in_hub, world_of, is_grouped as groups};
    ghost use Rattle.group_hub.specs.Hears.{is_grouped, is_full};
    ghost use Rattle.group_hub.specs.Calls.{CallsHub};

    /// A hub without sessions, whose first has this number. Posts wait in it to be made together, or are made at once; where they wait, the site is a valid one. It makes room for all sessions, or hands the site back with `Memory`.
    pub fn started(
        alloc: Global,
        grouped: bool,
        site: S,
        first: u64,
    ) -> Result<Hub<S>, (HubFault, S)>
        requires usable { (S.site_state site).usable ≡ true }
        requires unpinned { (S.site_state site).pins ≡ [] }
        requires valid { IsValidWhereGrouped grouped (S.site_state site) }
        ensures keeper { IfOk result (λ hub. keeper_of hub ≡ site) }
        ensures world { IfOk result (λ hub. world_of S.site_state hub ≡ started_as grouped (S.site_state site).site first) }
        ensures err { IfErr result (λ e. (e.0 ≡ Memory) × (e.1 ≡ site)) }
    {
        match Vec::with_capacity(alloc, MOST_SESSIONS) {
            Ok(sessions) => Ok(Hub {
                alloc,
                site,
                next: first,
                grouped,
                sessions,
            }),
            Err(_) => Err((HubFault::Memory, site)),
        }
    }

    /// The same where each post is made at once.
    pub fn new(alloc: Global, site: S, first: u64) -> Result<Hub<S>, (HubFault, S)>
        requires usable { (S.site_state site).usable ≡ true }
        requires unpinned { (S.site_state site).pins ≡ [] }
        ensures keeper { IfOk result (λ hub. keeper_of hub ≡ site) }
        ensures world { IfOk result (λ hub. world_of S.site_state hub ≡ started_as false (S.site_state site).site first) }
        ensures err { IfErr result (λ e. (e.0 ≡ Memory) × (e.1 ≡ site)) }
    {
        Hub::started(alloc, false, site, first)
    }

    /// The same of a valid site, where posts wait to be made together.
    pub fn grouped(alloc: Global, site: S, first: u64) -> Result<Hub<S>, (HubFault, S)>
        requires usable { (S.site_state site).usable ≡ true }
        requires unpinned { (S.site_state site).pins ≡ [] }
        requires valid { IsTrue (S.site_state site).honest → ∥ IsSite (S.site_state site).site ∥₁ }
        ensures keeper { IfOk result (λ hub. keeper_of hub ≡ site) }
        ensures world { IfOk result (λ hub. world_of S.site_state hub ≡ started_as true (S.site_state site).site first) }
        ensures err { IfErr result (λ e. (e.0 ≡ Memory) × (e.1 ≡ site)) }
    {
        Hub::started(alloc, true, site, first)
    }

    /// A new session's number. It takes no memory.
    pub fn join(&mut self) -> Result<u64, HubFault>
        ensures step { Step (world_of S.site_state self.old) Join (join_outcome result) (world_of S.site_state self.new) }
        ensures keeper { keeper_of self.new ≡ keeper_of self.old }
        ensures call { CallsHub self.old Join (join_outcome result) self.new }
    {
        if !self.site.is_usable() {
            return Err(HubFault::Failed);
        }
        if self.sessions.len() >= MOST_SESSIONS {
            return Err(HubFault::Crowded);
        }
        if self.next == u64::MAX {
            return Err(HubFault::Spent);
        }
        let id = self.next;
        let phase = new_phase(self.alloc);
        self.sessions.push(Session { id, phase }).unwrap();
        self.next += 1;
        Ok(id)
    }

    /// What becomes of a right post.
    fn posting(&self) -> Posting
        ensures grouped { is_grouped result ≡ groups self.now }
        ensures full { is_full result ≡ (groups self.now && nat_le 16 (count_waiting (sessions_in_hub self.now))) }
    {
        if !self.grouped {
            return Posting::AtOnce;
        }
        if waiting_in(&self.sessions) >= MOST_WAITING {
            return Posting::Crowded;
        }
        Posting::Waits
    }

    /// A piece of a session's input.
    pub fn bytes(&mut self, id: u64, piece: &[u8], now: Stamp) -> Result<InputStatus, HubFault>
        ensures { CallsHub self.old (Bytes id piece.now now) (bytes_outcome result) self.new }
    {
        if !self.site.is_usable() {
            return Err(HubFault::Failed);
        }
        let Some(at) = place_in(&self.sessions, id) else {
            return Err(HubFault::Unknown);
        };
        let posting = self.posting();
        let session = &mut self.sessions[at];
        let waited = session.phase.is_waiting();
        let heard = hear(
            self.alloc,
            &mut self.site,
            &mut session.phase,
            piece,
            now,
            posting,
        );
        let goes = comes_to_wait(&heard, waited);
        place(&mut self.sessions, at, goes);
        heard
    }

    /// The end of a session's input.
    pub fn end(&mut self, id: u64, now: Stamp) -> Result<InputStatus, HubFault>
        ensures { CallsHub self.old (End id now) (bytes_outcome result) self.new }
    {
        if !self.site.is_usable() {
            return Err(HubFault::Failed);
        }
        let Some(at) = place_in(&self.sessions, id) else {
            return Err(HubFault::Unknown);
        };
        let posting = self.posting();
        let session = &mut self.sessions[at];
        let waited = session.phase.is_waiting();
        let heard = hear_end(self.alloc, &mut self.site, &mut session.phase, now, posting);
        let goes = comes_to_wait(&heard, waited);
        place(&mut self.sessions, at, goes);
        heard
    }

    /// Puts the next bytes of a session's reply into the front of the buffer, as many as there are and fit. What stands behind them stays. It takes no memory.
    ///
    /// `Broken` where a read failed: nothing is lost, and the same draw again goes on where it was. The front of the buffer may have some of the next bytes then.
    pub fn draw(&mut self, id: u64, out: &mut [u8]) -> Result<Drawn, HubFault>
        ensures call { CallsHub self.old (Draw id (length out.old)) (draw_outcome result out.new) self.new }
        ensures reply { OnlyReadsBreak (phase_of (world_of S.site_state self.old) id) (S.site_state (keeper_of self.old)) (S.site_state (keeper_of self.new)) result }
        ensures keeper { KeepsSite (S.site_state (keeper_of self.old)) (S.site_state (keeper_of self.new)) }
        ensures out { FillsOut (S.site_state (keeper_of self.old)).honest (phase_of (world_of S.site_state self.old) id) out.old out.new result }
        ensures at_crash { IsTrue (S.site_state (keeper_of self.old)).honest → AddsNone (S.crash_states (keeper_of self.old)) (S.crash_states (keeper_of self.new)) }
    {
        if !self.site.is_usable() {
            return Err(HubFault::Failed);
        }
        let Some(at) = place_in(&self.sessions, id) else {
            return Err(HubFault::Unknown);
        };
        let session = &mut self.sessions[at];
        draw(&mut self.site, &mut session.phase, out)
    }

    /// The session is gone, and its pin given back. It takes no memory, and answers in a hub that has failed too.
    pub fn leave(&mut self, id: u64) -> Result<(), HubFault>
        ensures step { Step (world_of S.site_state self.old) (Leave id) (leave_outcome result) (world_of S.site_state self.new) }
        ensures call { CallsHub self.old (Leave id) (leave_outcome result) self.new }
        ensures at_crash { IsTrue (S.site_state (keeper_of self.old)).honest → AddsNone (S.crash_states (keeper_of self.old)) (S.crash_states (keeper_of self.new)) }
    {
        let Some(at) = place_in(&self.sessions, id) else {
            return Err(HubFault::Unknown);
        };
        let Session { id: _, phase } = self.sessions.remove(at);
        give_back(&mut self.site, phase);
        Ok(())
    }

    /// A change that the administrator asks for.
    pub fn admin(&mut self, change: Change, now: Stamp) -> Result<(), HubFault>
        ensures { CallsHub self.old (Admin change now) (admin_outcome result) self.new }
    {
        if !self.site.is_usable() {
            return Err(HubFault::Failed);
        }
        changes_keep_sites_valid();
        change.valid_names();
        let _ = now.seconds();
        match self.site.change(change, now) {
            Ok(()) => Ok(()),
            Err(fault) => Err(HubFault::of_site(fault)),
        }
    }

    /// The posts that wait are made, in the order in which they came to wait, and their sessions answered.
    ///
    /// Those that find no form any more are answered from the site as it stands. The others are made together; only where they may need more than is free, or too many levels, are they made one by one, and what is not made then still waits. Its
    /// contract doesn't say why one that is left could not be made. `Failed` behind some of these leaves those before as they are answered; every other fault leaves all as before.
    pub fn flush(&mut self) -> Result<Flushed, HubFault>
        ensures { CallsHub self.old Flush (flush_outcome result) self.new }
    {
        if !self.site.is_usable() {
            return Err(HubFault::Failed);
        }
        flush(self.alloc, &mut self.site, &mut self.sessions)
    }

    /// Whether no write or sync has failed. A hub that isn't usable answers `Failed` to all but `leave`.
    pub fn is_usable(&self) -> bool
        ensures { result ≡ (S.site_state (keeper_of self.now)).usable }
    {
        self.site.is_usable()
    }

    pub(crate) fn alloc(&self) -> Global {
        self.alloc
    }

    /// Which pins of the site are out: at most one for each session that has bytes left to draw, and none of those that have left.
    pub fn pins_are_held(&self)
        ensures { HoldsForReplies (S.site_state (keeper_of self.now)) (sessions_in_hub self.now) }
    {
        let _ = self.sessions.len();
    }

    /// Ends the hub with all its sessions, and hands its site back with no pin out. It takes no memory.
    pub fn close(self) -> S
        ensures closed { IsClosed S.site_state S.crash_states (keeper_of self) result }
        ensures none { sessions_in_hub self ≡ [] → result ≡ keeper_of self }
    {
        let Hub {
            alloc: _,
            site,
            next: _,
            grouped: _,
            sessions,
        } = self;
        end_all(site, sessions)
    }
}
