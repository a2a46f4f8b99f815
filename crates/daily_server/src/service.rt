// The listener, and the clients that are in.
ghost use Rattle.std.specs.Prelude.{◌≡◌, ◌≤◌, ◌+◌, vec_len, vec_capacity};

use crate::buffers::{make_buffers, sweep_gone};
use crate::daily_client::DailyClient;
use crate::listen_fault::ListenFault;
use crate::listener_log::ListenerLog;
use crate::posts::RecentPosts;
use crate::ready_listener::{LISTENER, ReadyListener};
use crate::waking::{all_wait, at_most_a_tick, is_called, names_office, wake_called, was_in_vain};
use crate::{Desk, Pace};
use daily_turns::Unsent;
use mio::Token;
use mio::net::TcpStream;
use std::alloc::Global;
use std::net::{IpAddr, Net, SocketAddr};
use std::time::Duration;
use thiserror::Error;

/// How many clients are in at a time, at most.
pub const MOST_CLIENTS: usize = 32;

/// How many sockets waits tell of, at most: of the listener, of an office's two, and of each client's.
const MOST_SOCKETS: usize = MOST_CLIENTS + 3;

/// How many seconds a wait lasts while somebody is in or may ask to come in, at most.
pub(crate) const TICK: u64 = 1;

/// Why serving ends.
#[derive(Clone, Copy, Debug, PartialEq, Eq, Error)]
pub enum DailyFault {
    /// No socket could be waited for.
    #[error("net")]
    Net,
    /// A write or a sync of what the site is kept on has failed.
    #[error("failed")]
    Failed,
    #[error("memory")]
    Memory,
}

/// The listener, whether somebody may ask to come in, the clients that are in, buffers for those who may come yet, and the posts that came of late.
#[derive(Drop)]
pub struct Service {
    listener: ReadyListener,
    may_accept: bool,
    /// Since the last wait one was lost who asked to come in.
    lost: bool,
    pub(crate) clients: Vec<DailyClient>,
    pub(crate) free: Vec<Unsent>,
    pub(crate) posts: RecentPosts,
    ghost each: { vec_len clients + vec_len free ≡ 32 },
    ghost space: { 32 ≤ vec_capacity clients },
    ghost free_space: { 32 ≤ vec_capacity free },
}

impl Service {
    ghost use Rattle.std.specs.Prelude.{◌⊎◌, ◌++◌, ◌<◌, true, false, not, List, [], filter, map, option_map, IfOk, IfErr, IfSome, OnErr};
    ghost use Rattle.std.specs.List.{list_any};
    ghost use Rattle.std.specs.Duration.{as_nanos};
    ghost use Rattle.mio.specs.Events.{items};
    ghost use Rattle.daily_server.specs.ListenerCalls.{ListenerCall, listen_calls};
    ghost use Rattle.daily_server.specs.Offices.{calls_office};
    ghost use Rattle.daily_server.specs.DailyClients.{has_gone, woken, own_patience, patience, asks, HasAsked, HasTaken, IsFreshService, HasWoken, HasWaited, HasNotWaited};
    ghost use Rattle.daily_server.specs.declared.service.DailyFault.TheVariants as faults;

    /// Listens at an address, with nobody in. Whether a listener was had there is noted, or why not.
    pub fn open<R: Net>(
        alloc: Global,
        rt: &R,
        address: SocketAddr,
        asked: &mut ListenerLog,
    ) -> Result<Service, ListenFault>
        ensures asked { asked.new.calls ≡ asked.old.calls ++ listen_calls address result }
        ensures fresh { IfOk result (λ service. IsFreshService service) }
    {
        let clients = Vec::with_capacity(alloc, MOST_CLIENTS);
        let (Ok(clients), Ok(free)) = (clients, make_buffers(alloc)) else {
            return Err(ListenFault::Memory);
        };
        let listener = ReadyListener::open(alloc, rt, address, MOST_SOCKETS, asked)?;
        Ok(Service {
            listener,
            may_accept: true,
            lost: false,
            clients,
            free,
            posts: RecentPosts::new(),
        })
    }

    /// Whether the next client is asked for.
    fn asks(&self) -> bool
        ensures { result ≡ asks self.now }
    {
        self.may_accept && self.clients.len() < MOST_CLIENTS
    }

    /// Where an office has waits tell of its sockets.
    pub(crate) fn desk(&self) -> Desk<'_> {
        self.listener.desk()
    }

    /// How long the next wait may be: none where somebody has a turn or the next client may come in, and without end where nobody is in or may ask to come in.
    fn own_patience(&self) -> Option<Duration>
        ensures { option_map as_nanos result ≡ own_patience self.now }
    {
        if !all_wait(&self.clients) || (self.asks() && !self.lost) {
            Some(Duration::ZERO)
        } else if self.clients.is_empty() && !self.may_accept {
            None
        } else {
            Some(Duration::from_secs(TICK))
        }
    }

    /// How long the next wait may be, where an office lets it be so long.
    fn patience(&self, pace: Pace) -> Option<Duration>
        ensures { option_map as_nanos result ≡ patience pace self.now }
    {
        match pace {
            Pace::Idle => self.own_patience(),
            Pace::Waits => at_most_a_tick(self.own_patience()),
            Pace::Busy => Some(Duration::ZERO),
        }
    }

    /// Who is ready has a turn again.
    fn wake(&mut self)
        ensures woken { HasWoken false (items self.old.listener.events) self.old self.new }
        ensures listener { self.new.listener ≡ self.old.listener }
        ensures lost { self.new.lost ≡ self.old.lost }
        ensures posts { self.new.posts ≡ self.old.posts }
    {
        self.may_accept |= is_called(self.listener.events(), LISTENER);
        wake_called(&mut self.clients, self.listener.events());
    }

    /// All have a turn again.
    fn wake_all(&mut self)
        ensures clients { self.new.clients.items ≡ map woken self.old.clients.items }
        ensures may_accept { self.new.may_accept ≡ true }
        ensures listener { self.new.listener ≡ self.old.listener }
        ensures lost { self.new.lost ≡ self.old.lost }
        ensures posts { self.new.posts ≡ self.old.posts }
    {
        self.may_accept = true;
        for client in self.clients.iter_mut() {
            client.wake();
        }
    }

    /// Waits until somebody is ready, or a second has passed; not at all while an office is busy. It answers whether the office is called.
    pub(crate) fn wait(&mut self, pace: Pace) -> Result<bool, DailyFault>
        ensures woken { IfOk result (λ _. HasWaited pace (items self.new.listener.events) self.old self.new) }
        ensures called { IfOk result (λ called. called ≡ calls_office (patience pace self.old) (items self.new.listener.events)) }
        ensures not_waited { OnErr result (HasNotWaited pace self.old self.new) }
        ensures fault { IfErr result (λ fault. fault ≡ faults.Net) }
    {
        let patience = self.patience(pace);
        self.listener.wait(patience)?;
        self.lost = false;
        if was_in_vain(self.listener.events(), patience) {
            self.wake_all();
            return Ok(true);
        }
        self.wake();
        Ok(names_office(self.listener.events()))
    }

    /// The next connection, where there is space for it. Where none comes, none is asked for until the listener is ready; where one can't be had, the next is asked for
    /// after the next wait.
    pub(crate) fn next(&mut self) -> Option<(TcpStream, IpAddr, Token)>
        ensures clients { self.new.clients ≡ self.old.clients }
        ensures posts { self.new.posts ≡ self.old.posts }
        ensures came { IfSome result (λ next. HasTaken self.old self.new next.2) }
        ensures shut { (self.new.may_accept ≡ self.old.may_accept) ⊎ (self.new.may_accept ≡ false) }
        ensures asked { (made : List ListenerCall) × (self.new.listener.made.calls ≡ self.old.listener.made.calls ++ made) × HasAsked (asks self.old) self.new.may_accept self.new.lost result made }
        ensures unasked { asks self.old ≡ false → self.new ≡ self.old }
    {
        if !self.asks() {
            return None;
        }
        match self.listener.take() {
            Ok(next) => Some(next),
            Err(missed) => {
                self.may_accept = !missed.is_nobody();
                self.lost = self.may_accept;
                None
            }
        }
    }

    /// Whether somebody has gone.
    pub(crate) fn has_closed(&self) -> bool
        ensures { result ≡ list_any has_gone self.now.clients.items }
    {
        self.clients.iter().any(|client| client.is_closed())
    }

    /// Those that have gone are in no more, and leave their buffers to the next.
    pub(crate) fn sweep(&mut self)
        ensures clients { self.new.clients.items ≡ filter (λ client. not (has_gone client)) self.old.clients.items }
        ensures listener { self.new.listener ≡ self.old.listener }
        ensures may_accept { self.new.may_accept ≡ self.old.may_accept }
        ensures lost { self.new.lost ≡ self.old.lost }
        ensures posts { self.new.posts ≡ self.old.posts }
    {
        sweep_gone(&mut self.clients, &mut self.free);
    }
}
