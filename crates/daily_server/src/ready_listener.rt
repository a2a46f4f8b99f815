// The calls of the system for a listener, waits, and connections that are taken. `listen`, `wait` and `take` note each of their calls. That they make the call
// which they note, no clause can say: so each is short, and tests on real connections hold it.
ghost use Rattle.std.specs.Prelude.{◌≡◌, ◌++◌, [], ◌∷◌, ◌≤◌, Err, IfOk, IfErr, IsOk, OnOk};
ghost use Rattle.std.specs.IoError.{error_kind};
ghost use Rattle.daily_server.specs.ListenerCalls.{for_reading, listen_call};
ghost use Rattle.daily_server.specs.NetCauses.{cause_of};

use crate::Desk;
use crate::listen_fault::{ListenFault, NetCause};
use crate::listener_log::{ListenerCallKind, ListenerLog, Missed};
use crate::service::DailyFault;
use mio::net::{TcpListener, TcpStream};
use mio::{Events, Interest, Poll, Token};
use std::alloc::Global;
use std::io;
use std::net::{IpAddr, Net, SocketAddr};
use std::time::Duration;

/// The token of the listener.
pub(crate) const LISTENER: Token = Token(0);

/// The token of an office's listener.
pub(crate) const OFFICE_LISTENER: Token = Token(1);

/// The token of an office's connection.
pub(crate) const OFFICE_WIRE: Token = Token(2);

/// The first token of clients.
const FIRST: usize = 3;

/// A listener at an address, and the wait for whoever is ready, which tells of it in this interest.
fn listener_at<R: Net>(rt: &R, address: SocketAddr) -> io::Result<(Poll, TcpListener, Interest)>
    ensures { IfOk result (λ had. had.2 ≡ for_reading) }
{
    let poll = Poll::new(rt)?;
    let mut listener = TcpListener::bind(rt, address)?;
    let readable = Interest::READABLE;
    poll.registry().register(&mut listener, LISTENER, readable)?;
    Ok((poll, listener, readable))
}

/// Notes what came of a listener that was asked for at an address: it was had, or not, and why.
fn noted(
    answer: io::Result<(Poll, TcpListener, Interest)>,
    address: SocketAddr,
    events: &Events,
    asked: &mut ListenerLog,
) -> Result<(Poll, TcpListener), NetCause>
    requires watched { IfOk answer (λ had. had.2 ≡ for_reading) }
    ensures asked { asked.new.calls ≡ asked.old.calls ++ listen_call address result ∷ [] }
    ensures had { OnOk answer (IsOk result) }
    ensures cause { IfErr answer (λ error. result ≡ Err (cause_of (error_kind error))) }
{
    match answer {
        Ok((poll, listener, interest)) => {
            asked.note(ListenerCallKind::Listened(address, interest), events);
            Ok((poll, listener))
        }
        Err(error) => {
            let cause = NetCause::of(error.kind());
            asked.note(ListenerCallKind::NotListened(address, cause), events);
            Err(cause)
        }
    }
}

/// Asks for a listener at an address, and notes what came of it.
fn listen<R: Net>(
    rt: &R,
    address: SocketAddr,
    events: &Events,
    asked: &mut ListenerLog,
) -> Result<(Poll, TcpListener), NetCause>
    ensures { asked.new.calls ≡ asked.old.calls ++ listen_call address result ∷ [] }
{
    noted(listener_at(rt, address), address, events, asked)
}

/// The listener, the wait for whoever is ready, and the calls that were made of both.
#[derive(Drop)]
pub(crate) struct ReadyListener {
    poll: Poll,
    events: Events,
    socket: TcpListener,
    next_token: usize,
    made: ListenerLog,
    ghost named: { 3 ≤ next_token },
}

impl ReadyListener {
    ghost use Rattle.std.specs.Prelude.{◌≡◌, [], ◌∷◌, ◌++◌, option_map, IfOk, IfErr};
    ghost use Rattle.std.specs.Duration.{as_nanos};
    ghost use Rattle.mio.specs.Events.{items};
    ghost use Rattle.daily_server.specs.ListenerCalls.{both_ways, listen_calls, wait_call, take_call};
    ghost use Rattle.daily_server.specs.Listeners.{IsClients, HasSameListener};
    ghost use Rattle.daily_server.specs.declared.service.DailyFault.TheVariants as faults;

    /// Listens at an address, which is noted. No other call was made of it.
    pub(crate) fn open<R: Net>(
        alloc: Global,
        rt: &R,
        address: SocketAddr,
        most: usize,
        asked: &mut ListenerLog,
    ) -> Result<ReadyListener, ListenFault>
        ensures asked { asked.new.calls ≡ asked.old.calls ++ listen_calls address result }
        ensures made { IfOk result (λ listener. listener.made.calls ≡ []) }
    {
        let Ok(events) = Events::with_capacity(alloc, most) else {
            return Err(ListenFault::Memory);
        };
        let (poll, listener) = match listen(rt, address, &events, asked) {
            Ok(had) => had,
            Err(cause) => return Err(ListenFault::Net(cause)),
        };
        Ok(ReadyListener {
            poll,
            events,
            socket: listener,
            next_token: FIRST,
            made: ListenerLog::new(),
        })
    }

    /// Where an office has waits tell of its sockets.
    pub(crate) fn desk(&self) -> Desk<'_> {
        Desk::new(self.poll.registry())
    }

    /// The events of the last wait.
    pub(crate) fn events(&self) -> &Events
        ensures { result.now ≡ self.now.events }
    {
        &self.events
    }

    /// Waits until somebody is ready, as long as there is patience.
    pub(crate) fn wait(&mut self, patience: Option<Duration>) -> Result<(), DailyFault>
        ensures made { self.new.made.calls ≡ self.old.made.calls ++ wait_call (option_map as_nanos patience) result (items self.new.events) ∷ [] }
        ensures fault { IfErr result (λ fault. fault ≡ faults.Net) }
        ensures listener { HasSameListener self.old self.new }
    {
        if self.poll.poll(&mut self.events, patience).is_err() {
            self.made
                .note(ListenerCallKind::WaitFailed(patience), &self.events);
            return Err(DailyFault::Net);
        }
        self.made
            .note(ListenerCallKind::Waited(patience), &self.events);
        Ok(())
    }

    /// Has waits tell of a connection under the next token, and says in which interest they do.
    fn name(&mut self, stream: &mut TcpStream) -> io::Result<(Token, Interest)>
        ensures made { self.new.made ≡ self.old.made }
        ensures token { IfOk result (λ named. (named.0).0 ≡ self.old.next_token) }
        ensures interest { IfOk result (λ named. named.1 ≡ both_ways) }
    {
        stream.set_nodelay(true)?;
        let token = Token(self.next_token);
        self.next_token = self.next_token.wrapping_add(1).max(FIRST);
        let both = Interest::READABLE | Interest::WRITABLE;
        self.poll.registry().register(stream, token, both)?;
        Ok((token, both))
    }

    /// Asks for the next connection, and notes who came: with its client's address and its token.
    pub(crate) fn take(&mut self) -> Result<(TcpStream, IpAddr, Token), Missed>
        ensures made { self.new.made.calls ≡ self.old.made.calls ++ take_call result ∷ [] }
        ensures token { IfOk result (λ next. IsClients next.2) }
    {
        match self.socket.accept() {
            Ok((mut stream, address)) => {
                let from = address.ip();
                match self.name(&mut stream) {
                    Ok((token, interest)) => {
                        self.made.note(ListenerCallKind::Came(from, token, interest), &self.events);
                        Ok((stream, from, token))
                    }
                    Err(_) => {
                        self.made
                            .note(ListenerCallKind::NotHad(Missed::Unwatched), &self.events);
                        Err(Missed::Unwatched)
                    }
                }
            }
            Err(error) => {
                let missed = Missed::Refused(error.kind());
                self.made
                    .note(ListenerCallKind::NotHad(missed), &self.events);
                Err(missed)
            }
        }
    }
}
