// A client that came, and what the log will say of it.
ghost use Rattle.std.specs.Prelude.{◌≡◌, IfOk, if◌then◌else◌};
ghost use Rattle.daily_server.specs.Logged.{line_of};
ghost use Rattle.daily_server.specs.Rounds.{who};
ghost use Rattle.daily_server.specs.DailyClients.{has_gone, has_turn, is_late, woken};

use crate::limits::{is_over, longest_stay};
use crate::lines::{LogRecord, address_text, log_line};
use crate::{LogForm, ReadySocket};
use daily_turns::{Ending, ReadyConnection};
use host_types::Stamp;
use mio::Token;
use std::alloc::{AllocError, Global};
use std::net::IpAddr;

/// A client that came, at seconds of a clock that only goes forward.
#[derive(Drop)]
pub struct DailyClient {
    pub(crate) connection: ReadyConnection<ReadySocket>,
    pub(crate) from: IpAddr,
    pub(crate) token: Token,
    /// When it came.
    pub(crate) came: u64,
    /// When it last sent or took something.
    pub(crate) moved: u64,
}

impl DailyClient {
    /// Whether its time is over.
    pub(crate) fn is_over(&self, now: u64) -> bool
        ensures { result ≡ is_late now self.now }
    {
        let longest = longest_stay(self.connection.stage(), self.connection.wire().has_line());
        is_over(longest, self.came, self.moved, now)
    }

    /// It sent or took something, where it doesn't rest.
    pub(crate) fn note_move(&mut self, now: u64)
        ensures connection { self.new.connection ≡ self.old.connection }
        ensures moved { self.new.moved ≡ (if self.old.connection.waits then self.old.moved else now) }
        ensures who { who self.new ≡ who self.old }
    {
        if !self.connection.waits() {
            self.moved = now;
        }
    }

    /// It has its turn again.
    pub(crate) fn wake(&mut self)
        ensures { self.new ≡ woken self.old }
    {
        self.connection.wake();
    }

    /// Whether its wire is closed.
    pub(crate) fn is_closed(&self) -> bool
        ensures { result ≡ has_gone self.now }
    {
        self.connection.stage().ending().is_some()
    }

    /// Whether it would do something in its turn.
    pub(crate) fn has_turn(&self) -> bool
        ensures { result ≡ has_turn self.now }
    {
        !self.connection.waits() && self.connection.stage().acts()
    }

    /// The line of the log, without its LF.
    pub(crate) fn line(
        &self,
        alloc: Global,
        form: LogForm,
        moment: Stamp,
        ending: Ending,
    ) -> Result<Vec<u8>, AllocError>
        ensures { IfOk result (λ text. text.items ≡ line_of form moment self.now ending) }
    {
        let from = address_text(alloc, self.from)?;
        let socket = self.connection.wire();
        log_line(
            alloc,
            form,
            &LogRecord {
                moment,
                from: &from,
                selector: socket.selector(),
                ending,
                taken: socket.taken(),
                stored: socket.stored(),
            },
        )
    }
}
