// Both ways of a client.
ghost use Rattle.std.specs.Prelude.{◌≡◌, ◌≤◌, ◌<◌, ◌+◌, ◌*◌, true, false, [], length, take};
ghost use Rattle.request_reader.specs.Lines.{longest_line};
ghost use Rattle.old_clients.specs.Clients.{Adapting, fresh_client, is_through, HasHeard, HasAnswered, HasClosed};

use crate::reply::ReplyAdapter;
use crate::request::{LONGEST_LINE, RequestAdapter};
use std::marker::Model;

/// How many bytes of a reply are adapted at once, at most.
pub const SHARE: usize = 500;

/// Room for what is passed on of a piece of 512 bytes that a client sent, behind a line that was held back.
pub const PASSED: usize = LONGEST_LINE + 513;

/// Both ways of a client: what it sends on its way to the hub, and its reply on its way back. It takes no memory.
#[derive(Drop)]
pub struct ClientAdapter {
    asks: RequestAdapter,
    answers: ReplyAdapter,
}

impl Model for ClientAdapter {
    ghost Value = { Adapting };

    ghost view = { λ a. record { asks = a.asks; answers = a.answers } };
}

impl ClientAdapter {
    /// Nothing came of the client yet. Of one that isn't an old client all is passed on as it comes.
    pub fn new(old_client: bool) -> Self
        ensures { result ≡ fresh_client old_client }
    {
        ClientAdapter {
            asks: if old_client {
                RequestAdapter::new()
            } else {
                RequestAdapter::through()
            },
            answers: ReplyAdapter::new(false),
        }
    }

    /// Gives to `out` what is passed on of a piece that the client sent, and says how many bytes that are. No bytes are the
    /// end. Nothing of it is held back but a line that has not ended.
    pub fn hear(&mut self, piece: &[u8], out: &mut [u8]) -> usize
        requires room { longest_line + length piece.now < length out.old }
        ensures within { result ≤ length out.new }
        ensures heard { HasHeard self.old piece.now (take result out.new) self.new }
    {
        let passed = self.asks.pass(piece, out);
        self.answers = ReplyAdapter::new(self.asks.is_rewritten());
        passed
    }

    /// Whether all that is drawn of the reply is sent as it comes.
    pub fn is_through(&self) -> bool
        ensures { result ≡ is_through self.now.answers }
    {
        self.answers.is_through()
    }

    /// Gives to `out` what is sent of bytes that were drawn of the reply, and says how many bytes that are.
    pub fn answer(&mut self, drawn: &[u8], out: &mut [u8]) -> usize
        requires room { 40 + 8 * length drawn.now < length out.old }
        requires adapts { is_through self.old.answers ≡ false }
        ensures within { result ≤ length out.new }
        ensures answered { HasAnswered self.old drawn.now (take result out.new) self.new }
    {
        self.answers.pass(drawn, out)
    }

    /// Gives to `out` what is left to be sent, once the reply has ended, and says how many bytes that are.
    pub fn close(&mut self, out: &mut [u8]) -> usize
        requires room { 40 < length out.old }
        requires adapts { is_through self.old.answers ≡ false }
        ensures within { result ≤ length out.new }
        ensures closed { HasClosed self.old (take result out.new) self.new }
    {
        self.answers.pass_end(out)
    }
}
