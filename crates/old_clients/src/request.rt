// A request of an old client, by chunks of what came and by parts of what is passed on.
ghost use Rattle.std.specs.Prelude.{◌≡◌, ◌≤◌, ◌<◌, ◌+◌, ◌⊎◌, ◌++◌, ℕ, List, true, false, [], length, take, drop};
ghost use Rattle.std.specs.List.{list_any};
ghost use Rattle.request_reader.specs.Lines.{longest_line};
ghost use Rattle.arrayvec.specs.ArrayVec.{array_vec_len};
ghost use Rattle.host_types.specs.Lines.{is_lf, without_cr};
ghost use Rattle.host_types.specs.SiteState.{IsUnchangedBehind};
ghost use Rattle.old_clients.specs.AdaptedRequest.{adapted_line, adapted_request, is_old, is_rewritten};
ghost use Rattle.old_clients.specs.Clients.{through_request, IsHeard};
ghost use Rattle.old_clients.specs.Streams.{Hearing, will_pass, will_rewrite, fresh_request, IsWaiting, Passes, Ends, Keeps};

use crate::line::{first_of, sign_of};
use crate::room::copy_to;
use arrayvec::ArrayVec;
use std::marker::Model;
use text_writer::Moved;

/// The greatest length of a request line in bytes, a CR counted and the LF not.
pub const LONGEST_LINE: usize = 1024;

/// A request on its way to the hub. The first line is held back until its LF has come, or until it is too long for a
/// request; then it, rewritten where an old client wrote it, and all behind it are passed on. It takes no memory.
#[derive(Drop)]
pub struct RequestAdapter {
    held: ArrayVec<u8, LONGEST_LINE>,
    /// How many of these bytes were given.
    given: usize,
    /// Whether the first line has not ended.
    hears: bool,
    rewritten: bool,
}

impl Model for RequestAdapter {
    ghost Value = { Hearing };

    ghost view = { λ a. record { hears = a.hears; held = drop a.given a.held.items; rewritten = a.rewritten } };

    ghost invariant = { λ a. ((a.given ≤ array_vec_len a.held) × (array_vec_len a.held ≤ longest_line))
        × (a.hears ≡ true → (a.given ≡ 0) × (list_any is_lf a.held.items ≡ false) × (a.rewritten ≡ false)) };
}

impl RequestAdapter {
    /// An adapter before the input's first byte.
    pub fn new() -> Self
        ensures fresh { result ≡ fresh_request }
        ensures request { (input : List ℕ) → will_pass result input ≡ adapted_request input }
        ensures rewritten { (input : List ℕ) → will_rewrite result input ≡ is_rewritten input }
    {
        RequestAdapter {
            held: ArrayVec::new(),
            given: 0,
            hears: true,
            rewritten: false,
        }
    }

    /// An adapter that passes on all that comes, as it comes.
    pub fn through() -> Self
        ensures { result ≡ through_request }
    {
        RequestAdapter {
            held: ArrayVec::new(),
            given: 0,
            hears: false,
            rewritten: false,
        }
    }

    /// Takes from the chunk, the next bytes of the input, and gives to `out` what is passed on. All of the chunk was taken and
    /// nothing is left to give but a line that has not ended, or `out` is full.
    pub fn next(&mut self, chunk: &[u8], out: &mut [u8]) -> Moved
        ensures taken { result.taken ≤ length chunk.now }
        ensures within { result.given ≤ length out.new }
        ensures passes { Passes will_pass self.old chunk.now result.taken (take result.given out.new) self.new }
        ensures rewrites { Keeps will_rewrite self.old chunk.now result.taken self.new }
        ensures waits { IsWaiting self.new }
        ensures ended { self.old.hears ≡ false → self.new.hears ≡ false }
        ensures behind { IsUnchangedBehind result.given out.old out.new }
        ensures progress { ((result.taken ≡ length chunk.now) × ((self.new.hears ≡ true) ⊎ (self.new.held ≡ []))) ⊎ (result.given ≡ length out.new) }
    {
        let heard = self.hear(chunk);
        let given = self.give(out);
        let passed = self.pass_on(&chunk[heard..], out, given);
        Moved {
            taken: heard + passed,
            given: given + passed,
        }
    }

    /// Gives to `out` what is held, once the input has ended, and says how many bytes it gave. Nothing is left, or `out` is full.
    pub fn finish(&mut self, out: &mut [u8]) -> usize
        ensures within { result ≤ length out.new }
        ensures given { Ends will_pass self.old (take result out.new) self.new }
        ensures rewrites { will_rewrite self.new [] ≡ will_rewrite self.old [] }
        ensures ended { self.new.hears ≡ false }
        ensures behind { IsUnchangedBehind result out.old out.new }
        ensures progress { (will_pass self.new [] ≡ []) ⊎ (result ≡ length out.new) }
    {
        self.end();
        self.give(out)
    }

    /// Passes on a piece of what a client sent, and holds back nothing of it but a line that has not ended; no bytes are the end. It says how many bytes it gave, for which there is room.
    pub fn pass(&mut self, piece: &[u8], out: &mut [u8]) -> usize
        requires room { longest_line + length piece.now < length out.old }
        ensures within { result ≤ length out.new }
        ensures heard { IsHeard self.old piece.now (take result out.new) self.new }
    {
        let _ = &self.held;
        if piece.is_empty() {
            self.finish(out)
        } else {
            self.next(piece, out).given
        }
    }

    /// Whether the first line has ended and was rewritten.
    pub fn is_rewritten(&self) -> bool
        ensures { result ≡ will_rewrite self.now [] }
    {
        !self.hears && self.rewritten
    }

    /// Takes of the chunk what the first line has there, while it has not ended; its LF is left to be passed on.
    fn hear(&mut self, chunk: &[u8]) -> usize
        ensures taken { result ≤ length chunk.now }
        ensures passes { Passes will_pass self.old chunk.now result [] self.new }
        ensures rewrites { Keeps will_rewrite self.old chunk.now result self.new }
        ensures waits { IsWaiting self.new }
        ensures ended { self.old.hears ≡ false → self.new.hears ≡ false }
        ensures all { (result ≡ length chunk.now) ⊎ (self.new.hears ≡ false) }
    {
        if !self.hears {
            return 0;
        }
        let end = first_of(b'\n', chunk);
        if end > LONGEST_LINE - self.held.len() {
            self.hears = false;
            return 0;
        }
        self.hold(&chunk[..end]);
        if end < chunk.len() {
            self.end_line();
        }
        end
    }

    /// Holds more bytes of the first line, for which there is room.
    fn hold(&mut self, bytes: &[u8])
        requires hears { self.old.hears ≡ true }
        requires room { length self.old.held + length bytes.now ≤ longest_line }
        requires line { list_any is_lf bytes.now ≡ false }
        ensures held { self.new.held ≡ self.old.held ++ bytes.now }
        ensures hears { self.new.hears ≡ true }
        ensures waits { IsWaiting self.new }
    {
        if self.held.try_extend_from_slice(bytes).is_err() {
            unreachable!();
        }
    }

    /// The LF of the first line has come.
    fn end_line(&mut self)
        requires { self.old.hears ≡ true }
        ensures line { self.new.held ≡ adapted_line self.old.held }
        ensures old { self.new.rewritten ≡ is_old (without_cr self.old.held) }
        ensures hears { self.new.hears ≡ false }
    {
        if let Some(at) = sign_of(self.held.as_slice()) {
            self.held.as_mut_slice()[at] = b'+';
            self.rewritten = true;
        }
        self.hears = false;
    }

    /// The input has ended, and so the first line stays as it is.
    fn end(&mut self)
        ensures passes { will_pass self.new [] ≡ will_pass self.old [] }
        ensures rewrites { will_rewrite self.new [] ≡ will_rewrite self.old [] }
        ensures hears { self.new.hears ≡ false }
    {
        self.hears = false;
    }

    /// Gives what is held of a line that has ended, as far as there is room, and says how much.
    fn give(&mut self, out: &mut [u8]) -> usize
        ensures within { result ≤ length out.new }
        ensures given { (rest : List ℕ) → take result out.new ++ will_pass self.new rest ≡ will_pass self.old rest }
        ensures rewrites { (rest : List ℕ) → will_rewrite self.new rest ≡ will_rewrite self.old rest }
        ensures waits { IsWaiting self.old → IsWaiting self.new }
        ensures hears { self.new.hears ≡ self.old.hears }
        ensures behind { IsUnchangedBehind result out.old out.new }
        ensures progress { (self.new.hears ≡ true) ⊎ (self.new.held ≡ []) ⊎ (result ≡ length out.new) }
    {
        if self.hears {
            return 0;
        }
        let left = &self.held.as_slice()[self.given..];
        let count = left.len().min(out.len());
        copy_to(&left[..count], out, 0);
        self.given += count;
        count
    }

    /// Gives the next bytes behind the first line as they are, as far as there is room, and says how many; none while others are held.
    fn pass_on(&self, rest: &[u8], out: &mut [u8], at: usize) -> usize
        requires { at ≤ length out.old }
        ensures taken { result ≤ length rest.now }
        ensures within { at + result ≤ length out.new }
        ensures given { (more : List ℕ) → take (at + result) out.new ++ will_pass self.now (drop result rest.now ++ more) ≡ take at out.old ++ will_pass self.now (rest.now ++ more) }
        ensures rewrites { Keeps will_rewrite self.now rest.now result self.now }
        ensures behind { IsUnchangedBehind (at + result) out.old out.new }
        ensures progress { (self.now.hears ≡ true) ⊎ (result ≡ length rest.now) ⊎ (at + result ≡ length out.new) ⊎ (self.now.held ≡ [] → ⊥) }
    {
        if self.hears || self.given < self.held.len() {
            return 0;
        }
        let count = rest.len().min(out.len() - at);
        copy_to(&rest[..count], out, at);
        count
    }
}
