// A reply to an old client, by chunks of the reply and by parts of what is sent.
ghost use Rattle.std.specs.Prelude.{◌≡◌, ◌≤◌, ◌<◌, ◌+◌, ◌*◌, ◌⊎◌, ◌++◌, ◌∷◌, ℕ, List, [], length, take, drop};
ghost use Rattle.arrayvec.specs.ArrayVec.{array_vec_len};
ghost use Rattle.host_types.specs.SiteState.{IsUnchangedBehind};
ghost use Rattle.old_clients.specs.AdaptedReply.{adapted_reply};
ghost use Rattle.old_clients.specs.Place.{closing};
ghost use Rattle.old_clients.specs.declared.place.Place.TheVariants.{Behind};
ghost use Rattle.old_clients.specs.Clients.{is_through};
ghost use Rattle.old_clients.specs.Streams.{Informing, will_give, fresh_reply, Passes, Ends};

use crate::place::{Place, Ready, after, closing, emitted, run_length};
use crate::room::copy_to;
use std::marker::Model;
use text_writer::Moved;

/// A reply on its way to an old client: of one to a rewritten request, the lines behind the head line have `+INFO: ` in front. It takes no memory.
#[derive(Drop)]
pub struct ReplyAdapter {
    ready: Ready,
    place: Place,
}

impl Model for ReplyAdapter {
    ghost Value = { Informing };

    ghost view = { λ a. record { ready = a.ready.items; place = a.place } };

    // there is room for what the end of the reply gives
    ghost invariant = { λ a. array_vec_len a.ready + length (closing a.place) ≤ 20 };
}

impl ReplyAdapter {
    /// An adapter before the reply's first byte, told whether the request was rewritten.
    pub fn new(rewritten: bool) -> Self
        ensures fresh { result ≡ fresh_reply rewritten }
        ensures reply { (reply : List ℕ) → will_give result reply ≡ adapted_reply rewritten reply }
    {
        ReplyAdapter {
            ready: Ready::new(),
            place: if rewritten {
                Place::Head(0)
            } else {
                Place::Behind
            },
        }
    }

    /// Whether all that comes is sent as it comes.
    pub fn is_through(&self) -> bool
        ensures { result ≡ is_through self.now }
    {
        self.place == Place::Behind && self.ready.is_empty()
    }

    /// Takes from the chunk, the next bytes of the reply, and gives to `out` what is sent. All of the chunk was taken and
    /// nothing is ready, or `out` is full.
    pub fn next(&mut self, chunk: &[u8], out: &mut [u8]) -> Moved
        ensures taken { result.taken ≤ length chunk.now }
        ensures within { result.given ≤ length out.new }
        ensures given { Passes will_give self.old chunk.now result.taken (take result.given out.new) self.new }
        ensures behind { IsUnchangedBehind result.given out.old out.new }
        ensures progress { ((result.taken ≡ length chunk.now) × (self.new.ready ≡ [])) ⊎ (result.given ≡ length out.new) }
    {
        let mut given = self.give(out, 0);
        let mut taken = 0;
        while taken < chunk.len() && self.ready.is_empty() {
            self.take_byte(chunk[taken]);
            taken += 1;
            given = self.give(out, given);
            let run = self.pass_run(&chunk[taken..], out, given);
            taken += run;
            given += run;
        }
        Moved { taken, given }
    }

    /// Gives to `out` what is left, once the reply has ended, and says how many bytes it gave. Nothing is left, or `out` is full.
    pub fn finish(&mut self, out: &mut [u8]) -> usize
        ensures within { result ≤ length out.new }
        ensures given { Ends will_give self.old (take result out.new) self.new }
        ensures behind { IsUnchangedBehind result out.old out.new }
        ensures progress { (will_give self.new [] ≡ []) ⊎ (result ≡ length out.new) }
    {
        self.end();
        self.give(out, 0)
    }

    /// Gives what is sent of bytes that were drawn of the reply, and says how many bytes that are, for which there is room.
    pub fn pass(&mut self, drawn: &[u8], out: &mut [u8]) -> usize
        requires room { 40 + 8 * length drawn.now < length out.old }
        ensures within { result ≤ length out.new }
        ensures given { (rest : List ℕ) → take result out.new ++ will_give self.new rest ≡ will_give self.old (drawn.now ++ rest) }
    {
        let _ = &self.ready;
        self.next(drawn, out).given
    }

    /// Gives what is left, once the reply has ended, and says how many bytes that are, for which there is room.
    pub fn pass_end(&mut self, out: &mut [u8]) -> usize
        requires room { 40 < length out.old }
        ensures within { result ≤ length out.new }
        ensures given { take result out.new ≡ will_give self.old [] }
    {
        let _ = &self.ready;
        self.finish(out)
    }

    /// Takes a byte of the reply, once nothing is ready.
    fn take_byte(&mut self, byte: u8)
        requires { self.old.ready ≡ [] }
        ensures { (rest : List ℕ) → will_give self.new rest ≡ will_give self.old (byte ∷ rest) }
    {
        self.ready = emitted(self.place, byte);
        self.place = after(self.place, byte);
    }

    /// Takes the end of the reply.
    fn end(&mut self)
        ensures place { self.new.place ≡ Behind }
        ensures ready { self.new.ready ≡ will_give self.old [] }
    {
        let last = closing(self.place);
        if self.ready.try_extend_from_slice(last.as_slice()).is_err() {
            unreachable!();
        }
        self.place = Place::Behind;
    }

    /// Moves bytes that are ready to the places from `at` on, as many as there are of both, and says how far.
    fn give(&mut self, out: &mut [u8], at: usize) -> usize
        requires { at ≤ length out.old }
        ensures onward { at ≤ result }
        ensures within { result ≤ length out.new }
        ensures given { take result out.new ++ self.new.ready ≡ take at out.old ++ self.old.ready }
        ensures place { self.new.place ≡ self.old.place }
        ensures behind { IsUnchangedBehind result out.old out.new }
        ensures progress { (self.new.ready ≡ []) ⊎ (result ≡ length out.new) }
    {
        let mut end = at;
        while end < out.len() && !self.ready.is_empty() {
            out[end] = self.ready.remove(0);
            end += 1;
        }
        end
    }

    /// Gives the next bytes that are sent as they are, as far as there is room, and says how many; none while others are ready.
    fn pass_run(&self, rest: &[u8], out: &mut [u8], at: usize) -> usize
        requires { at ≤ length out.old }
        ensures taken { result ≤ length rest.now }
        ensures within { at + result ≤ length out.new }
        ensures given { (more : List ℕ) → take (at + result) out.new ++ will_give self.now (drop result rest.now ++ more) ≡ take at out.old ++ will_give self.now (rest.now ++ more) }
        ensures behind { IsUnchangedBehind (at + result) out.old out.new }
    {
        if !self.ready.is_empty() {
            return 0;
        }
        let next = &rest[..rest.len().min(out.len() - at)];
        let run = run_length(self.place, next);
        copy_to(&next[..run], out, at);
        run
    }
}
