// A body as text, by chunks of the body and by parts of the text.
ghost use Rattle.std.specs.Prelude.{◌≡◌, ◌≤◌, ◌+◌, ◌++◌, ◌∷◌, ◌⊎◌, ◌↔◌, ℕ, List, [], None, IsTrue, IfSome, length, take, drop};
ghost use Rattle.arrayvec.specs.ArrayVec.{array_vec_len};
ghost use Rattle.host_types.specs.SiteState.{IsUnchangedBehind};
ghost use Rattle.text_writer.specs.Pipe.{Piped, will_give, fresh, PassesText, EndsText};
ghost use Rattle.text_writer.specs.Text.{text};

use crate::passing::{copy_to, give_lines};
use crate::place::{BODY_START, LinePlace, ReadyText, after, closing, emitted};
use std::marker::Model;

/// How many bytes of the chunk were taken, and how many bytes of the text were given.
#[derive(Clone, Copy, Debug, PartialEq, Eq)]
pub struct Moved {
    pub taken: usize,
    pub given: usize,
}

/// A body as text, by chunks of the body and by parts of the text. It takes no memory.
#[derive(Drop)]
pub struct TextPipe {
    ready: ReadyText,
    /// None once the body has ended.
    place: Option<LinePlace>,
}

impl Model for TextPipe {
    ghost Value = { Piped };

    ghost view = { λ p. record { ready = p.ready.items; place = p.place } };

    // there is room for what the end of the body gives
    ghost invariant = { λ p. IfSome p.place (λ _. array_vec_len p.ready ≤ 2) };
}

impl TextPipe {
    /// A pipe before its body's first byte.
    #[tactic(auto, using(crate::proofs::Joins::given_text))]
    pub fn new() -> Self
        ensures fresh { result ≡ fresh }
        ensures text { (body : List ℕ) → will_give result body ≡ text body }
    {
        TextPipe {
            ready: ReadyText::new(),
            place: Some(BODY_START),
        }
    }

    /// Takes from the chunk, the next bytes of the body, and gives to `out` what can be given. All of the chunk was taken and
    /// nothing is ready, or `out` is full. What it takes after `finish` gives nothing.
    pub fn next(&mut self, chunk: &[u8], out: &mut [u8]) -> Moved
        ensures taken { result.taken ≤ length chunk.now }
        ensures within { result.given ≤ length out.new }
        ensures given { PassesText self.old chunk.now result.taken (take result.given out.new) self.new }
        ensures behind { IsUnchangedBehind result.given out.old out.new }
        ensures progress { ((result.taken ≡ length chunk.now) × (self.new.ready ≡ [])) ⊎ (result.given ≡ length out.new) }
    {
        let mut given = self.give(out, 0);
        let lines = self.pass_lines(chunk, out, given);
        given += lines.given;
        let mut taken = lines.taken;
        while taken < chunk.len() && self.ready.is_empty() {
            self.take_byte(chunk[taken]);
            taken += 1;
            given = self.give(out, given);
        }
        Moved { taken, given }
    }

    /// Gives to `out` what is left, once the body has ended, and says how many bytes it gave. Nothing is left, or `out` is full.
    pub fn finish(&mut self, out: &mut [u8]) -> usize
        ensures within { result ≤ length out.new }
        ensures given { EndsText self.old (take result out.new) self.new }
        ensures behind { IsUnchangedBehind result out.old out.new }
        ensures progress { (will_give self.new [] ≡ []) ⊎ (result ≡ length out.new) }
    {
        self.end();
        self.give(out, 0)
    }

    /// Whether nothing is left: `finish` was called and all was given.
    #[tactic(auto, using(crate::proofs::Pipes::some_is_left))]
    pub fn is_finished(&self) -> bool
        ensures { IsTrue result ↔ (will_give self.now [] ≡ []) }
    {
        self.place.is_none() && self.ready.is_empty()
    }

    /// An equal pipe.
    pub fn copied(&self) -> Self
        ensures { result ≡ self.now }
    {
        let mut ready = ReadyText::new();
        if ready.try_extend_from_slice(self.ready.as_slice()).is_err() {
            unreachable!();
        }
        TextPipe {
            ready,
            place: self.place,
        }
    }

    /// Takes a byte of the body, once nothing is ready.
    fn take_byte(&mut self, byte: u8)
        requires { self.old.ready ≡ [] }
        ensures { (rest : List ℕ) → will_give self.new rest ≡ will_give self.old (byte ∷ rest) }
    {
        if let Some(place) = self.place {
            self.ready = emitted(place, byte);
            self.place = Some(after(place, byte));
        }
    }

    /// Takes the end of the body.
    fn end(&mut self)
        ensures place { self.new.place ≡ None }
        ensures ready { self.new.ready ≡ will_give self.old [] }
    {
        if let Some(place) = self.place {
            let last = closing(place);
            if self.ready.try_extend_from_slice(last.as_slice()).is_err() {
                unreachable!();
            }
            self.place = None;
        }
    }

    /// Moves bytes that are ready to the places from `at` on, as many as there are of both, and says how far.
    fn give(&mut self, out: &mut [u8], at: usize) -> usize
        requires { at ≤ length out.old }
        ensures onward { at ≤ result }
        ensures within { result ≤ length out.new }
        ensures given { take result out.new ++ self.new.ready ≡ take at out.old ++ self.old.ready }
        ensures place { self.new.place ≡ self.old.place }
        ensures behind { IsUnchangedBehind result out.old out.new }
        ensures progress { (self.new.ready ≡ []) ⊎ (result ≡ length out.new) }
    {
        if self.ready.len() <= out.len() - at {
            let count = self.ready.len();
            copy_to(self.ready.as_slice(), out, at);
            self.ready.clear();
            return at + count;
        }
        let mut end = at;
        while end < out.len() && !self.ready.is_empty() {
            out[end] = self.ready.remove(0);
            end += 1;
        }
        end
    }

    /// Gives what the bytes give, from the place `at` on, as long as there is room for what each of them may give; none while others are ready.
    fn pass_lines(&mut self, chunk: &[u8], out: &mut [u8], at: usize) -> Moved
        requires { at ≤ length out.old }
        ensures taken { result.taken ≤ length chunk.now }
        ensures within { at + result.given ≤ length out.new }
        ensures given { (more : List ℕ) → take (at + result.given) out.new ++ will_give self.new (drop result.taken chunk.now ++ more) ≡ take at out.old ++ will_give self.old (chunk.now ++ more) }
        ensures ready { self.new.ready ≡ self.old.ready }
        ensures behind { IsUnchangedBehind (at + result.given) out.old out.new }
    {
        let Some(place) = self.place else {
            return Moved { taken: 0, given: 0 };
        };
        if !self.ready.is_empty() {
            return Moved { taken: 0, given: 0 };
        }
        let passed = give_lines(place, chunk, out, at);
        self.place = Some(passed.place);
        Moved {
            taken: passed.taken,
            given: passed.end - at,
        }
    }
}
