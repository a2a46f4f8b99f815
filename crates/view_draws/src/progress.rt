// How far a reply is drawn.
ghost use Rattle.std.specs.Prelude.{◌≡◌, ◌<◌, ◌≤◌, ◌+◌, ◌^◌, ◌++◌, ◌⊎◌, ◌↔◌, ℕ, List, [], IsTrue, length, take, drop};
ghost use Rattle.host_types.specs.SiteState.{IsUnchangedBehind};

use crate::steps::{finish_text, pass_bytes, pass_text};
use text_writer::TextPipe;

/// How far a reply is drawn.
#[derive(Drop)]
pub struct DrawProgress {
    /// How many bytes of the head were given.
    pub head_drawn: usize,
    /// How many bytes of the view were taken.
    pub taken: usize,
    /// What makes a text of them. None where the bytes are sent as they are.
    pub pipe: Option<TextPipe>,
}

impl DrawProgress {
    ghost use Rattle.text_writer.specs.Text.{sent_as};
    ghost use Rattle.view_draws.specs.Progress.{body_left, left_of, FillsUpTo, IsNextOf};

    /// Before the first byte.
    pub fn new(is_text: bool) -> Self
        ensures start { (result.head_drawn ≡ 0) × (result.taken ≡ 0) }
        ensures left { (head body : List ℕ) → left_of head result body ≡ head ++ sent_as is_text body }
    {
        DrawProgress {
            head_drawn: 0,
            taken: 0,
            pipe: if is_text { Some(TextPipe::new()) } else { None },
        }
    }

    /// The same.
    pub fn copied(&self) -> Self
        ensures { result ≡ self.now }
    {
        DrawProgress {
            head_drawn: self.head_drawn,
            taken: self.taken,
            pipe: match &self.pipe {
                Some(pipe) => Some(pipe.copied()),
                None => None,
            },
        }
    }

    /// Whether nothing is left of a view of so many bytes.
    pub fn is_body_finished(&self, size: usize) -> bool
        ensures { (body : List ℕ) → length body ≡ size → IsTrue result ↔ (body_left self.now body ≡ []) }
    {
        match &self.pipe {
            Some(pipe) => pipe.is_finished(),
            None => self.taken >= size,
        }
    }

    /// Gives the next bytes of the head, and says how many.
    pub fn give_head(&mut self, head: &[u8], out: &mut [u8]) -> usize
        requires { self.old.head_drawn ≤ length head.now }
        ensures within { result ≤ length out.new }
        ensures within_head { self.new.head_drawn ≤ length head.now }
        ensures drawn { self.new ≡ record self.old { head_drawn = self.old.head_drawn + result } }
        ensures given { (body : List ℕ) → take result out.new ++ left_of head.now self.new body ≡ left_of head.now self.old body }
        ensures behind { IsUnchangedBehind result out.old out.new }
        ensures progress { (self.new.head_drawn ≡ length head.now) ⊎ (result ≡ length out.new) }
    {
        let count = pass_bytes(&head[self.head_drawn..], out, 0);
        self.head_drawn += count;
        count
    }

    /// Gives what bytes of a chunk give, from the place `at` on, and says how far. The chunk is the next of the view.
    pub fn pass(&mut self, chunk: &[u8], out: &mut [u8], at: usize) -> usize
        requires room { at ≤ length out.old }
        requires fits { self.old.taken + length chunk.now < 2 ^ 64 }
        ensures filled { FillsUpTo out.old out.new at result }
        ensures taken { (self.old.taken ≤ self.new.taken) × (self.new.taken ≤ self.old.taken + length chunk.now) }
        ensures given { (body more : List ℕ) → drop self.old.taken body ≡ chunk.now ++ more → IsNextOf body self.old self.new out.old out.new at result }
        ensures same { self.new.head_drawn ≡ self.old.head_drawn }
        ensures progress { (self.new.taken ≡ self.old.taken + length chunk.now) ⊎ (result ≡ length out.new) }
    {
        match &mut self.pipe {
            Some(pipe) => {
                let moved = pass_text(pipe, chunk, out, at);
                self.taken += moved.taken;
                at + moved.given
            }
            None => {
                let count = pass_bytes(chunk, out, at);
                self.taken += count;
                at + count
            }
        }
    }

    /// Gives what the end of a view of so many bytes gives, from the place `at` on, once all of them are taken, and says how far.
    pub fn finish(&mut self, size: usize, out: &mut [u8], at: usize) -> usize
        requires room { at ≤ length out.old }
        ensures filled { FillsUpTo out.old out.new at result }
        ensures given { (body : List ℕ) → length body ≡ size → IsNextOf body self.old self.new out.old out.new at result }
        ensures same { (self.new.head_drawn ≡ self.old.head_drawn) × (self.new.taken ≡ self.old.taken) }
        ensures progress { (body : List ℕ) → length body ≡ size → size ≤ self.old.taken → (body_left self.new body ≡ []) ⊎ (result ≡ length out.new) }
    {
        if self.taken < size {
            return at;
        }
        match &mut self.pipe {
            Some(pipe) => at + finish_text(pipe, out, at),
            None => at,
        }
    }
}
