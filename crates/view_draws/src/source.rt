// A view of a pinned site, by chunks.
ghost use Rattle.std.specs.Prelude.{◌≡◌, ◌<◌, ◌≤◌, ◌+◌, ◌*◌, ◌^◌, ◌++◌, ◌⊎◌, ◌/◌, ℕ, List, Some, IsTrue, OnOk, length, take, drop};
ghost use Rattle.host_types.specs.Pins.{is_out};
ghost use Rattle.host_types.specs.Card.{chunk_of};

use host_types::{CHUNK, Selector, SiteFault, SiteKeeper};

/// Which view of a pinned site it is, how many bytes it has, and the chunk of it that was read last.
#[derive(Drop)]
pub struct ViewSource {
    pub selector: Selector,
    /// The view's place among those of its item.
    pub view: usize,
    /// How many bytes it has.
    pub size: usize,
    /// Which chunk is in the buffer. None where it holds none.
    pub place: Option<usize>,
    pub buffer: [u8; 1000],
}

/// How many bytes chunk k of so many bytes has.
fn chunk_length(size: usize, k: usize) -> usize
    requires { 1000 * k ≤ size }
    ensures length { (body : List ℕ) → length body ≡ size → length (chunk_of body k) ≡ result }
    ensures within { (result ≤ 1000) × (1000 * k + result ≤ size) }
    ensures full { (result ≡ 1000) ⊎ (1000 * k + result ≡ size) }
{
    (size - CHUNK * k).min(CHUNK)
}

/// The bytes from one place to another.
fn part(bytes: &[u8], start: usize, end: usize) -> &[u8]
    requires order { start ≤ end }
    requires within { end ≤ length bytes.now }
    ensures bytes { result.now ≡ drop start (take end bytes.now) }
    ensures length { start + length result.now ≡ end }
{
    &bytes[start..end]
}

impl ViewSource {
    ghost use Rattle.view_draws.specs.Source.{viewed_by, HasChunk, IsSameView};
    ghost use Rattle.view_draws.specs.Counting.{ReadsView};

    /// Makes sure that the buffer holds chunk k.
    pub fn load<S: SiteKeeper>(
        &mut self,
        site: &mut S,
        pin: &S::Pin,
        k: usize,
    ) -> Result<(), SiteFault>
        requires out { IsTrue (is_out (S.site_state site.old) (S.pinned pin.now)) }
        requires within { 1000 * k ≤ self.old.size }
        ensures loaded { OnOk result (self.new.place ≡ Some k) }
        ensures chunk { let body = viewed_by (S.site_state site.old) (S.pinned pin.now) self.old in IsTrue (S.site_state site.old).honest → length body ≡ self.old.size → HasChunk body self.old → HasChunk body self.new }
        ensures same { IsSameView self.old self.new }
        ensures reads { ReadsView S.site_state S.lacks S.crash_states (S.pinned pin.now) self.old site.old site.new result }
    {
        if self.place == Some(k) {
            return Ok(());
        }
        if self.size == 0 {
            self.place = Some(k);
            return Ok(());
        }
        self.place = None;
        let count = site.known_chunk(pin, &self.selector, self.view, k, &mut self.buffer)?;
        if count != chunk_length(self.size, k) {
            return Err(SiteFault::Read);
        }
        self.place = Some(k);
        Ok(())
    }

    /// The bytes from a place of the view to the end of its chunk, which is in the buffer.
    pub fn from_place(&self, at: usize) -> &[u8]
        requires { at < self.now.size }
        ensures some { 0 < length result.now }
        ensures within { at + length result.now ≤ self.now.size }
        ensures fits { at + length result.now < 2 ^ 64 }
        ensures bytes { (body : List ℕ) → length body ≡ self.now.size → HasChunk body self.now → self.now.place ≡ Some (at / 1000) → drop at body ≡ result.now ++ drop (at + length result.now) body }
    {
        let end = chunk_length(self.size, at / CHUNK);
        part(&self.buffer, at % CHUNK, end)
    }
}
