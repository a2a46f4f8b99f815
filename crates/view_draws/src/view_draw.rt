// A reply that is drawn from a view of a pinned site.
ghost use Rattle.std.specs.Prelude.{◌≡◌, ◌≤◌, ◌↔◌, ◌++◌, ℕ, List, [], IsTrue, IfOk, OnErr, length};
ghost use Rattle.host_types.specs.SiteState.{IsUnchangedBehind};
ghost use Rattle.host_types.specs.Pins.{is_out};

use crate::drawing::draw_body;
use crate::progress::DrawProgress;
use crate::source::ViewSource;
use host_types::{Bytes, Selector, SiteFault, SiteKeeper};

/// A reply that is the bytes of a view of a pinned site, as a text or as they are, behind a head. It is drawn by parts.
#[derive(Drop)]
pub struct ViewDraw {
    head: Bytes,
    source: ViewSource,
    progress: DrawProgress,
    ghost within_head: { progress.head_drawn ≤ length head },
    ghost within_view: { progress.taken ≤ source.size },
}

impl ViewDraw {
    ghost use Rattle.text_writer.specs.Text.{sent_as};
    ghost use Rattle.view_draws.specs.Counting.{ReadsView};
    ghost use Rattle.view_draws.specs.ViewDraw.{rest_of, IsOf, body_at, DrawsView, LosesNone};

    /// The whole reply: a view of so many bytes, behind a head. It takes no memory.
    #[tactic(auto, unfolding(crate::specs::ViewDraw::rest_of))]
    pub fn new(head: Bytes, selector: Selector, view: usize, size: u32, is_text: bool) -> Self
        ensures rest { (body : List ℕ) → rest_of result body ≡ head ++ sent_as is_text body }
        ensures of { (body : List ℕ) → length body ≡ size → IsOf body result }
        ensures selector { result.source.selector ≡ selector }
        ensures view { result.source.view ≡ view }
        ensures size { result.source.size ≡ size }
    {
        ViewDraw {
            head,
            source: ViewSource {
                selector,
                view,
                size: size as usize,
                place: None,
                buffer: [0; 1000],
            },
            progress: DrawProgress::new(is_text),
        }
    }

    /// Whether nothing is left to be drawn.
    #[tactic(auto, unfolding(crate::specs::ViewDraw::rest_of))]
    pub fn is_finished(&self) -> bool
        ensures { (body : List ℕ) → length body ≡ self.now.source.size → IsTrue result ↔ (rest_of self.now body ≡ []) }
    {
        self.progress.head_drawn == self.head.len()
            && self.progress.is_body_finished(self.source.size)
    }

    /// Gives the next bytes of the reply, and says how many: all that are left, or as many as there is room for. After a fault nothing is
    /// lost, and the next call goes on where this one began. It takes no memory.
    #[tactic(auto, unfolding(crate::specs::ViewDraw::rest_of))]
    pub fn draw<S: SiteKeeper>(
        &mut self,
        site: &mut S,
        pin: &S::Pin,
        out: &mut [u8],
    ) -> Result<usize, SiteFault>
        requires out { IsTrue (is_out (S.site_state site.old) (S.pinned pin.now)) }
        ensures within { IfOk result (λ n. n ≤ length out.new) }
        ensures length { length out.new ≡ length out.old }
        ensures behind { IfOk result (λ n. IsUnchangedBehind n out.old out.new) }

        // What an honest site gives, where this draws the view as it is there.
        ensures draws { DrawsView (S.site_state site.old) (S.pinned pin.now) self.old self.new out.old out.new result }

        // After a fault all is still to be drawn, and the front of the buffer may have the next bytes.
        ensures lost { OnErr result (LosesNone (S.site_state site.old).honest (body_at (S.site_state site.old) (S.pinned pin.now) self.old) self.old self.new out.old out.new) }

        ensures reads { ReadsView S.site_state S.lacks S.crash_states (S.pinned pin.now) self.old.source site.old site.new result }
    {
        let mut progress = self.progress.copied();
        let head_end = progress.give_head(self.head.as_slice(), out);
        let end = draw_body(&mut self.source, &mut progress, site, pin, out, head_end)?;
        self.progress = progress;
        Ok(end)
    }
}
