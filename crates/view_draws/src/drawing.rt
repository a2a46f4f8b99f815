// The bytes of a view, drawn from a place of a buffer on.
ghost use Rattle.std.specs.Prelude.{◌≡◌, ◌<◌, ◌≤◌, ◌⊎◌, IsTrue, IfOk, OnErr, length};
ghost use Rattle.host_types.specs.Pins.{is_out};
ghost use Rattle.view_draws.specs.Counting.{ReadsView};
ghost use Rattle.view_draws.specs.Source.{viewed_by};
ghost use Rattle.view_draws.specs.Drawing.{GivesView, EndsOrFills, PartlyDrawn};

use crate::progress::DrawProgress;
use crate::source::ViewSource;
use host_types::{CHUNK, SiteFault, SiteKeeper};

/// Gives what bytes of one chunk give, and says how far.
fn draw_chunk<S: SiteKeeper>(
    source: &mut ViewSource,
    progress: &mut DrawProgress,
    site: &mut S,
    pin: &S::Pin,
    out: &mut [u8],
    at: usize,
) -> Result<usize, SiteFault>
    requires out { IsTrue (is_out (S.site_state site.old) (S.pinned pin.now)) }
    requires more { progress.old.taken < source.old.size }
    requires room { at < length out.old }
    ensures gives { GivesView (S.site_state site.old) (S.pinned pin.now) source.old source.new progress.old progress.new out.old out.new at result }
    ensures onward { IfOk result (λ n. (progress.old.taken < progress.new.taken) ⊎ (at < n)) }
    ensures untouched { OnErr result ((out.new ≡ out.old) × (progress.new ≡ progress.old)) }
    ensures reads { ReadsView S.site_state S.lacks S.crash_states (S.pinned pin.now) source.old site.old site.new result }
{
    source.load(site, pin, progress.taken / CHUNK)?;
    Ok(progress.pass(source.from_place(progress.taken), out, at))
}

/// Gives what is left of the view, from the place `at` on, as far as there is room, and says how far.
pub fn draw_body<S: SiteKeeper>(
    source: &mut ViewSource,
    progress: &mut DrawProgress,
    site: &mut S,
    pin: &S::Pin,
    out: &mut [u8],
    at: usize,
) -> Result<usize, SiteFault>
    requires out { IsTrue (is_out (S.site_state site.old) (S.pinned pin.now)) }
    requires within { progress.old.taken ≤ source.old.size }
    requires room { at ≤ length out.old }
    ensures gives { GivesView (S.site_state site.old) (S.pinned pin.now) source.old source.new progress.old progress.new out.old out.new at result }
    ensures ended { EndsOrFills (S.site_state site.old) (S.pinned pin.now) source.old progress.new out.new result }
    ensures begun { OnErr result (PartlyDrawn (S.site_state site.old).honest (viewed_by (S.site_state site.old) (S.pinned pin.now) source.old) source.old progress.old at out.old out.new) }
    ensures reads { ReadsView S.site_state S.lacks S.crash_states (S.pinned pin.now) source.old site.old site.new result }
{
    let mut end = at;
    while progress.taken < source.size && end < out.len() {
        end = draw_chunk(source, progress, site, pin, out, end)?;
    }
    Ok(progress.finish(source.size, out, end))
}
