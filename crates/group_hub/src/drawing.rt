// What moves one session that draws its reply.
ghost use Rattle.std.specs.Prelude.{◌≡◌, ◌≤◌, true, length, drop, OnErr, IfOk, IfSome, IsTrue};
ghost use Rattle.host_types.specs.Pins.{is_out};
ghost use Rattle.host_types.specs.SiteState.{HasRead, IsUnchangedBehind};
ghost use Rattle.group_world.specs.World as world;
ghost use Rattle.group_world.specs.Step.{draws};
ghost use Rattle.group_world.specs.Outcomes.{drawn_outcome, drawn_length};
ghost use Rattle.group_hub.specs.HeldPins.{MovesPins};
ghost use Rattle.group_hub.specs.SessionDraws.{view_drawn, DrawsReply};
ghost use Rattle.group_hub.specs.Sessions.{pin_of, IsSound, IsDrawn};
ghost use Rattle.group_hub.specs.declared.session.Phase.TheVariants as phases;

use crate::pins::give_back;
use crate::session::{Drawing, Phase, Replying};
use group_world::{Drawn, HubFault};
use host_types::SiteKeeper;
use std::mem;

/// The next bytes of a reply that is in memory, as many as there are and fit.
fn draw_bytes(replying: &mut Replying, out: &mut [u8]) -> Drawn
    ensures gives { drawn_outcome result out.new ≡ (draws (length out.old) (world.Reply (drop replying.old.drawn replying.old.bytes))).outcome }
    ensures phase { world.Reply (drop replying.new.drawn replying.new.bytes) ≡ (draws (length out.old) (world.Reply (drop replying.old.drawn replying.old.bytes))).phase }
    ensures within { drawn_length result ≤ length out.old }
    ensures behind { IsUnchangedBehind (drawn_length result) out.old out.new }
{
    let rest = &replying.bytes.as_slice()[replying.drawn..];
    if rest.is_empty() {
        return Drawn::Finished;
    }
    let count = rest.len().min(out.len());
    out[..count].copy_from_slice(&rest[..count]);
    replying.drawn += count;
    Drawn::Bytes(count)
}

/// The next bytes of a view, as many as there are and fit, and whether none are left then.
fn draw_view<S: SiteKeeper>(
    site: &mut S,
    drawing: &mut Drawing<S::Pin>,
    out: &mut [u8],
) -> Result<(usize, bool), HubFault>
    requires usable { (S.site_state site.old).usable ≡ true }
    requires out { IsTrue (is_out (S.site_state site.old) (S.pinned drawing.old.pin)) }
    requires sound { IsTrue (S.site_state site.old).honest → IsSound S.pinned (S.site_state site.old) (phases.Drawing drawing.old) }
    ensures draws { DrawsReply S.pinned (phases.Drawing drawing.old) (phases.Drawing drawing.new) (S.site_state site.old) (S.site_state site.new) (S.crash_states site.old) (S.crash_states site.new) out.old out.new (view_drawn result) }
    ensures finished { IsTrue (S.site_state site.old).honest → IfOk result (λ r. IsDrawn S.pinned (S.site_state site.new) r.1 (phases.Drawing drawing.new)) }
    ensures still_sound { IsTrue (S.site_state site.old).honest → OnErr result (IsSound S.pinned (S.site_state site.new) (phases.Drawing drawing.new)) }
    ensures pin { drawing.new.pin ≡ drawing.old.pin }
    ensures read { HasRead (S.site_state site.old) (S.site_state site.new) }
{
    match drawing.view.draw(site, &drawing.pin, out) {
        Ok(count) => Ok((count, drawing.view.is_finished())),
        Err(fault) => Err(HubFault::of_site(fault)),
    }
}

/// The next bytes of a reply, as many as there are and fit. The pin of a view is given back with its last byte.
pub fn draw<S: SiteKeeper>(
    site: &mut S,
    phase: &mut Phase<S::Pin>,
    out: &mut [u8],
) -> Result<Drawn, HubFault>
    requires usable { (S.site_state site.old).usable ≡ true }
    requires out { IfSome (pin_of S.pinned phase.old) (λ pin. IsTrue (is_out (S.site_state site.old) pin)) }
    requires sound { IsTrue (S.site_state site.old).honest → IsSound S.pinned (S.site_state site.old) phase.old }
    ensures draws { DrawsReply S.pinned phase.old phase.new (S.site_state site.old) (S.site_state site.new) (S.crash_states site.old) (S.crash_states site.new) out.old out.new result }
    ensures still_sound { IsTrue (S.site_state site.old).honest → IsSound S.pinned (S.site_state site.new) phase.new }
    ensures pins { MovesPins (S.site_state site.old) (S.site_state site.new) (pin_of S.pinned phase.old) (pin_of S.pinned phase.new) }
{
    let (count, is_finished) = match phase {
        Phase::Hearing(_) | Phase::Waiting(_) => return Err(HubFault::NotReady),
        Phase::Replying(replying) => return Ok(draw_bytes(replying, out)),
        Phase::Drawing(drawing) => draw_view(site, drawing, out)?,
        Phase::Drawn | Phase::Early => return Ok(Drawn::Finished),
    };
    if is_finished {
        let drawn = mem::replace(phase, Phase::Drawn);
        give_back(site, drawn);
    }
    Ok(Drawn::Bytes(count))
}
