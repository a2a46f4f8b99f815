// An office is asked to hold still, and let go on.
ghost use Rattle.std.specs.Prelude.{◌≡◌, Err, IfOk};
ghost use Rattle.std.specs.String.{string_bytes};
ghost use Rattle.admin_lines.specs.Replies.{reply};
ghost use Rattle.admin_lines.specs.declared.reply.ReplyFault.{ReplyFault as Unreadable};
ghost use Rattle.turns.specs.WireCalls.{HasMade};
ghost use Rattle.admin_client.specs.Holding.{HearsHeld, IsHoldAsked, IsReleased, IsReleasedInVain};
ghost use Rattle.admin_client.specs.declared.answer.AnswerFault.TheVariants.{Reply};

use crate::answer::answer_in;
use crate::asking::{hear, send};
use crate::{AdminAnswer, AnswerFault};
use admin_lines::{held_line, hold_line};
use std::alloc::Global;
use turns::Wire;

/// One read, and whether it gives that the office holds still, and nothing else.
fn hears_held<W: Wire>(wire: &mut W) -> bool
    ensures { HasMade (W.calls wire.old) (W.calls wire.new) (λ made. HearsHeld made result) }
{
    let mut heard = [0; 5];
    match wire.read(&mut heard) {
        Ok(count) => &heard[..count] == held_line(),
        Err(_) => false,
    }
}

/// Asks an office to hold still, and says whether it does. From then on it does, for a second at most, until `release`.
pub fn hold<W: Wire>(wire: &mut W) -> bool
    ensures { HasMade (W.calls wire.old) (W.calls wire.new) (λ made. IsHoldAsked made result) }
{
    send(wire, hold_line()) && hears_held(wire)
}

/// Lets an office go on that holds still, and gives what it answers: that it held still until now, or not.
pub fn release<W: Wire>(alloc: Global, wire: &mut W) -> Result<AdminAnswer, AnswerFault>
    ensures answered { IfOk result (λ a. HasMade (W.calls wire.old) (W.calls wire.new) (λ made. IsReleased (reply a.done (string_bytes a.text)) made)) }
    ensures refused { (fault : Unreadable) → result ≡ Err (Reply fault) → HasMade (W.calls wire.old) (W.calls wire.new) (λ made. IsReleasedInVain made) }
{
    send(wire, b"\n");
    let reply = hear(alloc, wire)?;
    answer_in(alloc, &reply)
}
