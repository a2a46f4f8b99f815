// A request is sent whole, and its reply read to the end.
ghost use Rattle.std.specs.Prelude.{◌≡◌, Err, IfOk};
ghost use Rattle.std.specs.String.{string_bytes};
ghost use Rattle.admin_lines.specs.Replies.{reply};
ghost use Rattle.admin_lines.specs.declared.reply.ReplyFault.{ReplyFault as Unreadable};
ghost use Rattle.turns.specs.WireCalls.{HasMade, IsSent};
ghost use Rattle.admin_client.specs.Asking.{IsAsked, IsAnsweredInVain, IsAllHeard, IsRequested};
ghost use Rattle.admin_client.specs.declared.answer.AnswerFault.TheVariants.{Reply};

use crate::answer::answer_in;
use crate::{AdminAnswer, AnswerFault};
use admin_lines::head_line;
use std::alloc::{AllocError, Global};
use turns::Wire;

/// How many bytes are read at a time, at most.
const PIECE: usize = 2048;

/// Offers these bytes until all are taken, and says whether they were: a write that fails or takes none ends it.
pub(crate) fn send<W: Wire>(wire: &mut W, bytes: &[u8]) -> bool
    ensures { HasMade (W.calls wire.old) (W.calls wire.new) (λ made. IsSent bytes.now made result) }
{
    let mut rest = bytes;
    while !rest.is_empty() {
        let Ok(count) = wire.write(rest) else {
            return false;
        };
        if count == 0 {
            return false;
        }
        rest = &rest[count..];
    }
    true
}

/// Sends the head for a file of changes, and then the file, as far as they are taken.
fn request<W: Wire>(alloc: Global, wire: &mut W, file: &[u8]) -> Result<(), AllocError>
    ensures { IfOk result (λ _. HasMade (W.calls wire.old) (W.calls wire.new) (λ made. IsRequested file.now made)) }
{
    let head = head_line(alloc, file.len() as u64)?;
    if !send(wire, head.as_bytes()) {
        return Ok(());
    }
    send(wire, file);
    Ok(())
}

/// All that comes, until the connection ends.
pub(crate) fn hear<W: Wire>(alloc: Global, wire: &mut W) -> Result<Vec<u8>, AllocError>
    ensures { IfOk result (λ reply. HasMade (W.calls wire.old) (W.calls wire.new) (λ made. IsAllHeard reply.items made)) }
{
    let mut reply = Vec::new(alloc);
    for _read in 0..u64::MAX {
        let mut piece = [0; PIECE];
        let Ok(count) = wire.read(&mut piece) else {
            return Ok(reply);
        };
        if count == 0 {
            return Ok(reply);
        }
        reply.extend_from_slice(&piece[..count])?;
    }
    Ok(reply)
}

/// Asks that the changes of a file are made, and gives what is answered.
pub fn ask<W: Wire>(alloc: Global, wire: &mut W, file: &[u8]) -> Result<AdminAnswer, AnswerFault>
    ensures answered { IfOk result (λ a. HasMade (W.calls wire.old) (W.calls wire.new) (λ made. IsAsked file.now (reply a.done (string_bytes a.text)) made)) }
    ensures refused { (fault : Unreadable) → result ≡ Err (Reply fault) → HasMade (W.calls wire.old) (W.calls wire.new) (λ made. IsAnsweredInVain file.now made) }
{
    request(alloc, wire, file)?;
    let reply = hear(alloc, wire)?;
    answer_in(alloc, &reply)
}
