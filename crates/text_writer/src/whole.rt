// A whole body as text.
ghost use Rattle.std.specs.Prelude.{◌≡◌, IfOk};
ghost use Rattle.host_types.specs.Lines.{lines};
ghost use Rattle.text_writer.specs.Text as spec;

use crate::place::{BODY_START, after, behind_run, closing, emitted, run_length};
use host_types::Bytes;
use std::alloc::{AllocError, Global};

/// A body as it is sent to a client that asked for text: each line ends with CR LF, one that begins
/// with a period has one more, and a line of one period ends the text (RFC 1436, appendix).
pub fn text(alloc: Global, body: &[u8]) -> Result<Bytes, AllocError>
    ensures bytes { IfOk result (λ t. t ≡ spec.text body.now) }
    ensures client { IfOk result (λ t. spec.client t ≡ lines body.now) }
{
    let mut sent = Vec::with_capacity(alloc, body.len())?;
    let mut place = BODY_START;
    let mut at = 0;
    while at < body.len() {
        let byte = body[at];
        sent.extend_from_slice(emitted(place, byte).as_slice())?;
        place = after(place, byte);
        let later = &body[at + 1..];
        let run = run_length(place, later);
        sent.extend_from_slice(&later[..run])?;
        place = behind_run(place, run);
        at += 1 + run;
    }
    sent.extend_from_slice(closing(place).as_slice())?;
    Ok(Bytes::from(sent))
}
