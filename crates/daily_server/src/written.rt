// Writes of the log. Each is noted, so that clauses can say that no line of it is left out or given up.
ghost use Rattle.std.specs.Prelude.{◌≡◌, ◌≤◌, [], ◌∷◌, ◌++◌, IfOk, length};
ghost use Rattle.std.specs.Io.KnownBytes.{WriteAppends};
ghost use Rattle.turns.specs.WireCalls.{write_call};
ghost use Rattle.daily_server.specs.Logged.{IsWritten};

use std::io::{ErrorKind, Write};
use turns::{CallLog, WireCallKind, WireFault};

/// How many times a write is made that a signal ends, at most.
const TRIES: u32 = 1000;

/// One write, which is noted. One that a signal ended took nothing, and is made again.
fn write_once<L: Write>(
    log: &mut L,
    written: &mut CallLog,
    bytes: &[u8],
) -> Result<usize, WireFault>
    ensures within { IfOk result (λ n. n ≤ length bytes.now) }
    ensures calls { written.new.calls ≡ written.old.calls ++ write_call result bytes.now ∷ [] }
    ensures contents { WriteAppends (L.contents log.old) (L.contents log.new) result bytes.now }
{
    for _try in 0..TRIES {
        match log.write(bytes) {
            Ok(count) => {
                written.note(WireCallKind::Wrote(count), bytes);
                return Ok(count);
            }
            Err(error) if error.kind() == ErrorKind::Interrupted => {}
            Err(_) => {
                written.note(WireCallKind::WriteFailed, bytes);
                return Err(WireFault);
            }
        }
    }
    written.note(WireCallKind::WriteFailed, bytes);
    Err(WireFault)
}

/// Offers these bytes until all are taken, and says whether they were: a write that fails or takes none ends it.
pub(crate) fn write_out<L: Write>(log: &mut L, written: &mut CallLog, bytes: &[u8]) -> bool
    ensures { IsWritten L.contents (log.old, written.old.calls) (log.new, written.new.calls) bytes.now result }
{
    let mut rest = bytes;
    while !rest.is_empty() {
        let Ok(count) = write_once(log, written, rest) else {
            return false;
        };
        if count == 0 {
            return false;
        }
        rest = &rest[count..];
    }
    true
}
