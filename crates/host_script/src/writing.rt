// Lines to a writer.
ghost use Rattle.std.specs.Prelude.{◌≡◌, [], ◌∷◌, ◌++◌, OnOk, IfErr};
ghost use Rattle.std.specs.Io.KnownBytes.{Appends};
ghost use Rattle.host_script.specs.Lines.{TakesFront};
ghost use Rattle.host_script.specs.declared.fault.ReplayFault.TheVariants.{Output};

use crate::fault::ReplayFault;
use std::io::{ErrorKind, Write};

/// How many writes a text may take.
const MOST_WRITES: u64 = 1_000_000;

/// Writes a text, all of it, or a front where the writer takes no more.
fn write_text<W: Write>(writer: &mut W, text: &[u8]) -> Result<(), ReplayFault>
    ensures ok { OnOk result (Appends (W.contents writer.old) (W.contents writer.new) text.now) }
    ensures err { IfErr result (λ fault. (fault ≡ Output) × TakesFront (W.contents writer.old) (W.contents writer.new) text.now) }
{
    let mut rest = text;
    for _ in 0..MOST_WRITES {
        if rest.is_empty() {
            return Ok(());
        }
        match writer.write(rest) {
            Ok(0) => return Err(ReplayFault::Output),
            Ok(count) => rest = &rest[count..],
            Err(error) => {
                if error.kind() != ErrorKind::Interrupted {
                    return Err(ReplayFault::Output);
                }
            }
        }
    }
    match rest {
        [] => Ok(()),
        _ => Err(ReplayFault::Output),
    }
}

/// Writes a line with its LF, all of it, or a front where the writer takes no more.
pub fn write_line<W: Write>(writer: &mut W, line: &str) -> Result<(), ReplayFault>
    ensures ok { OnOk result (Appends (W.contents writer.old) (W.contents writer.new) (line.now ++ 10 ∷ [])) }
    ensures err { IfErr result (λ fault. (fault ≡ Output) × TakesFront (W.contents writer.old) (W.contents writer.new) (line.now ++ 10 ∷ [])) }
{
    write_text(writer, line.as_bytes())?;
    write_text(writer, b"\n")
}
