// Bytes and texts, given from a place of a buffer on.
ghost use Rattle.std.specs.Prelude.{◌≡◌, ◌≤◌, ◌+◌, ◌++◌, ◌⊎◌, ℕ, List, [], length, take, drop};
ghost use Rattle.host_types.specs.SiteState.{IsUnchangedBehind};
ghost use Rattle.text_writer.specs.Pipe.{will_give};

use text_writer::{Moved, TextPipe};

/// Gives the bytes as they are, as far as there is room, and says how many.
pub fn pass_bytes(bytes: &[u8], out: &mut [u8], at: usize) -> usize
    requires { at ≤ length out.old }
    ensures taken { result ≤ length bytes.now }
    ensures within { at + result ≤ length out.new }
    ensures given { take (at + result) out.new ≡ take at out.old ++ take result bytes.now }
    ensures behind { IsUnchangedBehind (at + result) out.old out.new }
    ensures progress { (result ≡ length bytes.now) ⊎ (at + result ≡ length out.new) }
{
    let count = bytes.len().min(out.len() - at);
    out[at..at + count].copy_from_slice(&bytes[..count]);
    count
}

/// Gives what a pipe makes of the chunk, as far as there is room.
pub fn pass_text(pipe: &mut TextPipe, chunk: &[u8], out: &mut [u8], at: usize) -> Moved
    requires { at ≤ length out.old }
    ensures taken { result.taken ≤ length chunk.now }
    ensures within { at + result.given ≤ length out.new }
    ensures given { (more : List ℕ) → take (at + result.given) out.new ++ will_give pipe.new (drop result.taken chunk.now ++ more) ≡ take at out.old ++ will_give pipe.old (chunk.now ++ more) }
    ensures behind { IsUnchangedBehind (at + result.given) out.old out.new }
    ensures progress { (result.taken ≡ length chunk.now) ⊎ (at + result.given ≡ length out.new) }
{
    pipe.next(chunk, &mut out[at..])
}

/// Gives what a pipe makes of the end of its body, as far as there is room, and says how many bytes.
pub fn finish_text(pipe: &mut TextPipe, out: &mut [u8], at: usize) -> usize
    requires { at ≤ length out.old }
    ensures within { at + result ≤ length out.new }
    ensures given { (rest : List ℕ) → take (at + result) out.new ++ will_give pipe.new rest ≡ take at out.old ++ will_give pipe.old [] }
    ensures behind { IsUnchangedBehind (at + result) out.old out.new }
    ensures progress { (will_give pipe.new [] ≡ []) ⊎ (at + result ≡ length out.new) }
{
    pipe.finish(&mut out[at..])
}
