// What carries the bytes of a session.
ghost use Rattle.std.specs.Prelude.{◌≡◌, ◌≤◌, List, [], ◌∷◌, ◌++◌, IfOk, length};
ghost use Rattle.turns.specs.WireCalls.{WireCall, Closed, read_call, write_call};

use thiserror::Error;

/// A read or a write failed.
#[derive(Clone, Copy, Debug, PartialEq, Eq, Error)]
#[error("wire")]
pub struct WireFault;

/// Both ways of a session, to its client and from it.
pub trait Wire {
    /// All calls of the wire so far, each with what it gave.
    ghost calls: { Self → List WireCall };

    /// Puts the next bytes into the front of the buffer and answers how many they are, 0 at the end. It may wait.
    fn read(&mut self, buffer: &mut [u8]) -> Result<usize, WireFault>
        ensures within { IfOk result (λ n. n ≤ length buffer.new) }
        ensures calls { calls self.new ≡ calls self.old ++ read_call result buffer.new ∷ [] };

    /// Takes bytes from the front of these and answers how many. It may wait.
    fn write(&mut self, bytes: &[u8]) -> Result<usize, WireFault>
        ensures within { IfOk result (λ n. n ≤ length bytes.now) }
        ensures calls { calls self.new ≡ calls self.old ++ write_call result bytes.now ∷ [] };

    /// Ends both ways. It is the last call.
    fn close(&mut self)
        ensures { calls self.new ≡ calls self.old ++ Closed ∷ [] };
}
