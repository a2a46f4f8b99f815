// What carries the bytes of a session, and never waits.
ghost use Rattle.std.specs.Prelude.{◌≡◌, ◌≤◌, List, [], ◌∷◌, ◌++◌, IfOk, IfSome, length};
ghost use Rattle.turns.specs.WireCalls.{WireCall, Closed};
ghost use Rattle.daily_turns.specs.Tries.{read_try, write_try};

use turns::WireFault;

/// Both ways of a session, to its client and from it, of which no call waits.
pub trait ReadyWire {
    /// All calls of the wire so far, each with what it gave.
    ghost calls: { Self → List WireCall };

    /// Puts the next bytes into the front of the buffer and answers how many they are, 0 at the end; or nothing, where it would have to wait.
    fn read(&mut self, buffer: &mut [u8]) -> Result<Option<usize>, WireFault>
        ensures within { IfOk result (λ r. IfSome r (λ n. n ≤ length buffer.new)) }
        ensures calls { calls self.new ≡ calls self.old ++ read_try result buffer.new ∷ [] };

    /// Takes bytes from the front of these and answers how many; or nothing, where it would have to wait.
    fn write(&mut self, bytes: &[u8]) -> Result<Option<usize>, WireFault>
        ensures within { IfOk result (λ r. IfSome r (λ n. n ≤ length bytes.now)) }
        ensures calls { calls self.new ≡ calls self.old ++ write_try result bytes.now ∷ [] };

    /// Ends both ways. It is the last call.
    fn close(&mut self)
        ensures { calls self.new ≡ calls self.old ++ Closed ∷ [] };
}
