// A wire on which an administrator can be waited for.
ghost use Rattle.std.specs.Prelude.{◌≡◌, ◌≤◌, ◌++◌, ◌∷◌, [], IfOk, IfSome, length};
ghost use Rattle.daily_turns.specs.Tries.{read_try};

use daily_turns::ReadyWire;
use turns::WireFault;

/// A wire that never waits, but where that is asked for.
pub trait PatientWire: ReadyWire {
    /// Reads as `read` does, once something has come or the other end has gone, for which it waits a second at most.
    fn read_patiently(&mut self, buffer: &mut [u8]) -> Result<Option<usize>, WireFault>
        ensures within { IfOk result (λ r. IfSome r (λ n. n ≤ length buffer.new)) }
        ensures calls { Self.calls self.new ≡ Self.calls self.old ++ read_try result buffer.new ∷ [] };
}
