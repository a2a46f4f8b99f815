// How changes are told of that were not made.
ghost use Rattle.std.specs.Prelude.{◌≡◌, ℕ, List, IfOk};
ghost use Rattle.std.specs.String.{string_bytes};
ghost use Rattle.change_file.specs.declared.fault.ApplyFault.{ApplyFault as Stopped};

use change_file::ApplyFault;
use std::alloc::{AllocError, Global};

/// How an administrator is told of a change that was not made, as whoever makes changes of an image by itself is told.
pub trait FaultTexts {
    /// The lines of such a change, without the last LF.
    ghost says: { Self → Stopped → List ℕ };

    /// The lines of a change that was not made, without the last LF.
    fn text(&self, alloc: Global, stopped: ApplyFault) -> Result<String, AllocError>
        ensures { IfOk result (λ t. string_bytes t ≡ says self.now stopped) };
}
