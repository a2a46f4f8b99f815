// A caller's room, and what is copied into it.
ghost use Rattle.std.specs.Prelude.{◌≡◌, ◌≤◌, ◌+◌, ◌++◌, length, take};
ghost use Rattle.host_types.specs.SiteState.{IsUnchangedBehind};

/// Copies the bytes to the places from `at` on.
pub fn copy_to(bytes: &[u8], out: &mut [u8], at: usize)
    requires { at + length bytes.now ≤ length out.old }
    ensures bytes { take (at + length bytes.now) out.new ≡ take at out.old ++ bytes.now }
    ensures behind { IsUnchangedBehind (at + length bytes.now) out.old out.new }
    ensures length { length out.new ≡ length out.old }
{
    out[at..at + bytes.len()].copy_from_slice(bytes);
}
