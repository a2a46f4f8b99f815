// A request that the office holds still, so that nothing is written to the image while it is read.
ghost use Rattle.std.specs.Prelude.{◌≡◌};
ghost use Rattle.admin_lines.specs.Holds as spec;

/// The request.
pub fn hold_line() -> &'static [u8]
    ensures { result.now ≡ spec.hold_line }
{
    b"hold\n"
}

/// Whether a connection that began with these bytes asks for it.
pub fn is_hold(bytes: &[u8]) -> bool
    ensures { result ≡ spec.is_hold bytes.now }
{
    bytes.starts_with(b"hold\n")
}

/// What is told while the office holds still.
pub fn held_line() -> &'static [u8]
    ensures { result.now ≡ spec.held_line }
{
    b"held\n"
}

/// The text of the reply, where the office held still until it was let go on.
pub fn held_text() -> &'static str
    ensures { result.now ≡ spec.held_text }
{
    "held"
}
