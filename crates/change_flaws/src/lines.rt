// The line where a text breaks.
ghost use Rattle.std.specs.Prelude.{◌≡◌, ◌≤◌, length, IfOk};
ghost use Rattle.std.specs.String.{string_bytes};
ghost use Rattle.change_flaws.specs.Flaws as spec;

use std::alloc::{AllocError, Global};

/// How many LFs there are.
fn line_feeds(text: &[u8]) -> usize
    ensures count { result ≡ spec.line_feeds text.now }
    ensures few { result ≤ length text.now }
{
    text.iter().filter(|byte| **byte == b'\n').count()
}

/// The number of the line at a place.
pub fn line_at(text: &[u8], place: usize) -> u64
    requires { place ≤ length text.now }
    ensures { result ≡ spec.line_at place text.now }
{
    line_feeds(&text[..place]) as u64 + 1
}

/// What is said of a line that is no TOML.
pub fn line_text(alloc: Global, line: u64) -> Result<String, AllocError>
    ensures { IfOk result (λ t. string_bytes t ≡ spec.line_text line) }
{
    format!(in alloc; "Line {line} is no TOML.")
}
