// Comments in front of a file of changes.
ghost use Rattle.std.specs.Prelude.{◌≡◌, ◌++◌, OnOk, string_bytes};
ghost use Rattle.change_writer.specs.Comments as spec;

use std::alloc::AllocError;

/// Whether a comment may have a character: TAB, and all but the control characters of ASCII.
fn fits(c: char) -> bool
    ensures { result ≡ spec.fits c }
{
    c == '\t' || (c >= ' ' && c != '\x7f')
}

/// Adds a line that says a text, but for the characters that no comment has.
pub fn add_comment(comments: &mut String, text: &str) -> Result<(), AllocError>
    ensures { OnOk result (string_bytes comments.new ≡ string_bytes comments.old ++ spec.comment text.now) }
{
    comments.push_str("# ")?;
    for c in text.chars() {
        if fits(c) {
            comments.push(c)?;
        }
    }
    comments.push_str("\n")?;
    Ok(())
}
