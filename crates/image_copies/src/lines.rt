// What is printed of a copy.
ghost use Rattle.std.specs.Prelude.{◌≡◌, IfOk};
ghost use Rattle.std.specs.String.{string_bytes};
ghost use Rattle.image_copies.specs.CopyLines as spec;

use std::alloc::{AllocError, Global};

/// The line of a copy: how many items were copied, and how many pages a commit may write in the new image. Without its LF.
pub fn copied_line(alloc: Global, items: u64, free: u64) -> Result<String, AllocError>
    ensures { IfOk result (λ t. string_bytes t ≡ spec.copied_line items free) }
{
    let mut line = format!(in alloc; "copied {items}")?;
    line.push_str(&format!(in alloc; " items, free {free}")?)?;
    Ok(line)
}
