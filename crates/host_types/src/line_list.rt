// Lines, words and other short byte strings in a row.
ghost use Rattle.std.specs.Prelude.{◌≡◌, ℕ, List, false, OnOk, OnErr, IfOk, [], ◌∷◌, ◌++◌};
ghost use Rattle.std.specs.List.{list_any};
ghost use Rattle.host_types.specs.Lines.{is_lf, lines, without_cr};

use crate::{Bytes, List};
use std::alloc::{AllocError, Global};

/// The line without one CR at its end.
#[tactic(auto, using(crate::proofs::CutLines::without_cr_at, crate::proofs::CutLines::without_cr_none))]
pub fn without_cr(line: &[u8]) -> &[u8]
    ensures { result.now ≡ without_cr line.now }
{
    match line {
        [front @ .., b'\r'] => front,
        _ => line,
    }
}

/// Lines in their order, without what ends them.
pub type LineList = List<Bytes>;

/// Takes one byte more of a body; the lines before it are in the list, the bytes since then in the line.
#[tactic(auto, using(crate::proofs::CutLines::cut_here, crate::proofs::CutLines::goes_in, crate::proofs::CutLines::still_none))]
fn take_byte(
    alloc: Global,
    list: &mut LineList,
    line: &mut Vec<u8>,
    byte: u8,
) -> Result<(), AllocError>
    ensures lines { list_any is_lf line.old.items ≡ false → OnOk result ((rest : List ℕ) → list.new ++ lines (line.new.items ++ rest) ≡ list.old ++ lines (line.old.items ++ byte ∷ rest)) }
    ensures begun { list_any is_lf line.old.items ≡ false → OnOk result (list_any is_lf line.new.items ≡ false) }
{
    if byte == b'\n' {
        list.push(Bytes::from_slice(alloc, without_cr(line))?)?;
        line.clear();
    } else {
        line.push(byte)?;
    }
    Ok(())
}

#[tactic(auto, using(crate::proofs::CutLines::rest_of, crate::proofs::CutLines::no_rest))]
/// The lines of a body: it is cut at each LF, one CR before it dropped; a last part without LF is a line where it has bytes.
pub fn lines_of(alloc: Global, body: &[u8]) -> Result<LineList, AllocError>
    ensures { IfOk result (λ list. list ≡ lines body.now) }
{
    let mut list = LineList::new(alloc);
    let mut line = Vec::new(alloc);
    for byte in body {
        take_byte(alloc, &mut list, &mut line, *byte)?;
    }
    if line.is_empty() {
        return Ok(list);
    }
    list.push(Bytes::from(line))?;
    Ok(list)
}
