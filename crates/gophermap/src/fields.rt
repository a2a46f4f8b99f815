// Fields of a line, parted by TABs, and lines of a file, ended by LFs.
ghost use Rattle.std.specs.Prelude.{◌≡◌, ◌≤◌, ◌==◌, ◌∷◌, length};
ghost use Rattle.std.specs.List.{position_or_len, slice_split};
ghost use Rattle.std.specs.Option.{option_copied};
ghost use Rattle.gophermap.specs.Line.{cut, is_tab};
ghost use Rattle.gophermap.specs.Seen.{fields};

use memchr::memchr;

/// The place of the first such byte, or the length where there is none.
#[tactic(auto, using(crate::proofs::Places::place_of_first, crate::proofs::Places::place_of_none))]
fn first_of(byte: u8, bytes: &[u8]) -> usize
    ensures place { result ≡ position_or_len (λ b. b == byte) bytes.now }
    ensures within { result ≤ length bytes.now }
{
    match memchr(byte, bytes) {
        Some(at) => at,
        None => bytes.len(),
    }
}

/// The first field, and what follows its TAB, where there is one.
#[tactic(auto, using(crate::proofs::Parts::first_ends, crate::proofs::Parts::one_field))]
pub fn first_field(line: &[u8]) -> (&[u8], Option<&[u8]>)
    ensures { slice_split is_tab line.now ≡ result.0.now ∷ fields (option_copied result.1) }
{
    let tab = first_of(b'\t', line);
    if tab < line.len() {
        (&line[..tab], Some(&line[tab + 1..]))
    } else {
        (line, None)
    }
}

/// The first line without its LF, and what follows that.
#[tactic(auto, using(crate::proofs::Parts::line_ends, crate::proofs::Parts::last_line))]
pub fn first_line(file: &[u8]) -> (&[u8], &[u8])
    requires { 1 ≤ length file.now }
    ensures { cut file.now ≡ result.0.now ∷ cut result.1.now }
{
    let end = first_of(b'\n', file);
    if end < file.len() {
        (&file[..end], &file[end + 1..])
    } else {
        (file, &[])
    }
}
