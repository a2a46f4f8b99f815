// The lines of a whole gophermap.
ghost use Rattle.std.specs.Prelude.{◌≡◌, [], if◌then◌else◌};
ghost use Rattle.gophermap.specs.Line as spec;
ghost use Rattle.gophermap.specs.Laws as laws;
ghost use Rattle.gophermap.specs.Line.{lines_of};
ghost use Rattle.gophermap.specs.Seen.{GivesFirstLine, seen};

use crate::fields::first_line;
use crate::{Line, LineFault, read_line};
use std::marker::Model;

fn is_last(line: Result<Line<'_>, LineFault>) -> bool
    ensures { result ≡ spec.is_last (seen line.entry) }
{
    matches!(line, Ok(Line::Listing | Line::End))
}

/// What of the others is read behind a line.
fn left_behind<'a>(line: Result<Line<'_>, LineFault>, others: &'a [u8]) -> &'a [u8]
    ensures { lines_of result.now ≡ (if spec.is_last (seen line.entry) then [] else lines_of others.now) }
{
    if is_last(line) { &[] } else { others }
}

/// The lines of a gophermap that are left to read, as far as one behind which nothing is read.
#[derive(Debug, Drop)]
pub struct Lines<'a> {
    left: &'a [u8],
}

impl<'a> Model for Lines<'a> {
    ghost use Rattle.std.specs.Prelude.{List};
    ghost use Rattle.gophermap.specs.Line.{ReadLine, lines_of};

    ghost Value = { List ReadLine };

    ghost view = { λ l. lines_of l.left.now };
}

impl<'a> Lines<'a> {
    /// The lines of a file.
    pub fn of(file: &'a [u8]) -> Self
        ensures { result ≡ lines_of file.now }
    {
        Lines { left: file }
    }

    /// The next line, where there is one. One that is refused does not end the reading.
    #[tactic(auto, using(crate::proofs::Parts::goes_on))]
    pub fn next(&mut self) -> Option<Result<Line<'a>, LineFault>>
        ensures { GivesFirstLine self.old result self.new }
    {
        if self.left.is_empty() {
            return None;
        }
        let (first, others) = first_line(self.left);
        let line = read_line(first);
        self.left = left_behind(line, others);
        Some(line)
    }
}

/// Whether no line of a file is refused.
pub fn all_read(file: &[u8]) -> bool
    ensures { result ≡ laws.all_read file.now }
{
    let mut lines = Lines::of(file);
    while let Some(line) = lines.next() {
        if line.is_err() {
            return false;
        }
    }
    true
}
