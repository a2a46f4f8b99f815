// Data that were sent along with a request.
ghost use Rattle.std.specs.Prelude.{◌≡◌, IfOk, map};
ghost use Rattle.host_types.specs.Lines.{lines};
ghost use Rattle.request_reader.specs.DataLines as spec;
ghost use Rattle.request_reader.specs.Seen.{lines_in};

use host_types::{Bytes, LineList, lines_of};
use std::alloc::{AllocError, Global};

/// The lines of data.
#[derive(Clone, Copy, Debug)]
pub struct Data<'a> {
    bytes: &'a [u8],
    /// Whether a line that begins with two periods stands for one that begins with one.
    stuffed: bool,
}

/// The line without the first of two periods at its start.
fn unstuffed(line: &[u8]) -> &[u8]
    ensures { result.now ≡ spec.unstuffed line.now }
{
    match line {
        [b'.', b'.', ..] => &line[1..],
        _ => line,
    }
}

fn all_unstuffed(alloc: Global, lines: &LineList) -> Result<LineList, AllocError>
    ensures { IfOk result (λ list. list ≡ map spec.unstuffed lines.now) }
{
    let mut list = LineList::new(alloc);
    for line in lines.as_slice() {
        list.push(Bytes::from_slice(alloc, unstuffed(line.as_slice()))?)?;
    }
    Ok(list)
}

impl<'a> Data<'a> {
    /// Data whose lines are as they came.
    pub fn plain(bytes: &'a [u8]) -> Self
        ensures { lines_in result ≡ lines bytes.now }
    {
        Data {
            bytes,
            stuffed: false,
        }
    }

    /// Data of which each line that began with two periods loses one.
    pub fn stuffed(bytes: &'a [u8]) -> Self
        ensures { lines_in result ≡ map spec.unstuffed (lines bytes.now) }
    {
        Data {
            bytes,
            stuffed: true,
        }
    }

    /// A copy of each line.
    pub fn lines(self, alloc: Global) -> Result<LineList, AllocError>
        ensures { IfOk result (λ list. list ≡ lines_in self.entry) }
    {
        let lines = lines_of(alloc, self.bytes)?;
        if self.stuffed {
            all_unstuffed(alloc, &lines)
        } else {
            Ok(lines)
        }
    }
}
