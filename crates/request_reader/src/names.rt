// Names with spaces between them.
ghost use Rattle.std.specs.Prelude.{◌≡◌, IfOk};
ghost use Rattle.request_reader.specs.RequestLine.{names_of};
ghost use Rattle.request_reader.specs.Seen.{names_in};

use host_types::{Bytes, LineList};
use std::alloc::{AllocError, Global};

/// The names of attribute blocks, as `+ABSTRACT +ASK`; of no names all blocks are meant.
#[derive(Clone, Copy, Debug)]
pub struct Names<'a> {
    bytes: &'a [u8],
}

impl<'a> Names<'a> {
    /// The names in the bytes, with spaces between them; empty ones are left out.
    pub fn of(bytes: &'a [u8]) -> Self
        ensures { names_in result ≡ names_of bytes.now }
    {
        Names { bytes }
    }

    /// A copy of each name.
    pub fn to_list(self, alloc: Global) -> Result<LineList, AllocError>
        ensures { IfOk result (λ list. list ≡ names_in self.entry) }
    {
        let mut list = LineList::new(alloc);
        for name in self.bytes.split(|byte| *byte == b' ') {
            if !name.is_empty() {
                list.push(Bytes::from_slice(alloc, name)?)?;
            }
        }
        Ok(list)
    }
}
