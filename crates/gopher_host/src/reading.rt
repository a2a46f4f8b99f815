// Reads a file to its end, as long as it has one.
ghost use Rattle.std.specs.Prelude.{◌≡◌, ◌≤◌, ◌*◌, IfOk, IfSome, length};

use std::alloc::Global;
use std::fs::File;
use std::io;
use std::io::{ErrorKind, Read};

/// How many reads a file of changes may take.
const MOST_READS: u64 = 1_000_000;

/// How many bytes one read takes.
const PIECE: usize = 512;

/// All bytes of a reader, which are at most 512,000,000 and take at most 1,000,000 reads. A reader that has more is too large.
fn whole<R: Read>(alloc: Global, reader: &mut R) -> io::Result<Vec<u8>>
    ensures bytes { IfOk result (λ all. IfSome (R.remaining reader.old) (λ xs. all.items ≡ xs)) }
    ensures size { IfOk result (λ all. length all.items ≤ PIECE * MOST_READS) }
{
    let mut all = Vec::new(alloc);
    let mut piece = [0; PIECE];
    for _read in 0..MOST_READS {
        match reader.read(&mut piece) {
            Ok(0) => return Ok(all),
            Ok(count) => all.extend_from_slice(&piece[..count])?,
            Err(error) if error.kind() == ErrorKind::Interrupted => {}
            Err(error) => return Err(error),
        }
    }
    Err(io::Error::from(ErrorKind::FileTooLarge))
}

/// All bytes of a file.
pub fn whole_file(rt: &HostRuntime, file: &str) -> io::Result<Vec<u8>> {
    whole(rt.alloc(), &mut File::open(rt, file)?)
}
