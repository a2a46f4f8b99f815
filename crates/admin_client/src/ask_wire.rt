// The calls of the system on a connection to an administrator's office. Each function here makes one of them and notes it. That it makes the call which it notes, no
// clause can say: so each is short, and tests on real connections hold it.
ghost use Rattle.std.specs.Prelude.{◌≡◌, []};

use std::io::{Read, Write};
use std::net::Shutdown;
use std::os::unix::net::UnixStream;
use turns::{CallLog, Wire, WireCallKind, WireFault};

/// A connection over a Unix socket, and the calls that were made of it. Its reads wait as long as the office takes.
#[derive(Drop)]
pub struct AskWire {
    stream: UnixStream,
    pub made: CallLog,
}

impl AskWire {
    /// A connection of which no call was made.
    pub fn new(stream: UnixStream) -> AskWire
        ensures { result.made.calls ≡ [] }
    {
        AskWire {
            stream,
            made: CallLog::new(),
        }
    }
}

impl Wire for AskWire {
    ghost calls = { λ wire. wire.made.calls };

    fn read(&mut self, buffer: &mut [u8]) -> Result<usize, WireFault> {
        match self.stream.read(buffer) {
            Ok(count) => {
                self.made
                    .note(WireCallKind::Read(buffer.len()), &buffer[..count]);
                Ok(count)
            }
            Err(_) => {
                self.made.note(WireCallKind::ReadFailed(buffer.len()), &[]);
                Err(WireFault)
            }
        }
    }

    fn write(&mut self, bytes: &[u8]) -> Result<usize, WireFault> {
        match self.stream.write(bytes) {
            Ok(count) => {
                self.made.note(WireCallKind::Wrote(count), bytes);
                Ok(count)
            }
            Err(_) => {
                self.made.note(WireCallKind::WriteFailed, bytes);
                Err(WireFault)
            }
        }
    }

    fn close(&mut self) {
        let _ = self.stream.shutdown(Shutdown::Both);
        self.made.note(WireCallKind::Closed, &[]);
    }
}
