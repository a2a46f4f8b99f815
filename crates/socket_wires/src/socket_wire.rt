// The calls of the system on a connection. Each function here makes one of them and notes it. That it makes the call which it notes, no clause can say: so
// each is short, and tests on real connections hold it.
ghost use Rattle.std.specs.Prelude.{◌≡◌, IfOk};
ghost use Rattle.socket_wires.specs.Taking.{IsFreshWire};

use std::io::{self, ErrorKind, Read, Write};
use std::net::{OpenStream, Shutdown, SocketAddr, TcpStream};
use std::time::Duration;
use turns::{CallLog, Wire, WireCallKind, WireFault};

/// For how many seconds a read or a write may wait.
const PATIENCE: u64 = 30;

/// A connection, where it came from, for how long its reads and writes may wait as the system told, and the calls that were made of it.
#[derive(Drop)]
pub struct SocketWire {
    stream: TcpStream,
    from: SocketAddr,
    read_patience: Duration,
    write_patience: Duration,
    made: CallLog,
}

/// Has reads and writes fail that have waited for so long, and asks the system for how long they may.
fn patience_of(stream: &TcpStream, patience: Duration) -> io::Result<(Duration, Duration)> {
    stream.set_nodelay(true)?;
    stream.set_read_timeout(Some(patience))?;
    stream.set_write_timeout(Some(patience))?;
    match (stream.read_timeout()?, stream.write_timeout()?) {
        (Some(read), Some(write)) => Ok((read, write)),
        _ => Err(ErrorKind::Unsupported.into()),
    }
}

impl SocketWire {
    /// A connection whose reads and writes fail once they have waited for 30 seconds.
    pub fn new(stream: TcpStream, from: SocketAddr) -> Result<SocketWire, WireFault>
        ensures unused { IfOk result (λ wire. IsFreshWire wire) }
        ensures from { IfOk result (λ wire. wire.from ≡ from) }
    {
        let patience = Duration::from_secs(PATIENCE);
        match patience_of(&stream, patience) {
            Ok((read, write)) if read == patience && write == patience => Ok(SocketWire {
                stream,
                from,
                read_patience: read,
                write_patience: write,
                made: CallLog::new(),
            }),
            _ => Err(WireFault),
        }
    }

    /// Where it came from.
    pub fn from(&self) -> SocketAddr
        ensures { result ≡ self.now.from }
    {
        self.from
    }
}

impl Wire for SocketWire {
    ghost calls = { λ wire. wire.made.calls };

    fn read(&mut self, buffer: &mut [u8]) -> Result<usize, WireFault> {
        match self.stream.read(buffer) {
            Ok(count) => {
                self.made
                    .note(WireCallKind::Read(buffer.len()), &buffer[..count]);
                Ok(count)
            }
            Err(_) => {
                self.made.note(WireCallKind::ReadFailed(buffer.len()), &[]);
                Err(WireFault)
            }
        }
    }

    fn write(&mut self, bytes: &[u8]) -> Result<usize, WireFault> {
        match self.stream.write(bytes) {
            Ok(count) => {
                self.made.note(WireCallKind::Wrote(count), bytes);
                Ok(count)
            }
            Err(_) => {
                self.made.note(WireCallKind::WriteFailed, bytes);
                Err(WireFault)
            }
        }
    }

    fn close(&mut self) {
        let _ = self.stream.shutdown(Shutdown::Both);
        self.made.note(WireCallKind::Closed, &[]);
    }
}
