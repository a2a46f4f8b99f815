// The calls of the system on an administrator's connection. Each function here makes one of them and notes it. That it makes the call which it notes, no clause can
// say: so each is short, and tests on real connections hold it.
ghost use Rattle.std.specs.Prelude.{◌≡◌, ◌⊎◌, true, []};

use crate::PatientWire;
use daily_turns::ReadyWire;
use libc::types::pollfd;
use mio::net::UnixStream;
use std::io::{ErrorKind, Read, Write};
use std::net::Shutdown;
use std::os::fd::AsRawFd;
use turns::{CallLog, WireCallKind, WireFault};

/// A connection over a Unix socket that never waits, and the calls that were made of it.
#[derive(Drop)]
pub struct UnixWire {
    stream: UnixStream,
    pub made: CallLog,
}

/// A call that a signal ended, or that would have to wait, can be made again once the connection is ready.
fn is_for_later(kind: ErrorKind) -> bool
    ensures waits { kind ≡ ErrorKind.WouldBlock → result ≡ true }
    ensures ended { kind ≡ ErrorKind.Interrupted → result ≡ true }
    ensures only { result ≡ true → (kind ≡ ErrorKind.WouldBlock) ⊎ (kind ≡ ErrorKind.Interrupted) }
{
    matches!(kind, ErrorKind::WouldBlock | ErrorKind::Interrupted)
}

/// For how many milliseconds an administrator is waited for, at most.
const LONGEST_WAIT: i32 = 1000;

impl UnixWire {
    /// A connection of which no call was made.
    pub fn new(stream: UnixStream) -> UnixWire
        ensures { result.made.calls ≡ [] }
    {
        UnixWire {
            stream,
            made: CallLog::new(),
        }
    }
}

impl ReadyWire for UnixWire {
    ghost calls = { λ wire. wire.made.calls };

    fn read(&mut self, buffer: &mut [u8]) -> Result<Option<usize>, WireFault> {
        match self.stream.read(buffer) {
            Ok(count) => {
                self.made
                    .note(WireCallKind::Read(buffer.len()), &buffer[..count]);
                Ok(Some(count))
            }
            Err(error) if is_for_later(error.kind()) => {
                self.made.note(WireCallKind::ReadWaited(buffer.len()), &[]);
                Ok(None)
            }
            Err(_) => {
                self.made.note(WireCallKind::ReadFailed(buffer.len()), &[]);
                Err(WireFault)
            }
        }
    }

    fn write(&mut self, bytes: &[u8]) -> Result<Option<usize>, WireFault> {
        match self.stream.write(bytes) {
            Ok(count) => {
                self.made.note(WireCallKind::Wrote(count), bytes);
                Ok(Some(count))
            }
            Err(error) if is_for_later(error.kind()) => {
                self.made.note(WireCallKind::WriteWaited, bytes);
                Ok(None)
            }
            Err(_) => {
                self.made.note(WireCallKind::WriteFailed, bytes);
                Err(WireFault)
            }
        }
    }

    fn close(&mut self) {
        let _ = self.stream.shutdown(Shutdown::Both);
        self.made.note(WireCallKind::Closed, &[]);
    }
}

impl PatientWire for UnixWire {
    fn read_patiently(&mut self, buffer: &mut [u8]) -> Result<Option<usize>, WireFault> {
        let mut waited_for = [pollfd {
            fd: self.stream.as_raw_fd(),
            events: libc::net::POLLIN,
            revents: 0,
        }];
        let _ = libc::net::poll(&mut waited_for, LONGEST_WAIT);
        self.read(buffer)
    }
}
