// The calls of the system on a connection. Each function here makes one of them and notes it. That it makes the call which it notes, no clause can say: so
// each is short, and tests on real connections hold it.
ghost use Rattle.std.specs.Prelude.{◌≡◌, ◌==◌, ◌⊎◌, true, [], IfOk};
ghost use Rattle.std.specs.List.{list_any};
ghost use Rattle.daily_server.specs.Sent.{head_of, asked_by, has_line, taken_by};
ghost use Rattle.daily_server.specs.Stored.{stored_by, told_of};
ghost use Rattle.std.specs.Option.{option_copied};

use crate::Head;
use daily_turns::ReadyWire;
use mio::net::TcpStream;
use std::io::{ErrorKind, Read, Write};
use std::net::Shutdown;
use turns::{CallLog, WireCallKind, WireFault};

/// A connection that never waits, the calls that were made of it, and what the log says of it.
#[derive(Drop)]
pub struct ReadySocket {
    stream: TcpStream,
    made: CallLog,
    head: Head,
    told: Head,
    line: bool,
    taken: u64,
    ghost head_is: { head.bytes.items ≡ head_of made.calls },
    ghost told_is: { told.bytes.items ≡ told_of made.calls },
    ghost line_is: { line ≡ has_line made.calls },
    ghost taken_is: { taken ≡ taken_by made.calls },
}

/// A call that a signal ended, or that would have to wait, can be made again once the connection is ready.
fn is_for_later(kind: ErrorKind) -> bool
    ensures waits { kind ≡ ErrorKind.WouldBlock → result ≡ true }
    ensures ended { kind ≡ ErrorKind.Interrupted → result ≡ true }
    ensures only { result ≡ true → (kind ≡ ErrorKind.WouldBlock) ⊎ (kind ≡ ErrorKind.Interrupted) }
{
    matches!(kind, ErrorKind::WouldBlock | ErrorKind::Interrupted)
}

/// Whether an LF is among these bytes.
fn has_lf(bytes: &[u8]) -> bool
    ensures { result ≡ list_any (λ b. b == 10) bytes.now }
{
    bytes.iter().any(|byte| *byte == b'\n')
}

impl ReadySocket {
    /// A connection of which no call was made.
    pub fn new(stream: TcpStream) -> ReadySocket
        ensures { result.made.calls ≡ [] }
    {
        ReadySocket {
            stream,
            made: CallLog::new(),
            head: Head::new(),
            told: Head::new(),
            line: false,
            taken: 0,
        }
    }

    /// The selector that was asked for, as far as the log looks at it.
    pub fn selector(&self) -> &[u8]
        ensures { result.now ≡ asked_by self.now.made.calls }
    {
        self.head.selector()
    }

    /// The post that the client stored, by the first line of its reply.
    pub fn stored(&self) -> Option<&[u8]>
        ensures { option_copied result ≡ stored_by self.now.made.calls }
    {
        if self.head.has_data() {
            self.told.named()
        } else {
            None
        }
    }

    /// Whether a line of what the client sent has come whole.
    pub fn has_line(&self) -> bool
        ensures { result ≡ has_line self.now.made.calls }
    {
        self.line
    }

    /// How many bytes the client took, at most the greatest u64.
    pub fn taken(&self) -> u64
        ensures { result ≡ taken_by self.now.made.calls }
    {
        self.taken
    }
}

impl ReadyWire for ReadySocket {
    ghost calls = { λ wire. wire.made.calls };

    fn read(&mut self, buffer: &mut [u8]) -> Result<Option<usize>, WireFault> {
        match self.stream.read(buffer) {
            Ok(count) => {
                self.made
                    .note(WireCallKind::Read(buffer.len()), &buffer[..count]);
                self.head.hear(&buffer[..count]);
                self.line |= has_lf(&buffer[..count]);
                Ok(Some(count))
            }
            Err(error) if is_for_later(error.kind()) => {
                self.made.note(WireCallKind::ReadWaited(buffer.len()), &[]);
                Ok(None)
            }
            Err(_) => {
                self.made.note(WireCallKind::ReadFailed(buffer.len()), &[]);
                Err(WireFault)
            }
        }
    }

    fn write(&mut self, bytes: &[u8]) -> Result<Option<usize>, WireFault> {
        self.told.hear(bytes);
        match self.stream.write(bytes) {
            Ok(count) => {
                self.made.note(WireCallKind::Wrote(count), bytes);
                self.taken = self.taken.saturating_add(count as u64);
                Ok(Some(count))
            }
            Err(error) if is_for_later(error.kind()) => {
                self.made.note(WireCallKind::WriteWaited, bytes);
                Ok(None)
            }
            Err(_) => {
                self.made.note(WireCallKind::WriteFailed, bytes);
                Err(WireFault)
            }
        }
    }

    fn close(&mut self) {
        let _ = self.stream.shutdown(Shutdown::Both);
        self.made.note(WireCallKind::Closed, &[]);
    }
}
