// A wire in memory that never waits: a call in two would have to.
ghost use Rattle.std.specs.Prelude.{◌≡◌};

use crate::memory_wire::MemoryWire;
use daily_turns::ReadyWire;
use turns::{CallLog, Wire, WireCallKind, WireFault};

/// A wire of which every other call finds nothing ready, beginning with the first.
#[derive(Drop)]
pub(crate) struct ShyWire {
    wire: MemoryWire,
    is_ready: bool,
    made: CallLog,
}

impl ShyWire {
    pub fn new(wire: MemoryWire) -> ShyWire {
        ShyWire {
            wire,
            is_ready: false,
            made: CallLog::new(),
        }
    }

    pub fn wire(&self) -> &MemoryWire {
        &self.wire
    }

    /// Whether this call finds something; the next one does otherwise.
    fn turns_ready(&mut self) -> bool
        ensures { self.new.made ≡ self.old.made }
    {
        let was = self.is_ready;
        self.is_ready = !was;
        was
    }
}

impl ReadyWire for ShyWire {
    ghost calls = { λ wire. wire.made.calls };

    fn read(&mut self, buffer: &mut [u8]) -> Result<Option<usize>, WireFault> {
        if !self.turns_ready() {
            self.made.note(WireCallKind::ReadWaited(buffer.len()), &[]);
            return Ok(None);
        }
        match self.wire.read(buffer) {
            Ok(count) => {
                self.made
                    .note(WireCallKind::Read(buffer.len()), &buffer[..count]);
                Ok(Some(count))
            }
            Err(fault) => {
                self.made.note(WireCallKind::ReadFailed(buffer.len()), &[]);
                Err(fault)
            }
        }
    }

    fn write(&mut self, bytes: &[u8]) -> Result<Option<usize>, WireFault> {
        if !self.turns_ready() {
            self.made.note(WireCallKind::WriteWaited, bytes);
            return Ok(None);
        }
        match self.wire.write(bytes) {
            Ok(count) => {
                self.made.note(WireCallKind::Wrote(count), bytes);
                Ok(Some(count))
            }
            Err(fault) => {
                self.made.note(WireCallKind::WriteFailed, bytes);
                Err(fault)
            }
        }
    }

    fn close(&mut self) {
        self.wire.close();
        self.made.note(WireCallKind::Closed, &[]);
    }
}
