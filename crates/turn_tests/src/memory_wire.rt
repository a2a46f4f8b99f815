// A wire in memory, and a clock that stands.
ghost use Rattle.std.specs.Prelude.{◌≡◌};

use host_types::Stamp;
use std::alloc::{AllocError, Global};
use turns::{CallLog, Clock, MomentLog, Wire, WireCallKind, WireFault};

/// A wire whose reads give some bytes, and which keeps what was written to it.
#[derive(Drop)]
pub(crate) struct MemoryWire {
    input: Vec<u8>,
    /// How many bytes of the input were read.
    place: usize,
    /// How many bytes a read gives, at most.
    piece: usize,
    /// Whether the input ends; else a further read fails.
    ends: bool,
    /// How many bytes a write takes, at most.
    at_once: usize,
    /// How many bytes are taken before writes fail.
    room: usize,
    written: Vec<u8>,
    closed: u32,
    made: CallLog,
}

impl MemoryWire {
    pub fn new(alloc: Global, input: &[u8]) -> Result<MemoryWire, AllocError> {
        Ok(MemoryWire {
            input: input.to_vec(alloc)?,
            place: 0,
            piece: usize::MAX,
            ends: true,
            at_once: usize::MAX,
            room: usize::MAX,
            written: Vec::new(alloc),
            closed: 0,
            made: CallLog::new(),
        })
    }

    /// The same whose reads give so many bytes, at most.
    pub fn in_pieces(self, piece: usize) -> MemoryWire {
        MemoryWire { piece, ..self }
    }

    /// The same whose reads fail behind the input.
    pub fn stalled(self) -> MemoryWire {
        MemoryWire {
            ends: false,
            ..self
        }
    }

    /// The same whose writes fail behind so many bytes.
    pub fn cut(self, room: usize) -> MemoryWire {
        MemoryWire { room, ..self }
    }

    /// The same whose writes take so many bytes, at most.
    pub fn slow(self, at_once: usize) -> MemoryWire {
        MemoryWire { at_once, ..self }
    }

    pub fn written(&self) -> &[u8] {
        &self.written
    }

    /// How often it was closed.
    pub fn closed(&self) -> u32 {
        self.closed
    }
}

impl Wire for MemoryWire {
    ghost calls = { λ wire. wire.made.calls };

    fn read(&mut self, buffer: &mut [u8]) -> Result<usize, WireFault> {
        let left = self.input.get(self.place..).unwrap_or(&[]);
        let count = left.len().min(self.piece).min(buffer.len());
        if count == 0 && !self.ends {
            self.made.note(WireCallKind::ReadFailed(buffer.len()), &[]);
            return Err(WireFault);
        }
        buffer[..count].copy_from_slice(&left[..count]);
        self.place = self.place.saturating_add(count);
        self.made
            .note(WireCallKind::Read(buffer.len()), &buffer[..count]);
        Ok(count)
    }

    fn write(&mut self, bytes: &[u8]) -> Result<usize, WireFault> {
        let left = self.room.saturating_sub(self.written.len());
        let count = bytes.len().min(self.at_once).min(left);
        if count == 0 || self.written.extend_from_slice(&bytes[..count]).is_err() {
            self.made.note(WireCallKind::WriteFailed, bytes);
            return Err(WireFault);
        }
        self.made.note(WireCallKind::Wrote(count), bytes);
        Ok(count)
    }

    fn close(&mut self) {
        self.closed = self.closed.saturating_add(1);
        self.made.note(WireCallKind::Closed, &[]);
    }
}

/// A clock that always tells the start of 1970.
#[derive(Drop)]
pub(crate) struct StandingClock {
    given: MomentLog,
}

impl StandingClock {
    pub fn new() -> StandingClock {
        StandingClock {
            given: MomentLog::new(),
        }
    }
}

impl Clock for StandingClock {
    ghost given = { λ clock. clock.given.moments };

    fn now(&mut self) -> Stamp {
        let now = Stamp::start();
        self.given.note(now);
        now
    }
}
