// The time since serving began, on a clock that only goes forward.
ghost use Rattle.std.specs.Prelude.{◌≡◌, All, List, [], ◌∷◌, ◌++◌};
ghost use Rattle.std.specs.Borrow.{ftrue};
ghost use Rattle.daily_server.specs.Readings.{seconds_of, IsFrom};
ghost use Rattle.daily_server.specs.declared.stopwatch.Reading.{Reading as OneReading};

use std::marker::Model;
use std::time::{Clock as Time, Instant};

/// What a clock told when it was read.
#[derive(Clone, Copy)]
pub enum Reading {
    /// The moment of its start, and the one that it tells.
    Since(Instant, Instant),
    /// It could not be read.
    Unread,
}

/// The readings of a clock, in order. Only clauses read it, and it takes no memory.
#[derive(Drop)]
pub struct ReadingLog {
    pub ghost readings: { List OneReading },
}

impl Model for ReadingLog {
    ghost also_owns = { λ _. ftrue };
}

impl ReadingLog {
    /// No readings.
    pub fn new() -> ReadingLog
        ensures { result.readings ≡ [] }
    {
        ReadingLog {}
    }

    /// One reading more.
    fn with(_before: &ReadingLog, _reading: &Reading) -> ReadingLog
        ensures { result.readings ≡ _before.now.readings ++ _reading.now ∷ [] }
    {
        ReadingLog {}
    }

    /// Notes a reading.
    fn note(&mut self, reading: Reading)
        ensures { self.new.readings ≡ self.old.readings ++ reading ∷ [] }
    {
        *self = ReadingLog::with(self, &reading);
    }
}

/// A clock that was started, and what it told since.
#[derive(Drop)]
pub struct Stopwatch {
    start: Option<Instant>,
    pub read: ReadingLog,
    ghost one_start: { All (IsFrom start) read.readings },
}

impl Stopwatch {
    /// One that starts now, and was not read yet.
    pub fn start<R: Time>(rt: &R) -> Stopwatch
        ensures { result.read.readings ≡ [] }
    {
        Stopwatch {
            start: Instant::now(rt).ok(),
            read: ReadingLog::new(),
        }
    }

    /// Reads the clock. That this is what the clock tells no clause can say.
    fn reading<R: Time>(&self, rt: &R) -> Reading
        ensures { IsFrom self.now.start result }
    {
        match (self.start, Instant::now(rt)) {
            (Some(start), Ok(now)) => Reading::Since(start, now),
            _ => Reading::Unread,
        }
    }

    /// The whole seconds since the start, by a reading that is noted; 0 where the clock can't be read.
    pub(crate) fn seconds<R: Time>(&mut self, rt: &R) -> u64
        ensures { (reading : OneReading) × (self.new.read.readings ≡ self.old.read.readings ++ reading ∷ []) × (result ≡ seconds_of reading) }
    {
        let reading = self.reading(rt);
        self.read.note(reading);
        match reading {
            Reading::Since(start, now) => now.duration_since(start).as_secs(),
            Reading::Unread => 0,
        }
    }
}
