// The clock of the system.
ghost use Rattle.std.specs.Prelude.{◌≡◌, List, [], ◌∷◌, ◌++◌, map};
ghost use Rattle.std.specs.Borrow.{ftrue};
ghost use Rattle.socket_wires.specs.Moments.{moment_at};
ghost use Rattle.socket_wires.specs.declared.system_clock.ClockReading.{ClockReading as OneReading};

use host_types::Stamp;
use std::marker::Model;
use std::time::{Clock as Time, SystemTime, UNIX_EPOCH};
use turns::{Clock, MomentLog};

/// The last second of the year 9999.
const LAST_MOMENT: u64 = 253_402_300_799;

/// What the clock of the system told when it was read.
#[derive(Clone, Copy)]
pub enum ClockReading {
    /// This time.
    At(SystemTime),
    /// It could not be read, as where it is set before 1970.
    Unread,
}

/// The readings of the clock, in order. Only clauses read it, and it takes no memory.
#[derive(Drop)]
pub struct ClockLog {
    pub ghost readings: { List OneReading },
}

impl Model for ClockLog {
    ghost also_owns = { λ _. ftrue };
}

impl ClockLog {
    /// No readings.
    pub fn new() -> ClockLog
        ensures { result.readings ≡ [] }
    {
        ClockLog {}
    }

    /// One reading more.
    fn with(_before: &ClockLog, _reading: &ClockReading) -> ClockLog
        ensures { result.readings ≡ _before.now.readings ++ _reading.now ∷ [] }
    {
        ClockLog {}
    }

    /// Notes a reading.
    fn note(&mut self, reading: ClockReading)
        ensures { self.new.readings ≡ self.old.readings ++ reading ∷ [] }
    {
        *self = ClockLog::with(self, &reading);
    }
}

/// The clock of the system, its readings, and the moments that it gave by them.
#[derive(Drop)]
pub struct SystemClock<'a, R: Time> {
    rt: &'a R,
    pub read: ClockLog,
    given: MomentLog,
    ghost told: { given.moments ≡ map moment_at read.readings },
}

impl<'a, R: Time> SystemClock<'a, R> {
    /// A clock that was not read yet.
    pub fn new(rt: &'a R) -> SystemClock<'a, R>
        ensures given { result.given.moments ≡ [] }
        ensures read { result.read.readings ≡ [] }
    {
        SystemClock {
            rt,
            read: ClockLog::new(),
            given: MomentLog::new(),
        }
    }
}

/// The moment of a reading: one past the year 9999 is its last second, and one that could not be read is 0.
fn moment_of(reading: ClockReading) -> Stamp
    ensures { result ≡ moment_at reading }
{
    let ClockReading::At(time) = reading else {
        return Stamp::start();
    };
    let Ok(since) = time.duration_since(UNIX_EPOCH) else {
        unreachable!();
    };
    match Stamp::new(since.as_secs().min(LAST_MOMENT)) {
        Ok(stamp) => stamp,
        Err(_) => unreachable!(),
    }
}

/// Reads the clock of the system. That this is what it tells no clause can say.
fn reading<R: Time>(rt: &R) -> ClockReading {
    match SystemTime::now(rt) {
        Ok(time) => ClockReading::At(time),
        Err(_) => ClockReading::Unread,
    }
}

impl<R: Time> Clock for SystemClock<'_, R> {
    ghost given = { λ clock. clock.given.moments };

    fn now(&mut self) -> Stamp {
        let reading = reading(self.rt);
        self.read.note(reading);
        let now = moment_of(reading);
        self.given.note(now);
        now
    }
}
