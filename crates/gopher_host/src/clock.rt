// The moment of a command.
ghost use Rattle.gopher_host.specs.Clock.{IsMoment, TellsMoment};

use host_types::Stamp;
use socket_wires::SystemClock;
use std::time::Clock as Time;
use turns::Clock;

/// The seconds since 1970-01-01 of a command: those that it is given, or else those that the system's clock tells.
pub fn seconds_of<R: Time>(given: Option<u64>, clock: &mut SystemClock<'_, R>) -> u64
    ensures { IsMoment given clock.old.read.readings clock.new.read.readings result }
{
    match given {
        Some(seconds) => seconds,
        None => clock.now().seconds(),
    }
}

/// The moment that the system's clock tells.
pub fn moment_now<R: Time>(clock: &mut SystemClock<'_, R>) -> Stamp
    ensures { TellsMoment clock.old.read.readings clock.new.read.readings result }
{
    clock.now()
}
