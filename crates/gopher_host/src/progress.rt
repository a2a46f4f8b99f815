// How far a command is, on a terminal.
ghost use Rattle.std.specs.Prelude.{◌≡◌, [], OnOk};
ghost use Rattle.std.specs.Io.KnownBytes.{Appends};
ghost use Rattle.gopher_host.specs.ProgressTexts as spec;
ghost use Rattle.gopher_host.specs.ProgressTexts.{progress_text};

use change_file::{Progress, SeenLog};
use std::io;
use std::io::Write;
use std::time::Instant;

/// Standard error among the files of a process.
const STANDARD_ERROR: i32 = 2;

/// How many seconds the other changes take, if they go on as these did.
fn seconds_left(number: u64, count: u64, second: u64) -> u64
    ensures { result ≡ spec.seconds_left number count second }
{
    if number == 0 {
        return 0;
    }
    count.saturating_sub(number).saturating_mul(second) / number
}

/// Writes how many changes are made, and how long the others may take, over what stood in the line.
fn write_over<W: Write>(writer: &mut W, number: u64, count: u64, second: u64) -> io::Result<()>
    ensures { OnOk result (Appends (W.contents writer.old) (W.contents writer.new) (progress_text number count second)) }
{
    let left = seconds_left(number, count, second);
    write!(writer, "\r{number} of {count} changes, {left} s left  ")
}

/// How many changes of a file are made. Where standard error is a terminal, it shows that once a second, in one line that is written over.
#[derive(Drop)]
pub struct Shown<'a> {
    rt: &'a HostRuntime,
    start: Option<Instant>,
    is_terminal: bool,
    /// The second in which the line was written last; 0 where it never was.
    second: u64,
    seen: SeenLog,
}

impl<'a> Shown<'a> {
    /// Nothing is seen yet.
    pub fn new(rt: &'a HostRuntime) -> Shown<'a>
        ensures { result.seen.changes ≡ [] }
    {
        Shown {
            rt,
            start: Instant::now(rt).ok(),
            is_terminal: libc::isatty(STANDARD_ERROR) == 1,
            second: 0,
            seen: SeenLog::new(),
        }
    }

    /// The whole seconds since it was made; 0 where the clock can't be read.
    fn seconds(&self) -> u64 {
        let Some(start) = self.start else {
            return 0;
        };
        match start.elapsed(self.rt) {
            Ok(since) => since.as_secs(),
            Err(_) => 0,
        }
    }

    /// Ends the line, where there is one.
    pub fn end(&self) {
        if self.second > 0 {
            let _ = eprintln!(self.rt);
        }
    }
}

impl Progress for Shown<'_> {
    ghost seen = { λ shown. shown.seen.changes };

    fn made(&mut self, number: u64, count: u64) {
        self.seen.note(number, count);
        if !self.is_terminal {
            return;
        }
        let second = self.seconds();
        if second > self.second {
            self.second = second;
            let _ = write_over(&mut self.rt.stderr(), number, count, second);
        }
    }
}
