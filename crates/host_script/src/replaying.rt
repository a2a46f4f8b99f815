// Runs a script over a hub.
ghost use Rattle.std.specs.Prelude.{◌≡◌, ℕ, false, List, [], ◌∷◌, ◌++◌, None, Err, IfSome, OnOk, IfErr, OnErr, IsUtf8};
ghost use Rattle.std.specs.List.{list_any};
ghost use Rattle.std.specs.Io.KnownBytes.{Appends};
ghost use Rattle.std.specs.String.{string_bytes};
ghost use Rattle.group_hub.specs.Calls.{RunsHub};
ghost use Rattle.host_script.specs.Script.{line_command};
ghost use Rattle.host_script.specs.Lines.{RanBy, RanSo, Runs, place_at, place_of, IsLineAnswer, RunsLine, MayRun, Stops, StopsIn, StopsAtEnd, IsScriptStopped, Halts, IsLastRun, IsReplayed, is_lf, TakesBytes};

use crate::asking::{ParsedLine, ask};
use crate::fault::ReplayFault;
use crate::printed::{line_of, refused_line};
use crate::script::{ScriptLineFault, parse};
use crate::writing::write_line;
use group_hub::Hub;
use group_world::Event;
use host_types::Stamp;
use std::alloc::{AllocError, Global};
use std::io::{Read, Write};
use word_search::SearchKeeper;

/// How many bytes a read of a script asks for.
const PIECE: usize = 4096;

/// How many reads a script may take.
pub const MOST_READS: u64 = 1_000_000;

/// What is printed of an event.
fn answer<S: SearchKeeper>(
    alloc: Global,
    hub: &mut Hub<S>,
    event: Event,
) -> Result<String, AllocError>
    ensures answer { Runs RunsHub hub.old hub.new result (λ ran a b printed. RanBy ran a b (IsLineAnswer event (string_bytes printed))) }
    ensures lost { OnErr result ((printed : List ℕ) × RanBy RunsHub hub.old hub.new (IsLineAnswer event printed)) }
{
    let Ok(outcomes) = hub.run(&[event]) else {
        return String::from_str(alloc, "fault Memory");
    };
    match outcomes.as_slice() {
        [outcome] => line_of(alloc, outcome),
        _ => unreachable!(),
    }
}

/// The moment after a line of a script, and what is printed of it.
fn answer_line<S: SearchKeeper>(
    alloc: Global,
    hub: &mut Hub<S>,
    line: &[u8],
    now: Stamp,
) -> Result<(Stamp, String), ScriptLineFault>
    ensures line { Runs RunsHub hub.old hub.new result (λ ran a b (after, printed). RanBy ran a b (RunsLine now after line.now (string_bytes printed))) }
    ensures form { result ≡ Err ScriptLineFault.Form → (hub.new ≡ hub.old) × (IsUtf8 line.now → line_command line.now ≡ None) }
    ensures lost { result ≡ Err ScriptLineFault.Memory → RanBy RunsHub hub.old hub.new (MayRun now line.now) }
{
    match ask(alloc, parse(alloc, line)?, now)? {
        ParsedLine::Moment(moment) => Ok((moment, String::from_str(alloc, "ok")?)),
        ParsedLine::Event(event) => Ok((now, answer(alloc, hub, event)?)),
        ParsedLine::Refused(refused) => Ok((now, refused_line(alloc, refused)?)),
    }
}

/// Runs one line of a script, and answers the moment after it.
fn run_line<S: SearchKeeper, W: Write>(
    alloc: Global,
    hub: &mut Hub<S>,
    writer: &mut W,
    now: Stamp,
    number: u64,
    line: &[u8],
) -> Result<Stamp, ReplayFault>
    ensures line { Runs RunsHub hub.old hub.new result (λ ran a b after. (printed : List ℕ) × RanBy ran a b (RunsLine now after line.now printed) × Appends (W.contents writer.old) (W.contents writer.new) (printed ++ 10 ∷ [])) }
    ensures stops { IfErr result (λ fault. RanBy RunsHub hub.old hub.new (Stops (W.contents writer.old) (W.contents writer.new) (place_at now number) line.now fault)) }
{
    let (moment, printed) = match answer_line(alloc, hub, line, now) {
        Ok(answered) => answered,
        Err(ScriptLineFault::Form) => return Err(ReplayFault::Script(number)),
        Err(ScriptLineFault::Memory) => return Err(ReplayFault::Memory),
    };
    write_line(writer, &printed)?;
    Ok(moment)
}

/// Where a script stands: the line so far, its number, and the moment.
#[derive(Drop)]
struct Place {
    line: Vec<u8>,
    number: u64,
    moment: Stamp,
}

/// Takes one byte of a script, and runs the line that it ends.
fn run_byte<S: SearchKeeper, W: Write>(
    alloc: Global,
    hub: &mut Hub<S>,
    writer: &mut W,
    place: &mut Place,
    byte: u8,
) -> Result<(), ReplayFault>
    ensures run { Runs RunsHub hub.old hub.new result (λ ran a b _. TakesBytes ran a b place.old place.new (W.contents writer.old) (W.contents writer.new) (byte ∷ [])) }
    ensures stops { IfErr result (λ fault. RanBy RunsHub hub.old hub.new (StopsIn (W.contents writer.old) (W.contents writer.new) (place_of place.old) place.old.line.items (byte ∷ []) fault)) }
{
    if byte != b'\n' {
        return match place.line.push(byte) {
            Ok(()) => Ok(()),
            Err(_) => Err(ReplayFault::Memory),
        };
    }
    place.moment = run_line(alloc, hub, writer, place.moment, place.number, &place.line)?;
    place.line.clear();
    place.number = place.number.saturating_add(1);
    Ok(())
}

/// Takes the next piece of a script, and runs the lines that it ends.
fn run_piece<S: SearchKeeper, W: Write>(
    alloc: Global,
    hub: &mut Hub<S>,
    writer: &mut W,
    place: &mut Place,
    piece: &[u8],
) -> Result<(), ReplayFault>
    ensures run { Runs RunsHub hub.old hub.new result (λ ran a b _. TakesBytes ran a b place.old place.new (W.contents writer.old) (W.contents writer.new) piece.now) }
    ensures stops { list_any is_lf place.old.line.items ≡ false → IfErr result (λ fault. RanBy RunsHub hub.old hub.new (IsScriptStopped fault (place_of place.old) (W.contents writer.old) (W.contents writer.new) place.old.line.items piece.now)) }
{
    for byte in piece {
        run_byte(alloc, hub, writer, place, *byte)?;
    }
    Ok(())
}

/// Runs what stands behind the last LF, where it has bytes.
fn run_last<S: SearchKeeper, W: Write>(
    alloc: Global,
    hub: &mut Hub<S>,
    writer: &mut W,
    place: &Place,
) -> Result<(), ReplayFault>
    ensures run { Runs RunsHub hub.old hub.new result (λ ran a b _. IsLastRun ran a b place.now.moment (W.contents writer.old) (W.contents writer.new) place.now.line.items) }
    ensures stops { IfErr result (λ fault. RanBy RunsHub hub.old hub.new (StopsAtEnd (W.contents writer.old) (W.contents writer.new) (place_of place.now) place.now.line.items fault)) }
{
    let line = place.line.as_slice();
    if line.is_empty() {
        return Ok(());
    }
    let _ = run_line(alloc, hub, writer, place.moment, place.number, line)?;
    Ok(())
}

/// Reads a script to its end, a line at a time, and prints one line for each. Lines count from 1, and the last may lack
/// its LF. A line of another form, a read that fails, and the end of the reads that it may take end it as `ReplayFault::Script`;
/// all lines before it were run and printed then, and after the other faults too.
pub fn replay<R: Read, W: Write, S: SearchKeeper>(
    alloc: Global,
    reader: &mut R,
    writer: &mut W,
    hub: &mut Hub<S>,
) -> Result<(), ReplayFault>
    ensures run { OnOk result (IfSome (R.remaining reader.old) (IsReplayed RunsHub hub.old hub.new (W.contents writer.old) (W.contents writer.new))) }
    ensures halted { IfErr result (Halts RunsHub hub.old hub.new (W.contents writer.old) (W.contents writer.new) (R.remaining reader.new) (R.remaining reader.old)) }
    // Whatever is answered, the hub was run by some events, so a crash at any moment leaves what a run of these may leave.
    ensures ran { RanSo RunsHub hub.old hub.new }
{
    let mut buffer = [0; PIECE];
    let mut place = Place {
        line: Vec::new(alloc),
        number: 1,
        moment: Stamp::start(),
    };
    for _ in 0..MOST_READS {
        let Ok(count) = reader.read(&mut buffer) else {
            return Err(ReplayFault::Script(place.number));
        };
        if count == 0 {
            return run_last(alloc, hub, writer, &place);
        }
        run_piece(alloc, hub, writer, &mut place, &buffer[..count])?;
    }
    Err(ReplayFault::Script(place.number))
}
