// Lines of a body, given as text into a buffer.
ghost use Rattle.std.specs.Prelude.{◌≡◌, ◌<◌, ◌≤◌, ◌+◌, ◌++◌, ◌∷◌, ℕ, List, [], length, take, drop};
ghost use Rattle.host_types.specs.SiteState.{IsUnchangedBehind};
ghost use Rattle.text_writer.specs.Place as spec;
ghost use Rattle.text_writer.specs.Place.{given_from};

use crate::place::{LinePlace, MOST, after, behind_run, give_byte, run_length};

/// How many bytes of a body were taken, where the text ends in the buffer, and the place in the body.
#[derive(Clone, Copy)]
pub struct Passed {
    pub taken: usize,
    pub end: usize,
    pub place: LinePlace,
}

/// Copies the bytes to the places from `at` on.
pub fn copy_to(bytes: &[u8], out: &mut [u8], at: usize)
    requires { at + length bytes.now ≤ length out.old }
    ensures bytes { take (at + length bytes.now) out.new ≡ take at out.old ++ bytes.now }
    ensures behind { IsUnchangedBehind (at + length bytes.now) out.old out.new }
    ensures length { length out.new ≡ length out.old }
{
    out[at..at + bytes.len()].copy_from_slice(bytes);
}

/// Gives the next bytes that are sent as they are, from the place `at` on, as far as there is room, and says how many.
fn give_run(place: LinePlace, rest: &[u8], out: &mut [u8], at: usize) -> usize
    requires { at ≤ length out.old }
    ensures taken { result ≤ length rest.now }
    ensures within { at + result ≤ length out.new }
    ensures given { (more : List ℕ) → take (at + result) out.new ++ given_from (spec.behind_run place result) (drop result rest.now ++ more) ≡ take at out.old ++ given_from place (rest.now ++ more) }
    ensures behind { IsUnchangedBehind (at + result) out.old out.new }
{
    let next = &rest[..rest.len().min(out.len() - at)];
    let run = run_length(place, next);
    copy_to(&next[..run], out, at);
    run
}

/// Gives what the first byte gives, and the run behind it.
fn give_line(place: LinePlace, rest: &[u8], out: &mut [u8], at: usize) -> Passed
    requires some { 0 < length rest.now }
    requires room { at + 2 ≤ length out.old }
    ensures some { 0 < result.taken }
    ensures taken { result.taken ≤ length rest.now }
    ensures onward { at ≤ result.end }
    ensures within { result.end ≤ length out.new }
    ensures given { (more : List ℕ) → take result.end out.new ++ given_from result.place (drop result.taken rest.now ++ more) ≡ take at out.old ++ given_from place (rest.now ++ more) }
    ensures behind { IsUnchangedBehind result.end out.old out.new }
{
    let byte = rest[0];
    let end = give_byte(place, byte, out, at);
    let place = after(place, byte);
    let run = give_run(place, &rest[1..], out, end);
    Passed {
        taken: 1 + run,
        end: end + run,
        place: behind_run(place, run),
    }
}

/// Gives what the bytes give, from the place `at` on, as long as there is room for what each of them may give.
pub fn give_lines(start: LinePlace, rest: &[u8], out: &mut [u8], at: usize) -> Passed
    requires { at ≤ length out.old }
    ensures taken { result.taken ≤ length rest.now }
    ensures onward { at ≤ result.end }
    ensures within { result.end ≤ length out.new }
    ensures given { (more : List ℕ) → take result.end out.new ++ given_from result.place (drop result.taken rest.now ++ more) ≡ take at out.old ++ given_from start (rest.now ++ more) }
    ensures behind { IsUnchangedBehind result.end out.old out.new }
{
    let mut taken = 0;
    let mut end = at;
    let mut place = start;
    while taken < rest.len() && out.len() - end >= MOST {
        let line = give_line(place, &rest[taken..], out, end);
        taken += line.taken;
        end = line.end;
        place = line.place;
    }
    Passed { taken, end, place }
}
