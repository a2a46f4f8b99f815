// A change that was refused is named.
ghost use Rattle.std.specs.Prelude.{◌≡◌, IfOk, IsUtf8, map, option_map};
ghost use Rattle.std.specs.String.{string_bytes};
ghost use Rattle.gopher_host.specs.Naming as spec;
ghost use Rattle.gopher_host.specs.Naming.{TellsItem, NamesEnd, file_line, names_line};

use crate::fault::Fault;
use change_flaws::{refusal_line, refusal_told, removal_line};
use common_types::Refused;
use host_types::SiteFault;
use std::alloc::{AllocError, Global};
use std::str::from_utf8;

/// The number of a change and why it was refused, where a fault says that one was.
fn refusal_of(fault: &Fault) -> Option<(u64, Refused)>
    ensures { result ≡ spec.refusal_of fault.now }
{
    match fault {
        Fault::Stopped(stopped) => match stopped.fault {
            SiteFault::Refused(refused) => Some((stopped.number, refused)),
            _ => None,
        },
        Fault::Told(text) => refusal_told(text.as_bytes()),
        _ => None,
    }
}

/// The same fault, with a line about that change.
fn with_line(fault: Fault, number: u64, refused: Refused, line: String) -> Fault
    ensures { result ≡ spec.with_line fault number refused line }
{
    match fault {
        Fault::Told(text) => Fault::ToldOf(text, line),
        _ => Fault::Refused(number, refused, line),
    }
}

/// The same fault, with the line that was made for it, if one was.
fn with_any(
    fault: Fault,
    number: u64,
    refused: Refused,
    line: Result<Option<String>, AllocError>,
) -> Fault
    ensures { spec.HasAny line fault number refused result }
{
    match line {
        Ok(Some(line)) => with_line(fault, number, refused, line),
        Ok(None) => fault,
        Err(_) => fault,
    }
}

/// What ended the changes of a file, with a line about the change that was refused, where one was.
fn named(alloc: Global, file: &[u8], fault: Fault) -> Fault
    requires { IsUtf8 file.now }
    ensures { TellsItem (file_line file.now) fault result }
{
    let Some((number, refused)) = refusal_of(&fault) else {
        return fault;
    };
    let Ok(text) = from_utf8(file) else {
        return fault;
    };
    let line = refusal_line(alloc, text, number, refused);
    with_any(fault, number, refused, line)
}

/// How the changes of a file ended, with the change named that was refused, if one was.
pub fn end_named(alloc: Global, file: &[u8], ended: Result<(), Fault>) -> Result<(), Fault>
    requires { IsUtf8 file.now }
    ensures { NamesEnd (file_line file.now) ended result }
{
    match ended {
        Ok(()) => Ok(()),
        Err(fault) => Err(named(alloc, file, fault)),
    }
}

/// The name of a number, from 1.
fn name_of<'a>(names: &[&'a str], number: u64) -> Option<&'a str>
    ensures { option_map (λ name. name.now) result ≡ spec.name_of number (map (λ name. name.now) names.now) }
{
    if number == 0 {
        return None;
    }
    match names.get((number - 1) as usize) {
        Some(name) => Some(*name),
        None => None,
    }
}

/// The line about the change of a number that removes the item of a name and is refused so.
fn line_of_names(
    alloc: Global,
    names: &[&str],
    number: u64,
    refused: Refused,
) -> Result<Option<String>, AllocError>
    ensures { IfOk result (λ said. option_map string_bytes said ≡ names_line (map (λ name. name.now) names.now) number refused) }
{
    match name_of(names, number) {
        Some(name) => Ok(Some(removal_line(alloc, name, number, refused)?)),
        None => Ok(None),
    }
}

/// The same of changes that remove the items of these names.
fn removal_named(alloc: Global, names: &[&str], fault: Fault) -> Fault
    ensures { TellsItem (names_line (map (λ name. name.now) names.now)) fault result }
{
    let Some((number, refused)) = refusal_of(&fault) else {
        return fault;
    };
    let line = line_of_names(alloc, names, number, refused);
    with_any(fault, number, refused, line)
}

/// How it ended that the items of these names were removed, with the change named that was refused, if one was.
pub fn removals_named(alloc: Global, names: &[&str], ended: Result<(), Fault>) -> Result<(), Fault>
    ensures { NamesEnd (names_line (map (λ name. name.now) names.now)) ended result }
{
    match ended {
        Ok(()) => Ok(()),
        Err(fault) => Err(removal_named(alloc, names, fault)),
    }
}
