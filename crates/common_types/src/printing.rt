// How bytes, refusals and other faults are printed.
ghost use Rattle.std.specs.Prelude.{◌≡◌, IfOk};
ghost use Rattle.std.specs.String.{string_bytes};
ghost use Rattle.common_types.specs.Shown.{shown};
ghost use Rattle.common_types.specs.PrintedNames as spec;

use crate::Refused;
use bstr::ByteSlice;
use std::alloc::{AllocError, Global};

/// The bytes with escapes for all but printable ASCII and whole characters of more bytes. A space is `\x20`.
pub fn escaped(alloc: Global, bytes: &[u8]) -> Result<String, AllocError>
    ensures { IfOk result (λ t. string_bytes t ≡ shown bytes.now) }
{
    bytes.escape_bytes().to_string(alloc)
}

/// The name of a refusal.
pub fn refused_name(refused: Refused) -> &'static str
    ensures { result.now ≡ spec.refused_name refused }
{
    match refused {
        Refused::BadName => "BadName",
        Refused::TooLong => "TooLong",
        Refused::Reserved => "Reserved",
        Refused::Missing => "Missing",
        Refused::NotEmpty => "NotEmpty",
        Refused::Root => "Root",
        Refused::NotABoard => "NotABoard",
        Refused::WrongAnswers => "WrongAnswers",
        Refused::WrongWord => "WrongWord",
        Refused::Spent => "Spent",
    }
}

/// The name of a fault of room: `Full`, how much is needed, and how much is free.
pub fn full_name(alloc: Global, need: u64, free: u64) -> Result<String, AllocError>
    ensures { IfOk result (λ t. string_bytes t ≡ spec.full_name need free) }
{
    let mut name = format!(in alloc; "Full {need}")?;
    name.push_str(&format!(in alloc; " {free}")?)?;
    Ok(name)
}

/// The line of a change that is not made, without its LF: `change`, its number, and a name behind a colon.
pub fn change_line(alloc: Global, number: u64, name: &str) -> Result<String, AllocError>
    ensures { IfOk result (λ t. string_bytes t ≡ spec.change_line number name.now) }
{
    let mut line = format!(in alloc; "change {number}")?;
    line.push_str(&format!(in alloc; ": {name}")?)?;
    Ok(line)
}
