// The lines that tell what is left out.
ghost use Rattle.std.specs.Prelude.{◌≡◌, ◌++◌, IfOk, OnOk, string_bytes};
ghost use Rattle.folder_import.specs.LeftOut as spec;

use crate::ImportFault;
use crate::found::Reason;
use common_types::{Refused, escaped, refused_name};
use gophermap::LineFault;
use std::alloc::{AllocError, Global};

/// Adds the line of what is left out: its path, and why.
pub fn note(alloc: Global, lines: &mut String, path: &[u8], why: &str) -> Result<(), AllocError>
    ensures { OnOk result (string_bytes lines.new ≡ string_bytes lines.old ++ spec.left_out path.now why.now) }
{
    let path = escaped(alloc, path)?;
    lines.push_str("import: ")?;
    lines.push_str(&path)?;
    lines.push_str(": ")?;
    lines.push_str(why)?;
    lines.push_str("\n")
}

/// Why a file or a folder is left out.
pub fn why_of(reason: Reason) -> &'static str
    ensures { result.now ≡ spec.why_of reason }
{
    match reason {
        Reason::Refused(refused) => refused_name(refused),
        Reason::Kind => "Kind",
        Reason::Unread => "NoFile",
        Reason::Unsaid => "not UTF-8",
    }
}

/// Why a line or a menu is left out.
pub fn import_why(fault: ImportFault) -> &'static str
    ensures { result.now ≡ spec.import_why fault }
{
    match fault {
        ImportFault::Name(refused) => refused_name(refused),
        ImportFault::Place => "host without its port",
        ImportFault::Unsaid => "not UTF-8",
        ImportFault::Memory => "memory",
    }
}

/// The field of a line that is refused, where it is one.
fn line_field(fault: LineFault) -> &'static str
    ensures { result.now ≡ spec.line_field fault }
{
    match fault {
        LineFault::Title(_) => "title: ",
        LineFault::Selector(_) => "selector: ",
        LineFault::Link(_) => "link: ",
        LineFault::Host(_) => "host: ",
        LineFault::Order | LineFault::Fields | LineFault::Kind | LineFault::Port => "",
    }
}

fn line_name(fault: LineFault) -> &'static str
    ensures { result.now ≡ spec.line_name fault }
{
    match fault {
        LineFault::Order => "order",
        LineFault::Fields => "fields",
        LineFault::Kind => "type",
        LineFault::Title(refused)
        | LineFault::Selector(refused)
        | LineFault::Link(refused)
        | LineFault::Host(refused) => refused_name(refused),
        LineFault::Port => "port",
    }
}

/// Why a line of a gophermap is refused.
pub fn line_why(alloc: Global, fault: LineFault) -> Result<String, AllocError>
    ensures { IfOk result (λ why. string_bytes why ≡ spec.line_field fault ++ spec.line_name fault) }
{
    let mut why = String::from_str(alloc, line_field(fault))?;
    why.push_str(line_name(fault))?;
    Ok(why)
}

/// Why a line is left out, with its number.
pub fn at_line(alloc: Global, number: u64, why: &str) -> Result<String, AllocError>
    ensures { IfOk result (λ told. string_bytes told ≡ spec.at_line number why.now) }
{
    format!(in alloc; "line {number}: {why}")
}
