// Answers as the program prints them.
ghost use Rattle.std.specs.Prelude.{◌≡◌, IfOk};
ghost use Rattle.std.specs.String.{string_bytes};
ghost use Rattle.host_script.specs.Printed as spec;
ghost use Rattle.group_world.specs.declared.fault.HubFault.TheVariants.{Full};

use crate::fault::ReplayFault;
use common_types::{escaped, full_name, refused_name};
use group_world::{HubFault, Outcome};
use host_types::Refused;
use std::alloc::{AllocError, Global};

/// The line of a refusal, without its LF: `fault`, a space, and its name.
pub fn refused_line(alloc: Global, refused: Refused) -> Result<String, AllocError>
    ensures { IfOk result (λ t. string_bytes t ≡ spec.refused_line refused) }
{
    let name = refused_name(refused);
    format!(in alloc; "fault {name}")
}

fn full_line(alloc: Global, need: u64, free: u64) -> Result<String, AllocError>
    ensures { IfOk result (λ t. string_bytes t ≡ spec.fault_line (Full need free)) }
{
    let name = full_name(alloc, need, free)?;
    format!(in alloc; "fault {name}")
}

/// The line of a fault, without its LF: `fault`, a space, and its name.
pub fn fault_line(alloc: Global, fault: HubFault) -> Result<String, AllocError>
    ensures { IfOk result (λ t. string_bytes t ≡ spec.fault_line fault) }
{
    let line = match fault {
        HubFault::Refused(refused) => return refused_line(alloc, refused),
        HubFault::Full { need, free } => return full_line(alloc, need, free),
        HubFault::Unknown => "fault Unknown",
        HubFault::Crowded => "fault Crowded",
        HubFault::Spent => "fault Spent",
        HubFault::Broken => "fault Broken",
        HubFault::Failed => "fault Failed",
        HubFault::Memory => "fault Memory",
        HubFault::NotReady => "fault NotReady",
        HubFault::Deep => "fault Deep",
    };
    String::from_str(alloc, line)
}

/// What standard error gets of a run that ends with status 1, without its LF.
pub fn fault_text(alloc: Global, fault: &ReplayFault) -> Result<String, AllocError>
    ensures { IfOk result (λ t. string_bytes t ≡ spec.fault_text fault.now) }
{
    match fault {
        ReplayFault::Script(number) => format!(in alloc; "script: line {number}"),
        ReplayFault::Memory => String::from_str(alloc, "memory"),
        ReplayFault::Output => String::from_str(alloc, "output"),
    }
}

/// The line of a flush, without its LF: how many of those that waited are answered, and how many are left.
fn flushed_line(alloc: Global, answered: usize, left: usize) -> Result<String, AllocError>
    ensures { IfOk result (λ t. string_bytes t ≡ spec.flushed_line answered left) }
{
    let mut line = format!(in alloc; "flushed {answered}")?;
    line.push_str(&format!(in alloc; " left {left}")?)?;
    Ok(line)
}

/// The line of an outcome, without its LF.
pub fn line_of(alloc: Global, outcome: &Outcome) -> Result<String, AllocError>
    ensures { IfOk result (λ t. string_bytes t ≡ spec.line_of outcome.now) }
{
    match outcome {
        Outcome::Joined(id) => format!(in alloc; "id {id}"),
        Outcome::More => String::from_str(alloc, "more"),
        Outcome::Ready => String::from_str(alloc, "ready"),
        Outcome::Finished => String::from_str(alloc, "finished"),
        Outcome::Waiting => String::from_str(alloc, "waiting"),
        Outcome::Drawn(bytes) => {
            let mut line = String::from_str(alloc, "drawn ")?;
            line.push_str(&escaped(alloc, bytes.as_slice())?)?;
            Ok(line)
        }
        Outcome::Gone | Outcome::Done => String::from_str(alloc, "ok"),
        Outcome::Flushed { answered, left } => flushed_line(alloc, *answered, *left),
        Outcome::Fault(fault) => fault_line(alloc, *fault),
    }
}
