// How an administrator is told of a change that was not made.
ghost use Rattle.std.specs.Prelude.{◌≡◌, IfOk};
ghost use Rattle.std.specs.String.{string_bytes};
ghost use Rattle.gopher_host.specs.Advice.{met_by};
ghost use Rattle.gopher_host.specs.Faults as spec;

use crate::advice::refused_advice;
use admin_office::FaultTexts;
use change_file::ApplyFault;
use host_types::SiteFault;
use image_runs::stopped_line;
use std::alloc::{AllocError, Global};

/// Tells of a change that was not made by the lines that the program says where it makes changes by itself.
#[derive(Clone, Copy, Debug, Drop)]
pub struct StoppedTexts;

/// A line, and another one where it is not empty, without the last LF.
fn lines_with(alloc: Global, line: &str, other: &str) -> Result<String, AllocError>
    ensures { IfOk result (λ t. string_bytes t ≡ spec.lines_with line.now other.now) }
{
    if other.is_empty() {
        String::from_str(alloc, line)
    } else {
        format!(in alloc; "{line}\n{other}")
    }
}

/// Which change met a fault of the image, without the LF.
fn met_line(alloc: Global, number: u64) -> Result<String, AllocError>
    ensures { IfOk result (λ t. string_bytes t ≡ met_by number) }
{
    format!(in alloc; "Change {number} met this; those before it are made.")
}

impl FaultTexts for StoppedTexts {
    ghost says = { λ _. spec.stopped_lines };

    fn text(&self, alloc: Global, stopped: ApplyFault) -> Result<String, AllocError> {
        let line = stopped_line(alloc, stopped)?;
        match stopped.fault {
            SiteFault::Refused(refused) => lines_with(alloc, &line, refused_advice(refused)),
            _ => lines_with(alloc, &line, &met_line(alloc, stopped.number)?),
        }
    }
}
