// What is printed of a change that was not made.
ghost use Rattle.std.specs.Prelude.{◌≡◌, IfOk};
ghost use Rattle.std.specs.String.{string_bytes};
ghost use Rattle.image_runs.specs.StoppedLines as spec;

use change_file::ApplyFault;
use common_types::{change_line, refused_name};
use host_types::SiteFault;
use image_commands::{ImageFault, fault_line};
use std::alloc::{AllocError, Global};

/// The line of a change that was not made, without its LF: a refusal by its name and the change's number, and the image's own fault by its name.
pub fn stopped_line(alloc: Global, stopped: ApplyFault) -> Result<String, AllocError>
    ensures { IfOk result (λ t. string_bytes t ≡ spec.stopped_line stopped) }
{
    match stopped.fault {
        SiteFault::Refused(refused) => change_line(alloc, stopped.number, refused_name(refused)),
        fault => fault_line(alloc, ImageFault::from(fault)),
    }
}
