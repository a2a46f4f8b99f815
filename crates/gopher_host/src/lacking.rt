// Why the image of a task was not had.
ghost use Rattle.std.specs.Prelude.{◌≡◌, None, Err, IfSome};
ghost use Rattle.std.specs.Option.{option_copied};
ghost use Rattle.image_commands.specs.declared.fault.ImageFault.TheVariants.{NoFile};
ghost use Rattle.gopher_host.specs.Lacking as spec;
ghost use Rattle.gopher_host.specs.Lacking.{LooksWhy};
ghost use Rattle.gopher_host.specs.declared.fault.Fault.TheVariants as faults;

use crate::fault::Fault;
use command_words::Task;
use file_names::{Lack, NameLog, look_why};
use image_commands::ImageFault;
use std::fs::{File, Files};

/// The name of a task's image, where it has one.
pub fn image_of<'a>(task: &Task<'a>) -> Option<&'a str>
    ensures { option_copied result ≡ spec.image_of task.now }
{
    match task {
        Task::Format { image, .. }
        | Task::Init { image, .. }
        | Task::Apply { image, .. }
        | Task::Remove { image, .. }
        | Task::Get { image, .. }
        | Task::Posts { image, .. }
        | Task::Show { image, .. }
        | Task::Export { image }
        | Task::Check { image }
        | Task::Compact { image }
        | Task::Upgrade { image }
        | Task::Copy { image, .. }
        | Task::ServeRounds { image, .. }
        | Task::ServeClients { image, .. } => Some(*image),
        Task::Replay { image, .. } => *image,
        Task::Import { .. } => None,
    }
}

/// Whether a task makes its image.
pub fn makes_image(task: &Task<'_>) -> bool
    ensures { result ≡ spec.makes_image task.now }
{
    matches!(task, Task::Format { .. } | Task::Init { .. })
}

/// The fault of an image that was not had for this.
fn not_had(makes: bool, lack: Lack) -> Fault
    ensures { result ≡ spec.not_had makes lack }
{
    if makes {
        Fault::NotMade(lack)
    } else {
        Fault::NotHad(lack)
    }
}

/// How a task ended. Where that was for want of its image, it is looked why the file can't be had, and that is answered.
pub fn explained<R: Files<File = File>>(
    rt: &R,
    names: &mut NameLog,
    image: Option<&str>,
    makes: bool,
    ended: Result<(), Fault>,
) -> Result<(), Fault>
    ensures looked { ended ≡ Err (faults.Image NoFile) → IfSome image.entry (λ name. LooksWhy name.now makes names.old.calls names.new.calls result) }
    ensures other { (ended ≡ Err (faults.Image NoFile) → image.entry ≡ None) → (result ≡ ended) × (names.new.calls ≡ names.old.calls) }
{
    match (ended, image) {
        (Err(Fault::Image(ImageFault::NoFile)), Some(name)) => {
            Err(not_had(makes, look_why(rt, names, name)))
        }
        (ended, _) => ended,
    }
}
