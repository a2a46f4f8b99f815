// How serving and a script end.
ghost use Rattle.std.specs.Prelude.{◌≡◌};
ghost use Rattle.gopher_host.specs.Endings as spec;

use crate::fault::Fault;
use daily_server::DailyFault;
use host_on_disk::OpenFault;
use image_commands::ImageFault;
use image_server::ServingFault;
use std::io;

/// Clients were served until that could not go on.
pub fn serving_ended(given: Result<Result<(), DailyFault>, ServingFault>) -> Result<(), Fault>
    ensures { result ≡ spec.serving_ended given }
{
    match given {
        Ok(Ok(())) => Ok(()),
        Ok(Err(fault)) => Err(Fault::Serving(ServingFault::from(fault))),
        Err(fault) => Err(Fault::Serving(fault)),
    }
}

/// A script came to its end, or a fault ended it.
pub fn replay_ended(
    given: Result<Result<(), host_script::ReplayFault>, OpenFault>,
) -> Result<(), Fault>
    ensures { result ≡ spec.replay_ended given }
{
    match given {
        Ok(Ok(())) => Ok(()),
        Ok(Err(fault)) => Err(Fault::Script(fault)),
        Err(fault) => Err(Fault::Image(ImageFault::from(fault))),
    }
}

/// What was left to write was written, or could not be.
pub fn all_written(ended: Result<(), Fault>, written: io::Result<()>) -> Result<(), Fault>
    ensures { result ≡ spec.all_written ended written }
{
    match (ended, written) {
        (Err(fault), _) => Err(fault),
        (Ok(()), Ok(())) => Ok(()),
        (Ok(()), Err(_)) => Err(Fault::of_output()),
    }
}
