// An image that a command reads, also where a server has it.
ghost use Rattle.std.specs.Prelude.{None};
ghost use Rattle.gopher_host.specs.Held.{LetsGo, OnHeld, OnServed, HasImage};

use crate::asking::socket_name;
use crate::fault::Fault;
use crate::opening::open;
use admin_client::{AnswerFault, AskWire, hold, release};
use admin_socket::{SocketLog, connect_to};
use file_device::{FileDevice, UsedFiles};
use image_commands::ImageFault;
use std::alloc::Global;
use std::net::Net;

/// Lets a server go on that held still. Where it did not until now, that is the fault.
fn let_go(alloc: Global, wire: &mut AskWire) -> Result<(), Fault>
    ensures { LetsGo wire.old.made.calls wire.new.made.calls result }
{
    match release(alloc, wire) {
        Ok(answer) => {
            if answer.done {
                Ok(())
            } else {
                Err(Fault::NotHeld)
            }
        }
        Err(AnswerFault::Reply(_)) => Err(Fault::NotHeld),
        Err(AnswerFault::Memory) => Err(Fault::of_memory()),
    }
}

/// The image in a file, as it is while the server on this wire holds still.
fn open_held(
    alloc: Global,
    used: &mut UsedFiles<'_, HostRuntime>,
    image: &str,
    wire: &mut AskWire,
) -> Result<FileDevice, Fault>
    ensures { OnHeld image.now used.old.log.uses used.new.log.uses result }
{
    if !hold(wire) {
        return Err(Fault::NotHeld);
    }
    let device = match used.open_to_read(image) {
        Ok(device) => device,
        Err(fault) => return Err(Fault::Image(ImageFault::from(fault))),
    };
    match let_go(alloc, wire) {
        Ok(()) => Ok(device),
        Err(fault) => {
            used.close(device);
            Err(fault)
        }
    }
}

/// The image in a file that another program has, if a server answers on the socket beside it.
fn open_served<R: Net + AllocGlobal>(
    rt: &R,
    used: &mut UsedFiles<'_, HostRuntime>,
    sockets: &mut SocketLog,
    image: &str,
) -> Result<FileDevice, Fault>
    ensures { OnServed image.now used.old.log.uses used.new.log.uses sockets.old.calls sockets.new.calls result }
{
    let Ok(name) = socket_name(rt.alloc(), None, image) else {
        return Err(Fault::of_memory());
    };
    match connect_to(rt, sockets, &name) {
        Some(stream) => open_held(rt.alloc(), used, image, &mut AskWire::new(stream)),
        None => Err(Fault::Image(ImageFault::NoFile)),
    }
}

/// The image in a file, to be read: as it is at one moment, where a server has it.
pub fn open_to_read<R: Net + AllocGlobal>(
    rt: &R,
    used: &mut UsedFiles<'_, HostRuntime>,
    sockets: &mut SocketLog,
    image: &str,
) -> Result<FileDevice, Fault>
    ensures { HasImage image.now used.old.log.uses used.new.log.uses sockets.old.calls sockets.new.calls result }
{
    let fault = match open(used, image) {
        Ok(device) => return Ok(device),
        Err(fault) => fault,
    };
    let ImageFault::NoFile = fault else {
        return Err(Fault::Image(fault));
    };
    open_served(rt, used, sockets, image)
}
