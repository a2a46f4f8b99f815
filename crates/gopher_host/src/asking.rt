// Changes are asked of a server where the image can't be had.
ghost use Rattle.std.specs.Prelude.{◌≡◌, [], IfOk};
ghost use Rattle.std.specs.Option.{option_copied};
ghost use Rattle.std.specs.String.{string_bytes};
ghost use Rattle.gopher_host.specs.Asked as spec;
ghost use Rattle.gopher_host.specs.Asked.{AsksInstead, GivesAnswer, PrintsAnswer};
ghost use Rattle.gopher_host.specs.ImageFiles.{IsNotThere};

use crate::fault::Fault;
use crate::printing::print_line;
use admin_client::{AdminAnswer, AnswerFault, AskWire, ask};
use admin_socket::{SocketLog, connect_to};
use image_commands::ImageFault;
use std::alloc::{AllocError, Global};
use std::io::Write;
use std::net::Net;

/// The name of a socket: the one that is given, or else that of an image with `.admin` behind it.
pub fn socket_name(alloc: Global, named: Option<&str>, image: &str) -> Result<String, AllocError>
    ensures { IfOk result (λ t. string_bytes t ≡ spec.socket_name (option_copied named.entry) image.now) }
{
    match named {
        Some(name) => String::from_str(alloc, name),
        None => format!(in alloc; "{image}.admin"),
    }
}

/// The text of what a server answered that did all; or the fault.
fn answer_of(answer: AdminAnswer) -> Result<String, Fault>
    ensures { result ≡ spec.answer_of answer }
{
    if answer.done {
        Ok(answer.text)
    } else {
        Err(Fault::Told(answer.text))
    }
}

/// What a server answers that is asked for the changes of a file.
fn answered(alloc: Global, wire: &mut AskWire, file: &[u8]) -> Result<String, Fault>
    requires { wire.old.made.calls ≡ [] }
    ensures { GivesAnswer file.now result }
{
    match ask(alloc, wire, file) {
        Ok(answer) => answer_of(answer),
        Err(AnswerFault::Reply(fault)) => Err(Fault::Reply(fault)),
        Err(AnswerFault::Memory) => Err(Fault::of_memory()),
    }
}

/// Asks the server on whose socket somebody answers. Where nobody does, there is no file to be had.
fn ask_on<R: Net + AllocGlobal>(
    rt: &R,
    sockets: &mut SocketLog,
    name: &str,
    file: &[u8],
) -> Result<String, Fault>
    ensures { AsksInstead name.now file.now sockets.old.calls sockets.new.calls result }
{
    match connect_to(rt, sockets, name) {
        Some(stream) => answered(rt.alloc(), &mut AskWire::new(stream), file),
        None => Err(Fault::Image(ImageFault::NoFile)),
    }
}

/// Asks the server on whose socket somebody answers, since an image was not had for this fault. Where nobody does, the fault is answered.
pub fn ask_instead<R: Net + AllocGlobal>(
    rt: &R,
    sockets: &mut SocketLog,
    image: &str,
    socket: Option<&str>,
    file: &[u8],
    fault: ImageFault,
) -> Result<String, Fault>
    requires { IsNotThere fault }
    ensures { AsksInstead (spec.socket_name (option_copied socket.entry) image.now) file.now sockets.old.calls sockets.new.calls result }
{
    let ImageFault::NoFile = fault else {
        return Err(Fault::Image(fault));
    };
    match socket_name(rt.alloc(), socket, image) {
        Ok(name) => ask_on(rt, sockets, name.as_str(), file),
        Err(_) => Err(Fault::of_memory()),
    }
}

/// Prints what a server answered that did all.
pub fn print_answer<W: Write>(given: Result<String, Fault>, writer: &mut W) -> Result<(), Fault>
    ensures { PrintsAnswer (λ text. text) given W.contents writer.old writer.new result }
{
    match given {
        Ok(text) => print_line(writer, &text),
        Err(fault) => Err(fault),
    }
}
