// Why the program ends with status 1.
ghost use Rattle.std.specs.Prelude.{◌≡◌, None, IfOk, OnOk};
ghost use Rattle.std.specs.Io.KnownBytes.{Appends};
ghost use Rattle.std.specs.Process.{exit_status};
ghost use Rattle.std.specs.String.{string_bytes};
ghost use Rattle.gopher_host.specs.Advice.{met_by, listener_advice};
ghost use Rattle.gopher_host.specs.Faults as spec;
ghost use Rattle.gopher_host.specs.Faults.{ended, output_fault, memory_fault, line_of, advice_of, item_of, change_that_met, listener_of, ended_if_any, TellsLine, TellsFault};
ghost use Rattle.gopher_host.specs.declared.fault.Fault.TheVariants as faults;

use crate::advice::{
    cause_advice, file_advice, item_advice, lack_advice, making_advice, refused_advice,
    reply_advice, socket_advice,
};
use crate::refused_words::NameWord;
use admin_lines::ReplyFault;
use admin_socket::SocketFault;
use change_file::{ApplyFault, ChangeFileFault, file_line};
use common_types::{Refused, change_line, refused_name};
use daily_server::NetCause;
use file_names::Lack;
use host_script::fault_text;
use host_types::SiteFault;
use image_commands::{ImageFault, advice, fault_line};
use image_copies::{CopyFault, copy_advice, copy_fault_line};
use image_items::{ItemFault, item_line};
use image_runs::stopped_line;
use image_server::{ServingFault, round_line, serving_line};
use page_store::KeeperFault;
use socket_wires::ServeFault;
use std::alloc::{AllocError, Global};
use std::io;
use std::io::Write;
use std::net::SocketAddr;
use std::process::ExitCode;

/// Why the program ends with status 1.
#[derive(Debug, Drop)]
pub enum Fault {
    /// A command on an image.
    Image(ImageFault),
    /// An image that was to be there, and why it was not had.
    NotHad(Lack),
    /// An image that was to be made, and why it was not.
    NotMade(Lack),
    /// There is something of the name of the file that is to be made.
    There,
    /// An image that was not compacted.
    Compact(ImageFault),
    /// A copy that was not made.
    Copy(CopyFault),
    /// A file of changes.
    Changes(ChangeFileFault),
    /// A file of changes, with what is wrong with it, a line without its LF.
    Flaw(ChangeFileFault, String),
    /// A file of changes that is not there, or can't be read.
    NoChanges,
    /// A change that was not made.
    Stopped(ApplyFault),
    /// A change that was refused, and a line about it, without its LF.
    Refused(u64, Refused, String),
    /// A name of a new site that was refused, and its word.
    RefusedName(Refused, NameWord),
    /// An item that is not what a command wants.
    Item(ItemFault),
    /// A folder that is none, or can't be read.
    NoFolder,
    /// What was left out of a folder, a line each, without the last LF.
    LeftOut(String),
    /// An image or a port that is not served.
    Serving(ServingFault),
    /// A round of connections.
    Round(ServeFault),
    /// The script, or lack of memory, or an output that takes no more.
    Script(host_script::ReplayFault),
    /// The socket on which administrators were to come.
    Socket(SocketFault),
    /// What a server told that was asked for changes, without the last LF.
    Told(String),
    /// The same where it told of a change that was refused, and a line about that, without its LF.
    ToldOf(String, String),
    /// A server's answer that is none.
    Reply(ReplyFault),
    /// A server that has the image, and did not hold still while it was read.
    NotHeld,
}

/// The line of a socket that does not stand, without its LF.
fn socket_line(fault: SocketFault) -> &'static str
    ensures { result.now ≡ spec.socket_line fault }
{
    match fault {
        SocketFault::Taken => "admin: Taken",
        SocketFault::There => "admin: There",
        SocketFault::NoSocket => "admin: NoSocket",
    }
}

/// The line of an answer that is none, without its LF.
fn reply_line(fault: ReplyFault) -> &'static str
    ensures { result.now ≡ spec.reply_line fault }
{
    match fault {
        ReplyFault::Cut => "reply: Cut",
        ReplyFault::NoReply => "reply: NoReply",
    }
}

/// Writes which change met a fault of the image.
fn tell_met<W: Write>(number: u64, writer: &mut W) -> io::Result<()>
    ensures { OnOk result (Appends (W.contents writer.old) (W.contents writer.new) (ended (met_by number))) }
{
    writeln!(
        writer,
        "Change {number} met this; those before it are made."
    )
}

/// Writes where no listener was had, and why.
fn tell_no_listener<W: Write>(at: SocketAddr, cause: NetCause, writer: &mut W) -> io::Result<()>
    ensures { OnOk result (Appends (W.contents writer.old) (W.contents writer.new) (ended (listener_advice at cause))) }
{
    writeln!(writer, "{at}: {}", cause_advice(cause))
}

impl From<ImageFault> for Fault {
    ghost from_gives = { λ image fault. fault ≡ faults.Image image };

    fn from(fault: ImageFault) -> Self {
        Fault::Image(fault)
    }
}

impl From<host_script::ReplayFault> for Fault {
    ghost from_gives = { λ script fault. fault ≡ faults.Script script };

    fn from(fault: host_script::ReplayFault) -> Self {
        Fault::Script(fault)
    }
}

impl From<ApplyFault> for Fault {
    ghost from_gives = { λ stopped fault. fault ≡ faults.Stopped stopped };

    fn from(fault: ApplyFault) -> Self {
        Fault::Stopped(fault)
    }
}

impl From<ItemFault> for Fault {
    ghost from_gives = { λ item fault. fault ≡ faults.Item item };

    fn from(fault: ItemFault) -> Self {
        Fault::Item(fault)
    }
}

impl From<ServingFault> for Fault {
    ghost from_gives = { λ serving fault. fault ≡ faults.Serving serving };

    fn from(fault: ServingFault) -> Self {
        Fault::Serving(fault)
    }
}

impl From<ServeFault> for Fault {
    ghost from_gives = { λ round fault. fault ≡ faults.Round round };

    fn from(fault: ServeFault) -> Self {
        Fault::Round(fault)
    }
}

impl Fault {
    /// Standard output takes no more.
    pub fn of_output() -> Self
        ensures { result ≡ output_fault }
    {
        Fault::Script(host_script::ReplayFault::Output)
    }

    /// Out of memory.
    pub fn of_memory() -> Self
        ensures { result ≡ memory_fault }
    {
        Fault::Image(ImageFault::Memory)
    }

    /// The line, without its LF.
    fn line(&self, alloc: Global) -> Result<String, AllocError>
        ensures { IfOk result (λ t. string_bytes t ≡ line_of self.now) }
    {
        match self {
            Fault::Image(fault) | Fault::Compact(fault) => fault_line(alloc, *fault),
            Fault::NotHad(_) | Fault::NotMade(_) => fault_line(alloc, ImageFault::NoFile),
            Fault::RefusedName(refused, _) => fault_line(alloc, ImageFault::Refused(*refused)),
            Fault::There => String::from_str(alloc, "image: There"),
            Fault::Copy(fault) => copy_fault_line(alloc, *fault),
            Fault::Changes(fault) | Fault::Flaw(fault, _) => file_line(alloc, *fault),
            Fault::NoChanges => file_line(alloc, ChangeFileFault::NotToml),
            Fault::Stopped(fault) => stopped_line(alloc, *fault),
            Fault::Refused(number, refused, _) => {
                change_line(alloc, *number, refused_name(*refused))
            }
            Fault::Item(fault) => item_line(alloc, *fault),
            Fault::NoFolder => String::from_str(alloc, "folder: NoFolder"),
            Fault::LeftOut(lines) | Fault::Told(lines) | Fault::ToldOf(lines, _) => lines.clone(),
            Fault::Serving(fault) => serving_line(alloc, *fault),
            Fault::Round(fault) => round_line(alloc, *fault),
            Fault::Script(fault) => fault_text(alloc, fault),
            Fault::Socket(fault) => String::from_str(alloc, socket_line(*fault)),
            Fault::Reply(fault) => String::from_str(alloc, reply_line(*fault)),
            Fault::NotHeld => String::from_str(alloc, "image: NotHeld"),
        }
    }

    /// The change that met a fault of the image, if one did.
    fn met_by(&self) -> Option<u64>
        ensures { result ≡ change_that_met self.now }
    {
        match self {
            Fault::Stopped(stopped) => match stopped.fault {
                SiteFault::Refused(_) => None,
                _ => Some(stopped.number),
            },
            _ => None,
        }
    }

    /// Where no listener was had, and why.
    fn no_listener(&self) -> Option<(SocketAddr, NetCause)>
        ensures { result ≡ listener_of self.now }
    {
        match self {
            Fault::Serving(ServingFault::Listener(at, cause)) => Some((*at, *cause)),
            _ => None,
        }
    }

    /// What to do about it where no change met it and it names no address, or nothing.
    fn advice(&self) -> &str
        ensures { change_that_met self.now ≡ None → listener_of self.now ≡ None → result.now ≡ advice_of self.now }
    {
        match self {
            Fault::Image(fault) => advice(*fault),
            Fault::RefusedName(refused, _) => advice(ImageFault::Refused(*refused)),
            Fault::NotHad(lack) => lack_advice(*lack),
            Fault::NotMade(lack) => making_advice(*lack),
            Fault::Compact(ImageFault::Store(KeeperFault::Full { .. })) => {
                "The command `copy` writes the site into an image with more pages."
            }
            Fault::Compact(fault) => advice(*fault),
            Fault::There => {
                "Give another name, or make the image in this file by `format`: what it holds is lost then."
            }
            Fault::Copy(fault) => copy_advice(*fault),
            Fault::Serving(ServingFault::Image(fault)) => advice(ImageFault::from(*fault)),
            Fault::Serving(ServingFault::Net) => {
                "The server could not wait for its clients any more."
            }
            Fault::Changes(fault) => file_advice(*fault),
            Fault::Flaw(_, line) => line.as_str(),
            Fault::NoChanges => "The file is not there, or can not be read.",
            Fault::Stopped(stopped) => match stopped.fault {
                SiteFault::Refused(refused) => refused_advice(refused),
                _ => "",
            },
            Fault::Refused(_, refused, _) => refused_advice(*refused),
            Fault::Item(fault) => item_advice(*fault),
            Fault::NoFolder => "Give the name of a folder that can be read.",
            Fault::Socket(fault) => socket_advice(*fault),
            Fault::Reply(fault) => reply_advice(*fault),
            Fault::NotHeld => {
                "The server that has the image did not hold still for long enough while it was read: try again."
            }
            Fault::Serving(ServingFault::Listener(..))
            | Fault::LeftOut(_)
            | Fault::Round(_)
            | Fault::Script(_)
            | Fault::Told(_)
            | Fault::ToldOf(..) => "",
        }
    }

    /// The line about a change or a name that was refused, or nothing.
    fn item(&self) -> &str
        ensures { result.now ≡ item_of self.now }
    {
        match self {
            Fault::Refused(_, _, line) | Fault::ToldOf(_, line) => line.as_str(),
            Fault::RefusedName(_, word) => word.line(),
            _ => "",
        }
    }

    /// Writes the line of the fault, or where there is no memory for it that of lacking memory.
    fn tell_line<W: Write>(&self, alloc: Global, writer: &mut W) -> io::Result<()>
        ensures { OnOk result (TellsLine self.now (W.contents writer.old) (W.contents writer.new)) }
    {
        match self.line(alloc) {
            Ok(line) => writeln!(writer, "{line}"),
            Err(_) => writeln!(writer, "memory"),
        }
    }

    /// Writes what to do about the fault as a line, where there is anything to do.
    fn tell_advice<W: Write>(&self, writer: &mut W) -> io::Result<()>
        ensures { OnOk result (Appends (W.contents writer.old) (W.contents writer.new) (ended_if_any (advice_of self.now))) }
    {
        if let Some(number) = self.met_by() {
            return tell_met(number, writer);
        }
        if let Some((at, cause)) = self.no_listener() {
            return tell_no_listener(at, cause, writer);
        }
        let advice = self.advice();
        if advice.is_empty() {
            return Ok(());
        }
        writeln!(writer, "{advice}")
    }

    /// Writes a line about the change or the name that was refused, where there is one.
    fn tell_item<W: Write>(&self, writer: &mut W) -> io::Result<()>
        ensures { OnOk result (Appends (W.contents writer.old) (W.contents writer.new) (ended_if_any (item_of self.now))) }
    {
        let item = self.item();
        if item.is_empty() {
            return Ok(());
        }
        writeln!(writer, "{item}")
    }

    /// Writes the fault as one line, where there is something to do about it a second one, and one about a change or a name that was refused; and gives the status.
    pub fn tell<W: Write>(&self, alloc: Global, writer: &mut W) -> io::Result<ExitCode>
        ensures status { IfOk result (λ code. exit_status code ≡ 1) }
        ensures told { OnOk result (TellsFault self.now (W.contents writer.old) (W.contents writer.new)) }
    {
        self.tell_line(alloc, writer)?;
        self.tell_advice(writer)?;
        self.tell_item(writer)?;
        Ok(ExitCode::FAILURE)
    }
}
