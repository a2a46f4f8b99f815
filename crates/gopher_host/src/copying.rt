// The command that copies an image to a new file.
ghost use Rattle.std.specs.String.{string_bytes};
ghost use Rattle.gopher_host.specs.CopiedFiles.{GivesLine, CopiesImage, CopiesOrNot, CopiesTo};
ghost use Rattle.gopher_host.specs.Endings.{text_of};

use crate::fault::Fault;
use crate::holding::open_to_read;
use crate::printing::print_line;
use admin_socket::SocketLog;
use file_copies::{copy_opened, expect_missing, part_name};
use file_device::UsedFiles;
use file_names::NameLog;
use std::io::Write;

/// Prints the line that a copy gave.
fn print_copied<W: Write>(given: Result<String, Fault>, writer: &mut W) -> Result<(), Fault>
    ensures { GivesLine (text_of string_bytes given) W.contents writer.old writer.new result }
{
    match given {
        Ok(line) => print_line(writer, &line),
        Err(fault) => Err(fault),
    }
}

/// Writes the site of an image as a new one in a file whose name nothing has, and gives the line to print.
fn copy_missing(
    rt: &HostRuntime,
    used: &mut UsedFiles<'_, HostRuntime>,
    names: &mut NameLog,
    sockets: &mut SocketLog,
    image: &str,
    name: &str,
    pages: Option<u32>,
) -> Result<String, Fault>
    ensures { CopiesOrNot image.now name.now pages used.old.log.uses used.new.log.uses sockets.old.calls sockets.new.calls names.old.calls names.new.calls (text_of string_bytes result) }
{
    let Ok(part) = part_name(rt.alloc(), name) else {
        return Err(Fault::of_memory());
    };
    let old = open_to_read(rt, used, sockets, image)?;
    match copy_opened(rt, used, names, old, &part, name, pages) {
        Ok(line) => Ok(line),
        Err(fault) => Err(Fault::Copy(fault)),
    }
}

/// The same where nothing has the name of the new file, and else that this is so.
fn copy_to(
    rt: &HostRuntime,
    used: &mut UsedFiles<'_, HostRuntime>,
    names: &mut NameLog,
    sockets: &mut SocketLog,
    image: &str,
    name: &str,
    pages: Option<u32>,
) -> Result<String, Fault>
    ensures { CopiesImage image.now name.now pages used.old.log.uses used.new.log.uses sockets.old.calls sockets.new.calls names.old.calls names.new.calls (text_of string_bytes result) }
{
    match expect_missing(rt, names, name) {
        Ok(()) => copy_missing(rt, used, names, sockets, image, name, pages),
        Err(fault) => Err(Fault::Copy(fault)),
    }
}

/// Writes the site of an image as a new one, and prints how many items it has, and how many pages are free there.
pub fn copy<W: Write>(
    rt: &HostRuntime,
    used: &mut UsedFiles<'_, HostRuntime>,
    names: &mut NameLog,
    sockets: &mut SocketLog,
    image: &str,
    name: &str,
    pages: Option<u32>,
    writer: &mut W,
) -> Result<(), Fault>
    ensures { CopiesTo W.contents image.now name.now pages used.old.log.uses used.new.log.uses sockets.old.calls sockets.new.calls names.old.calls names.new.calls writer.old writer.new result }
{
    let copied = copy_to(rt, used, names, sockets, image, name, pages);
    print_copied(copied, writer)
}
