// The commands that make, change and show the image in a file.
ghost use Rattle.std.specs.Prelude.{◌≡◌, Err, OnOk, IfErr};
ghost use Rattle.std.specs.Io.KnownBytes.{Appends};
ghost use Rattle.image_commands.specs.Lines as lines;
ghost use Rattle.image_commands.specs.declared.fault.ImageFault.{ImageFault as Refusal};
ghost use Rattle.std.specs.Option.{option_copied};
ghost use Rattle.gopher_host.specs.Asked.{socket_name};
ghost use Rattle.gopher_host.specs.Faults.{ended};
ghost use Rattle.gopher_host.specs.Held.{ReadsImage};
ghost use Rattle.gopher_host.specs.ImageFiles.{OpensThen, Exports, ListsImage, form_of, Checks, Compacts, UpgradesImage};
ghost use Rattle.gopher_host.specs.Kept.{AppliesFile, AppliesOrAsks};
ghost use Rattle.gopher_host.specs.NewImages.{moment_of, asked_at, IsNewImage, IsFormatEnd, Inits};
ghost use Rattle.gopher_host.specs.declared.fault.Fault.TheVariants as faults;

use crate::asking::{ask_instead, print_answer};
use crate::fault::Fault;
use crate::holding::open_to_read;
use crate::naming::end_named;
use crate::new_image::{made, moment};
use crate::opening::{closed, open};
use crate::printing::{print_applied, print_compacted, print_given, print_line, print_listing};
use crate::progress::Shown;
use crate::reading::whole_file;
use crate::saying::said;
use admin_socket::SocketLog;
use change_file::FileChange;
use command_words::NewSite;
use file_device::UsedFiles;
use file_names::{Look, NameLog, look_for};
use host_types::Stamp;
use image_commands::{ImageFault, ListForm, check_image, compact_image, show_image, upgrade_image};
use image_exports::export_image;
use image_runs::apply_on;
use std::alloc::Global;
use std::io::Write;

/// Makes an image, and prints how many pages it has.
pub fn format<W: Write>(
    alloc: Global,
    used: &mut UsedFiles<'_, HostRuntime>,
    image: &str,
    site: NewSite<'_>,
    pages: u32,
    now: u64,
    writer: &mut W,
) -> Result<(), Fault>
    ensures asked { (e : Refusal) → asked_at site.entry pages now ≡ Err e → (result ≡ Err (faults.Image e)) × (writer.new ≡ writer.old) × (used.new.log.uses ≡ used.old.log.uses) }
    ensures printed { OnOk result (Appends (W.contents writer.old) (W.contents writer.new) (ended (lines.formatted_line pages))) }
    ensures made { OnOk result (IsNewImage image.now site.entry pages now used.old.log.uses used.new.log.uses) }
    ensures fault { IfErr result (IsFormatEnd image.now site.entry pages now used.old.log.uses used.new.log.uses writer.old writer.new) }
{
    let now = moment(now)?;
    let line = made(alloc, used, image, site, pages, now)?;
    print_line(writer, &line)
}

/// Makes an image in a file that is not there, as `format` does.
pub fn init<W: Write>(
    rt: &HostRuntime,
    used: &mut UsedFiles<'_, HostRuntime>,
    names: &mut NameLog,
    image: &str,
    site: NewSite<'_>,
    pages: u32,
    now: u64,
    writer: &mut W,
) -> Result<(), Fault>
    ensures { Inits W.contents image.now site.entry pages now used.old.log.uses used.new.log.uses names.old.calls names.new.calls writer.old writer.new result }
{
    match look_for(rt, names, image) {
        Look::Missing => format(rt.alloc(), used, image, site, pages, now, writer),
        Look::There => Err(Fault::There),
        Look::Unknown => Err(Fault::Image(ImageFault::NoFile)),
    }
}

/// Makes changes that a file says on the site of an image, or asks the server for them, and prints what came of it.
fn apply_said<W: Write>(
    rt: &HostRuntime,
    used: &mut UsedFiles<'_, HostRuntime>,
    image: &str,
    file: &[u8],
    changes: Vec<FileChange>,
    now: Stamp,
    socket: Option<&str>,
    sockets: &mut SocketLog,
    writer: &mut W,
) -> Result<(), Fault>
    ensures { AppliesOrAsks W.contents image.now (socket_name (option_copied socket.entry) image.now) now used.old.log.uses used.new.log.uses sockets.old.calls sockets.new.calls writer.old writer.new file.now changes.items result }
{
    let device = match open(used, image) {
        Ok(device) => device,
        Err(fault) => {
            let answer = ask_instead(rt, sockets, image, socket, file, fault);
            return print_answer(answer, writer);
        }
    };
    let mut progress = Shown::new(rt);
    let applied = apply_on(rt.alloc(), device, changes, now, &mut progress);
    progress.end();
    print_applied(rt.alloc(), closed(used, applied), writer)
}

/// Makes the changes of a file on the site of an image, and prints how many they are. On a terminal it shows meanwhile how far it is.
/// Where the image can't be had, the server is asked for them on whose socket somebody answers, and what it answers is printed. The change that is refused is named.
pub fn apply<W: Write>(
    rt: &HostRuntime,
    used: &mut UsedFiles<'_, HostRuntime>,
    image: &str,
    file: &str,
    now: u64,
    socket: Option<&str>,
    sockets: &mut SocketLog,
    writer: &mut W,
) -> Result<(), Fault>
    ensures moment { (e : Refusal) → moment_of now ≡ Err e → (result ≡ Err (faults.Image e)) × (writer.new ≡ writer.old) × (used.new.log.uses ≡ used.old.log.uses) × (sockets.new ≡ sockets.old) }
    ensures image { OnOk (moment_of now) (AppliesFile W.contents image.now (socket_name (option_copied socket.entry) image.now) now used.old.log.uses used.new.log.uses sockets.old.calls sockets.new.calls writer.old writer.new result) }
{
    let now = moment(now)?;
    let (bytes, changes) = said(rt.alloc(), whole_file(rt, file))?;
    let ended = apply_said(
        rt, used, image, &bytes, changes, now, socket, sockets, writer,
    );
    end_named(rt.alloc(), &bytes, ended)
}

/// How much the line of an item says: at length, or not.
fn form_of(long: bool) -> ListForm
    ensures { result ≡ form_of long }
{
    if long {
        ListForm::Long
    } else {
        ListForm::Short
    }
}

/// Prints a line for each item of an image, at length or not.
pub fn show<W: Write>(
    rt: &HostRuntime,
    used: &mut UsedFiles<'_, HostRuntime>,
    image: &str,
    long: bool,
    sockets: &mut SocketLog,
    writer: &mut W,
) -> Result<(), Fault>
    ensures { ReadsImage image.now used.old.log.uses used.new.log.uses sockets.old.calls sockets.new.calls result (writer.new ≡ writer.old) (ListsImage (form_of long) W.contents writer.old writer.new result) }
{
    let device = open_to_read(rt, used, sockets, image)?;
    let shown = show_image(rt.alloc(), device, form_of(long));
    print_listing(closed(used, shown), writer)
}

/// Prints the file of changes that put the items of an image.
pub fn export<W: Write>(
    rt: &HostRuntime,
    used: &mut UsedFiles<'_, HostRuntime>,
    image: &str,
    sockets: &mut SocketLog,
    writer: &mut W,
) -> Result<(), Fault>
    ensures { ReadsImage image.now used.old.log.uses used.new.log.uses sockets.old.calls sockets.new.calls result (writer.new ≡ writer.old) (Exports W.contents writer.old writer.new result) }
{
    let device = open_to_read(rt, used, sockets, image)?;
    let exported = export_image(rt.alloc(), device);
    print_listing(closed(used, exported), writer)
}

/// Prints the line of an image's figures.
pub fn check<W: Write>(
    rt: &HostRuntime,
    used: &mut UsedFiles<'_, HostRuntime>,
    image: &str,
    sockets: &mut SocketLog,
    writer: &mut W,
) -> Result<(), Fault>
    ensures { ReadsImage image.now used.old.log.uses used.new.log.uses sockets.old.calls sockets.new.calls result (writer.new ≡ writer.old) (Checks W.contents writer.old writer.new result) }
{
    let device = open_to_read(rt, used, sockets, image)?;
    let checked = check_image(rt.alloc(), device);
    print_given(closed(used, checked), writer)
}

/// Writes an image anew, and prints the line of the pages that are free then.
pub fn compact<W: Write>(
    alloc: Global,
    used: &mut UsedFiles<'_, HostRuntime>,
    image: &str,
    writer: &mut W,
) -> Result<(), Fault>
    ensures { OpensThen image.now used.old.log.uses used.new.log.uses result (writer.new ≡ writer.old) (Compacts W.contents writer.old writer.new result) }
{
    let device = open(used, image)?;
    let compacted = compact_image(alloc, device);
    print_compacted(closed(used, compacted), writer)
}

/// Takes over an image of version 1, and prints how many records were written.
pub fn upgrade<W: Write>(
    alloc: Global,
    used: &mut UsedFiles<'_, HostRuntime>,
    image: &str,
    writer: &mut W,
) -> Result<(), Fault>
    ensures { OpensThen image.now used.old.log.uses used.new.log.uses result (writer.new ≡ writer.old) (UpgradesImage W.contents writer.old writer.new result) }
{
    let device = open(used, image)?;
    let upgraded = upgrade_image(alloc, device);
    print_given(closed(used, upgraded), writer)
}
