// The commands on single items of an image.
ghost use Rattle.std.specs.Prelude.{◌≡◌, Err, OnOk, map};
ghost use Rattle.std.specs.Option.{option_copied};
ghost use Rattle.gopher_host.specs.Asked.{PrintsAnswer, socket_name};
ghost use Rattle.gopher_host.specs.Held.{ReadsImage};
ghost use Rattle.gopher_host.specs.ImageFiles.{IsNotThere};
ghost use Rattle.gopher_host.specs.Kept.{Drops, DropsInstead, Removes, dropped_line};
ghost use Rattle.gopher_host.specs.Items.{Gets, ListsPosts, selector_named};
ghost use Rattle.gopher_host.specs.declared.fault.Fault.TheVariants as faults;
ghost use Rattle.image_items.specs.declared.fault.ItemFault.{ItemFault as NoItem};

use crate::asking::ask_instead;
use crate::fault::Fault;
use crate::holding::open_to_read;
use crate::naming::removals_named;
use crate::opening::{closed, open};
use crate::printing::{print_dropped, print_item, print_line};
use crate::progress::Shown;
use crate::removing::{dropped_line, removals, removals_file};
use admin_socket::SocketLog;
use file_device::UsedFiles;
use host_types::{Selector, Stamp};
use image_commands::ImageFault;
use image_items::{ItemFault, get_image, posts_image};
use image_runs::apply_on;
use std::alloc::Global;
use std::io::Write;
use std::net::Net;

/// The selector of these bytes.
fn selector_of(name: &str) -> Result<Selector, ItemFault>
    ensures { result ≡ selector_named name.now }
{
    Ok(Selector::new(name.as_bytes())?)
}

/// The bytes of a text, where there is one.
fn bytes_of(text: Option<&str>) -> Option<&[u8]>
    ensures { option_copied result ≡ option_copied text.entry }
{
    match text {
        Some(text) => Some(text.as_bytes()),
        None => None,
    }
}

/// Prints the bytes of a document: of the view that is named, or else of its first one.
pub fn get<W: Write>(
    rt: &HostRuntime,
    used: &mut UsedFiles<'_, HostRuntime>,
    image: &str,
    selector: &str,
    view: Option<&str>,
    sockets: &mut SocketLog,
    writer: &mut W,
) -> Result<(), Fault>
    ensures name { (e : NoItem) → selector_named selector.now ≡ Err e → (result ≡ Err (faults.Item e)) × (writer.new ≡ writer.old) × (used.new.log.uses ≡ used.old.log.uses) × (sockets.new ≡ sockets.old) }
    ensures got { OnOk (selector_named selector.now) (ReadsImage image.now used.old.log.uses used.new.log.uses sockets.old.calls sockets.new.calls result (writer.new ≡ writer.old) (Gets selector.now (option_copied view.entry) W.contents writer.old writer.new result)) }
{
    let selector = selector_of(selector)?;
    let device = open_to_read(rt, used, sockets, image)?;
    let got = get_image(rt.alloc(), device, &selector, bytes_of(view));
    print_item(closed(used, got), writer)
}

/// Prints a line for each post of a board that is there, newest last.
pub fn posts<W: Write>(
    rt: &HostRuntime,
    used: &mut UsedFiles<'_, HostRuntime>,
    image: &str,
    board: &str,
    sockets: &mut SocketLog,
    writer: &mut W,
) -> Result<(), Fault>
    ensures name { (e : NoItem) → selector_named board.now ≡ Err e → (result ≡ Err (faults.Item e)) × (writer.new ≡ writer.old) × (used.new.log.uses ≡ used.old.log.uses) × (sockets.new ≡ sockets.old) }
    ensures listed { OnOk (selector_named board.now) (ReadsImage image.now used.old.log.uses used.new.log.uses sockets.old.calls sockets.new.calls result (writer.new ≡ writer.old) (ListsPosts board.now W.contents writer.old writer.new result)) }
{
    let board = selector_of(board)?;
    let device = open_to_read(rt, used, sockets, image)?;
    let listed = posts_image(rt.alloc(), device, &board);
    print_item(closed(used, listed), writer)
}

/// Prints how many items a server removed that was asked for it, or answers the fault.
fn print_removed<W: Write>(
    alloc: Global,
    given: Result<String, Fault>,
    count: u64,
    writer: &mut W,
) -> Result<(), Fault>
    ensures { PrintsAnswer (λ text. dropped_line count) given W.contents writer.old writer.new result }
{
    match given {
        Ok(_) => match dropped_line(alloc, count) {
            Ok(line) => print_line(writer, &line),
            Err(_) => Err(Fault::of_memory()),
        },
        Err(fault) => Err(fault),
    }
}

/// Asks the server on whose socket somebody answers to remove items, since an image was not had for this fault, and prints how many they are.
fn remove_instead<R: Net + AllocGlobal, W: Write>(
    rt: &R,
    sockets: &mut SocketLog,
    image: &str,
    socket: Option<&str>,
    selectors: &[&str],
    fault: ImageFault,
    writer: &mut W,
) -> Result<(), Fault>
    requires { IsNotThere fault }
    ensures { DropsInstead (socket_name (option_copied socket.entry) image.now) (map (λ name. name.now) selectors.now) W.contents sockets.old.calls sockets.new.calls writer.old writer.new result }
{
    let file = removals_file(rt.alloc(), selectors)?;
    let given = ask_instead(rt, sockets, image, socket, file.as_bytes(), fault);
    print_removed(rt.alloc(), given, selectors.len() as u64, writer)
}

/// Removes items, one after another, each by a change of its own, or asks the server for that, and prints how many they are.
fn remove_each<W: Write>(
    rt: &HostRuntime,
    used: &mut UsedFiles<'_, HostRuntime>,
    image: &str,
    selectors: &[&str],
    now: Stamp,
    socket: Option<&str>,
    sockets: &mut SocketLog,
    writer: &mut W,
) -> Result<(), Fault>
    ensures { Drops W.contents image.now (socket_name (option_copied socket.entry) image.now) (map (λ name. name.now) selectors.now) now used.old.log.uses used.new.log.uses sockets.old.calls sockets.new.calls writer.old writer.new result }
{
    let changes = removals(rt.alloc(), selectors)?;
    let device = match open(used, image) {
        Ok(device) => device,
        Err(fault) => {
            return remove_instead(rt, sockets, image, socket, selectors, fault, writer);
        }
    };
    let mut progress = Shown::new(rt);
    let applied = apply_on(rt.alloc(), device, changes, now, &mut progress);
    progress.end();
    print_dropped(rt.alloc(), closed(used, applied), writer)
}

/// Removes items, one after another, each by a change of its own, and prints how many they are. On a terminal it shows meanwhile how far it is.
/// Where the image can't be had, the server is asked on whose socket somebody answers. The change that is refused is named.
pub fn remove<W: Write>(
    rt: &HostRuntime,
    used: &mut UsedFiles<'_, HostRuntime>,
    image: &str,
    selectors: &[&str],
    now: Stamp,
    socket: Option<&str>,
    sockets: &mut SocketLog,
    writer: &mut W,
) -> Result<(), Fault>
    ensures { Removes W.contents image.now (socket_name (option_copied socket.entry) image.now) (map (λ name. name.now) selectors.now) now used.old.log.uses used.new.log.uses sockets.old.calls sockets.new.calls writer.old writer.new result }
{
    let ended = remove_each(rt, used, image, selectors, now, socket, sockets, writer);
    removals_named(rt.alloc(), selectors, ended)
}
