// What is printed on standard output, by what the functions gave that did a command's work.
ghost use Rattle.std.specs.Prelude.{◌≡◌, OnOk, IfErr};
ghost use Rattle.std.specs.Io.KnownBytes.{Appends};
ghost use Rattle.std.specs.String.{string_bytes};
ghost use Rattle.change_file.specs.Printed as changes;
ghost use Rattle.image_commands.specs.Faults.{of_opening};
ghost use Rattle.image_server.specs.Lines as serving;
ghost use Rattle.gopher_host.specs.Endings.{PrintsGiven, GivesAs, GivesCount, text_of};
ghost use Rattle.gopher_host.specs.Faults.{ended, output_fault};
ghost use Rattle.gopher_host.specs.Items.{GivesItem, item_bytes};
ghost use Rattle.gopher_host.specs.Kept as kept;
ghost use Rattle.gopher_host.specs.declared.fault.Fault.TheVariants.{Compact, Image, Round, Serving, Stopped};

use crate::fault::Fault;
use crate::removing::dropped_line;
use change_file::{ApplyFault, applied_line};
use host_on_disk::OpenFault;
use image_commands::ImageFault;
use image_items::ItemFault;
use image_server::{ServingFault, served_line};
use socket_wires::ServeFault;
use std::alloc::Global;
use std::io::Write;

/// Prints a line.
pub fn print_line<W: Write>(writer: &mut W, line: &str) -> Result<(), Fault>
    ensures printed { OnOk result (Appends (W.contents writer.old) (W.contents writer.new) (ended line.now)) }
    ensures fault { IfErr result (λ e. e ≡ output_fault) }
{
    match writeln!(writer, "{line}") {
        Ok(()) => Ok(()),
        Err(_) => Err(Fault::of_output()),
    }
}

/// Prints the line that a command on an image gave.
pub fn print_given<W: Write>(given: Result<String, ImageFault>, writer: &mut W) -> Result<(), Fault>
    ensures { PrintsGiven (text_of (λ line. ended (string_bytes line)) given) W.contents writer.old writer.new result }
{
    match given {
        Ok(text) => print_line(writer, &text),
        Err(fault) => Err(Fault::Image(fault)),
    }
}

/// Prints the line that a compaction gave.
pub fn print_compacted<W: Write>(
    given: Result<String, ImageFault>,
    writer: &mut W,
) -> Result<(), Fault>
    ensures { GivesAs (λ fault. Compact fault) (text_of (λ line. ended (string_bytes line)) given) W.contents writer.old writer.new result }
{
    match given {
        Ok(line) => print_line(writer, &line),
        Err(fault) => Err(Fault::Compact(fault)),
    }
}

/// Prints the listing that `show` gave.
pub fn print_listing<W: Write>(
    given: Result<Vec<u8>, ImageFault>,
    writer: &mut W,
) -> Result<(), Fault>
    ensures { PrintsGiven (text_of (λ listing. listing.items) given) W.contents writer.old writer.new result }
{
    match given {
        Ok(listing) => match writer.write_all(&listing) {
            Ok(()) => Ok(()),
            Err(_) => Err(Fault::of_output()),
        },
        Err(fault) => Err(Fault::Image(fault)),
    }
}

/// Prints what was read of an item.
pub fn print_item<W: Write>(
    given: Result<Result<Vec<u8>, ItemFault>, ImageFault>,
    writer: &mut W,
) -> Result<(), Fault>
    ensures { GivesItem (item_bytes (λ bytes. bytes.items) given) W.contents writer.old writer.new result }
{
    match given {
        Ok(Ok(bytes)) => match writer.write_all(&bytes) {
            Ok(()) => Ok(()),
            Err(_) => Err(Fault::of_output()),
        },
        Ok(Err(fault)) => Err(Fault::Item(fault)),
        Err(fault) => Err(Fault::Image(fault)),
    }
}

/// Prints how many changes were made.
pub fn print_applied<W: Write>(
    alloc: Global,
    given: Result<Result<u64, ApplyFault>, OpenFault>,
    writer: &mut W,
) -> Result<(), Fault>
    ensures { GivesCount given changes.applied_line (λ stopped. Stopped stopped) (λ fault. Image (of_opening fault)) W.contents writer.old writer.new result }
{
    match given {
        Ok(Ok(count)) => match applied_line(alloc, count) {
            Ok(line) => print_line(writer, &line),
            Err(_) => Err(Fault::of_memory()),
        },
        Ok(Err(stopped)) => Err(Fault::Stopped(stopped)),
        Err(fault) => Err(Fault::Image(ImageFault::from(fault))),
    }
}

/// Prints how many items were removed.
pub fn print_dropped<W: Write>(
    alloc: Global,
    given: Result<Result<u64, ApplyFault>, OpenFault>,
    writer: &mut W,
) -> Result<(), Fault>
    ensures { GivesCount given kept.dropped_line (λ stopped. Stopped stopped) (λ fault. Image (of_opening fault)) W.contents writer.old writer.new result }
{
    match given {
        Ok(Ok(count)) => match dropped_line(alloc, count) {
            Ok(line) => print_line(writer, &line),
            Err(_) => Err(Fault::of_memory()),
        },
        Ok(Err(refused)) => Err(Fault::Stopped(refused)),
        Err(unopened) => Err(Fault::Image(ImageFault::from(unopened))),
    }
}

/// Prints how many replies were written whole.
pub fn print_served<W: Write>(
    alloc: Global,
    given: Result<Result<u64, ServeFault>, ServingFault>,
    writer: &mut W,
) -> Result<(), Fault>
    ensures { GivesCount given serving.served_line (λ fault. Round fault) (λ fault. Serving fault) W.contents writer.old writer.new result }
{
    match given {
        Ok(Ok(served)) => match served_line(alloc, served) {
            Ok(line) => print_line(writer, &line),
            Err(_) => Err(Fault::of_memory()),
        },
        Ok(Err(fault)) => Err(Fault::Round(fault)),
        Err(fault) => Err(Fault::Serving(fault)),
    }
}
