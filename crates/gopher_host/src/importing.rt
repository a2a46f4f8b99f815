// A folder as a file of changes on standard output.
ghost use Rattle.std.specs.Prelude.{◌≡◌, Ok, IfOk, IfErr, OnOk, string_bytes};
ghost use Rattle.std.specs.Io.KnownBytes.{Appends};
ghost use Rattle.std.specs.Option.{option_copied};
ghost use Rattle.gopher_host.specs.Faults.{output_fault};
ghost use Rattle.gopher_host.specs.Imports as spec;

use crate::fault::Fault;
use folder_import::{Import, ImportFault, resolved};
use folder_reader::{FolderLog, WalkFault, import_all};
use host_types::Selector;
use image_items::ItemFault;
use std::alloc::Global;
use std::io::Write;

/// The selector below which a folder is put: that of the top menu where none is given.
fn top_of(alloc: Global, under: Option<&str>) -> Result<Selector, Fault>
    ensures named { IfOk result (λ top. spec.top_named (option_copied under.entry) ≡ Ok top) }
    ensures fault { IfErr result (spec.IsNoImport (option_copied under.entry)) }
{
    let root = Selector::root();
    let Some(under) = under else {
        return Ok(root);
    };
    match resolved(alloc, &root, &root, under.as_bytes()) {
        Ok(top) => Ok(top),
        Err(ImportFault::Name(refused)) => Err(Fault::Item(ItemFault::from(refused))),
        Err(_) => Err(Fault::of_memory()),
    }
}

/// What comes of a folder that was read, or why it was not.
fn read(rt: &HostRuntime, folder: &str, top: &Selector) -> Result<Import, Fault>
    ensures walked { IfOk result (spec.IsFolderRead folder.now top.now) }
    ensures fault { (under : _) → spec.top_named under ≡ Ok top.now → IfErr result (spec.IsNoImport under) }
{
    match import_all(rt, &mut FolderLog::new(), folder, top) {
        Ok(import) => Ok(import),
        Err(WalkFault::NoFolder) => Err(Fault::NoFolder),
        Err(WalkFault::Title(refused)) => Err(Fault::Item(ItemFault::from(refused))),
        Err(WalkFault::Memory) => Err(Fault::of_memory()),
    }
}

/// Prints a text.
fn print_text<W: Write>(writer: &mut W, text: &str) -> Result<(), Fault>
    ensures printed { OnOk result (Appends (W.contents writer.old) (W.contents writer.new) text.now) }
    ensures fault { IfErr result (λ e. e ≡ output_fault) }
{
    match writer.write_all(text.as_bytes()) {
        Ok(()) => Ok(()),
        Err(_) => Err(Fault::of_output()),
    }
}

/// Answers what is left out, where that is anything.
fn told(left_out: String) -> Result<(), Fault>
    ensures { spec.TellsLeftOut (string_bytes left_out) result }
{
    let mut lines = left_out;
    match lines.pop() {
        Some(_) => Err(Fault::LeftOut(lines)),
        None => Ok(()),
    }
}

/// Prints a file of changes, and answers what it leaves out, where that is anything.
fn print_import<W: Write>(import: Import, writer: &mut W) -> Result<(), Fault>
    ensures { spec.PrintsChanges import W.contents writer.old writer.new result }
{
    let Import { file, left_out } = import;
    let Ok(text) = file.text() else {
        return Err(Fault::of_memory());
    };
    print_text(writer, &text)?;
    told(left_out)
}

/// Prints the file of changes that puts the files of a folder below a selector. What is left out is the fault.
pub fn import<W: Write>(
    rt: &HostRuntime,
    folder: &str,
    under: Option<&str>,
    writer: &mut W,
) -> Result<(), Fault>
    ensures { spec.Imports folder.now (option_copied under.entry) W.contents writer.old writer.new result }
{
    let top = top_of(rt.alloc(), under)?;
    print_import(read(rt, folder, &top)?, writer)
}
