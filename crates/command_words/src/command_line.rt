// The whole command line.
ghost use Rattle.std.specs.Prelude.{IfOk};
ghost use Rattle.clap.specs.Words.{App, Shape, with_subcommand};
ghost use Rattle.command_words.specs.CommandLine as spec;
ghost use Rattle.command_words.specs.CommandLine.{IsApp, IsCommand};

use crate::commands::{
    apply, check, compact, copy, drop, export, format, get, import, init, posts, replay, show,
    upgrade,
};
use crate::serve_words::serve;
use clap::Command;
use std::alloc::{AllocError, Global};

/// The command with one more below it, where both were made.
fn with_command<'a>(
    command: Result<Command<'a>, AllocError>,
    below: Result<Command<'a>, AllocError>,
) -> Result<Command<'a>, AllocError>
    ensures { (app : App) (shape : Shape) → IfOk command.entry (IsApp app) → IfOk below.entry (IsCommand shape) → IfOk result (IsApp (with_subcommand app shape)) }
{
    command?.subcommand(below?)
}

/// The command line without its commands.
fn head<'a>(alloc: Global) -> Command<'a>
    ensures { IsApp spec.head result }
{
    Command::new(alloc, "gopher_host")
        .version("0.1.0")
        .about("A Gopher server whose site lies on one disk image")
        .subcommand_required(true)
}

/// As far as the commands that make an image and change it.
fn changing<'a>(alloc: Global) -> Result<Command<'a>, AllocError>
    ensures { IfOk result (IsApp (spec.host_of spec.changing_commands)) }
{
    let all = with_command(Ok(head(alloc)), format(alloc));
    let all = with_command(all, init(alloc));
    let all = with_command(all, apply(alloc));
    with_command(all, drop(alloc))
}

/// As far as those that say what it holds.
fn telling<'a>(alloc: Global) -> Result<Command<'a>, AllocError>
    ensures { IfOk result (IsApp (spec.host_of spec.telling_commands)) }
{
    let all = with_command(changing(alloc), get(alloc));
    let all = with_command(all, posts(alloc));
    let all = with_command(all, show(alloc));
    let all = with_command(all, export(alloc));
    with_command(all, import(alloc))
}

/// The whole command line.
pub fn command_line<'a>(alloc: Global) -> Result<Command<'a>, AllocError>
    ensures { IfOk result (IsApp spec.gopher_host) }
{
    let all = with_command(telling(alloc), check(alloc));
    let all = with_command(all, compact(alloc));
    let all = with_command(all, upgrade(alloc));
    let all = with_command(all, copy(alloc));
    let all = with_command(all, replay(alloc));
    with_command(all, serve(alloc))
}
