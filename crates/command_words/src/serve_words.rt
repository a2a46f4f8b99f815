// The command that serves, and its arguments.
ghost use Rattle.std.specs.Prelude.{IfOk, codes};
ghost use Rattle.clap.specs.Words.{App, Rule, with_rule};
ghost use Rattle.command_words.specs.CommandLine as spec;
ghost use Rattle.command_words.specs.CommandLine.{IsApp, IsArg, IsCommand};

use crate::arguments::{flag, in_rounds, number, socket, text, unless_rounds};
use crate::commands::{of_image, with_arg};
use clap::{Arg, Command};
use std::alloc::{AllocError, Global};

/// The command with one more argument, where both were made.
fn with_bound<'a>(
    command: Result<Command<'a>, AllocError>,
    arg: Result<Arg<'a>, AllocError>,
) -> Result<Command<'a>, AllocError>
    ensures { (app : App) (rule : Rule) → IfOk command.entry (IsApp app) → IfOk arg.entry (IsArg rule) → IfOk result (IsApp (with_rule app rule)) }
{
    with_arg(command, arg?)
}

fn together<'a>(alloc: Global) -> Result<Arg<'a>, AllocError>
    ensures { IfOk result (IsArg (spec.bound_rule (spec.number_rule (codes "together") 1 32))) }
{
    let help = "How many connections a round takes, which are served in turns, 1 to 32";
    in_rounds(alloc, "together", "K", help, 1, 32, "rounds")
}

fn rounds<'a>(alloc: Global) -> Result<Arg<'a>, AllocError>
    ensures { IfOk result (IsArg (spec.bound_rule (spec.number_rule (codes "rounds") 0 4294967295))) }
{
    let help = "How many rounds are served, 0 to 4,294,967,295, after which the server ends";
    in_rounds(alloc, "rounds", "N", help, 0, 4_294_967_295, "together")
}

fn listen<'a>(alloc: Global) -> Result<Arg<'a>, AllocError>
    ensures { IfOk result (IsArg (spec.bound_rule (spec.text_rule (codes "listen")))) }
{
    let help = "Where to listen; if left out, on 127.0.0.1 at the site's own port";
    unless_rounds(text(alloc, "listen", "ADDRESS:PORT", help, false))
}

fn quiet<'a>(alloc: Global) -> Result<Arg<'a>, AllocError>
    ensures { IfOk result (IsArg spec.quiet_rule) }
{
    let help = "Writes no log; if left out, a line for each request";
    unless_rounds(flag(alloc, "quiet", help))
}

fn per_address<'a>(alloc: Global) -> Result<Arg<'a>, AllocError>
    ensures { IfOk result (IsArg (spec.bound_rule (spec.number_rule (codes "per-address") 1 32))) }
{
    let help = "How many clients of one address are let in at a time, 1 to 32; if left out, 8";
    unless_rounds(number(alloc, "per-address", "N", help, 1, 32, false))
}

fn posts_a_minute<'a>(alloc: Global) -> Result<Arg<'a>, AllocError>
    ensures { IfOk result (IsArg (spec.bound_rule (spec.number_rule (codes "posts-per-minute") 1 1000))) }
{
    let help = "How many posts of one address are taken in a minute, 1 to 1,000; if left out, all";
    unless_rounds(number(alloc, "posts-per-minute", "N", help, 1, 1000, false))
}

fn old_clients<'a>(alloc: Global) -> Result<Arg<'a>, AllocError>
    ensures { IfOk result (IsArg spec.old_clients_rule) }
{
    let help =
        "Serves the University of Minnesota's client, which writes `$` for `+`: its requests are rewritten, and the replies to those";
    unless_rounds(flag(alloc, "old-clients", help))
}

fn common_log<'a>(alloc: Global) -> Result<Arg<'a>, AllocError>
    ensures { IfOk result (IsArg spec.common_log_rule) }
{
    let help = "Writes the log in the common log format of web servers";
    unless_rounds(flag(alloc, "common-log", help))
}

fn no_socket<'a>(alloc: Global) -> Result<Arg<'a>, AllocError>
    ensures { IfOk result (IsArg spec.no_socket_rule) }
{
    let help = "Lets no administrators come; if left out, they may";
    unless_rounds(flag(alloc, "no-admin", help))
}

/// The command as far as rounds go.
fn serve_rounds<'a>(alloc: Global) -> Result<Command<'a>, AllocError>
    ensures { IfOk result (IsCommand (spec.serve_with spec.round_rules)) }
{
    let about =
        "Serves the site of an image on 127.0.0.1, at the site's own port, until it is ended, which is harmless at any moment; or so many rounds of connections, and prints how many replies were written whole";
    let example =
        "Examples: gopher_host serve site.img --listen 0.0.0.0:70; gopher_host serve site.img --together 1 --rounds 100";
    let serve = of_image(alloc, "serve", about, example);
    let serve = with_bound(serve, together(alloc));
    with_bound(serve, rounds(alloc))
}

/// The same with what bounds clients.
fn serve_clients<'a>(alloc: Global) -> Result<Command<'a>, AllocError>
    ensures { IfOk result (IsCommand (spec.serve_with spec.client_rules)) }
{
    let serve = with_bound(serve_rounds(alloc), listen(alloc));
    let serve = with_bound(serve, quiet(alloc));
    let serve = with_bound(serve, per_address(alloc));
    with_bound(serve, posts_a_minute(alloc))
}

pub fn serve<'a>(alloc: Global) -> Result<Command<'a>, AllocError>
    ensures { IfOk result (IsCommand spec.serve_command) }
{
    let serve = with_bound(serve_clients(alloc), old_clients(alloc));
    let serve = with_bound(serve, common_log(alloc));
    let serve = with_bound(serve, unless_rounds(socket(alloc)));
    with_bound(serve, no_socket(alloc))
}
