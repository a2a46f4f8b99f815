// The arguments of the commands, with their help texts.
ghost use Rattle.std.specs.Prelude.{◌≡◌, IfOk, [], ◌∷◌, codes};
ghost use Rattle.clap.specs.Words.{Rule};
ghost use Rattle.clap.specs.declared.builder.arg.ArgPredicate.TheVariants.{IsPresent};
ghost use Rattle.command_words.specs.CommandLine as spec;
ghost use Rattle.command_words.specs.CommandLine.{IsArg};

use clap::builder::ValueParser;
use clap::{Arg, ArgAction};
use std::alloc::{AllocError, Global};

/// The last second of the year 9999: the greatest moment.
const GREATEST_MOMENT: u64 = 253_402_300_799;

/// A file or the like, by its place among the words, which has to be there or not.
pub fn path<'a>(alloc: Global, name: &'a str, help: &'a str, is_required: bool) -> Arg<'a>
    ensures { IsArg (spec.where_required is_required (spec.path_rule name.entry.now)) result }
{
    let path = Arg::new(alloc, name).help(help).action(ArgAction::Set);
    path.required(is_required)
}

pub fn image<'a>(alloc: Global) -> Arg<'a>
    ensures { IsArg spec.image_rule result }
{
    path(alloc, "IMAGE", "The file of the image", true)
}

/// A word that is there or not.
pub fn flag<'a>(alloc: Global, name: &'a str, help: &'a str) -> Arg<'a>
    ensures { IsArg (spec.flag_rule name.entry.now) result }
{
    Arg::new(alloc, name)
        .long(name)
        .help(help)
        .action(ArgAction::SetTrue)
}

/// A text behind its name, which has to be there or not.
pub fn text<'a>(
    alloc: Global,
    name: &'a str,
    value: &'a str,
    help: &'a str,
    is_required: bool,
) -> Arg<'a>
    ensures { IsArg (spec.where_required is_required (spec.text_rule name.entry.now)) result }
{
    Arg::new(alloc, name)
        .long(name)
        .value_name(value)
        .help(help)
        .required(is_required)
        .action(ArgAction::Set)
}

/// A number behind its name, which has to be there or not.
pub fn number<'a>(
    alloc: Global,
    name: &'a str,
    value: &'a str,
    help: &'a str,
    least: u64,
    most: u64,
    is_required: bool,
) -> Arg<'a>
    ensures { IsArg (spec.where_required is_required (spec.number_rule name.entry.now least most)) result }
{
    text(alloc, name, value, help, is_required).value_parser(ValueParser::unsigned(least, most))
}

pub fn now<'a>(alloc: Global) -> Arg<'a>
    ensures { IsArg spec.now_rule result }
{
    let help =
        "The moment of the change, in seconds since 1970-01-01, up to the end of the year 9999; if left out, this one, by the system's clock";
    number(alloc, "now", "SECONDS", help, 0, GREATEST_MOMENT, false)
}

/// The name of the administrators' socket, which may be left out.
pub fn socket<'a>(alloc: Global) -> Arg<'a>
    ensures { IsArg spec.socket_rule result }
{
    let help =
        "The socket on which administrators come while the image is served; if left out, beside the image";
    text(alloc, "admin", "PATH", help, false)
}

/// How many pages an image has, which has to be said or not.
pub fn pages<'a>(alloc: Global, help: &'a str, is_required: bool) -> Arg<'a>
    ensures { IsArg (spec.where_required is_required (spec.number_rule (codes "pages") 0 4294967295)) result }
{
    number(alloc, "pages", "N", help, 0, 4_294_967_295, is_required)
}

/// The name of a site's host.
pub fn host<'a>(alloc: Global, help: &'a str) -> Arg<'a>
    ensures { IsArg (spec.text_rule (codes "host")) result }
{
    text(alloc, "host", "NAME", help, true)
}

/// A site's port.
pub fn port<'a>(alloc: Global, help: &'a str) -> Arg<'a>
    ensures { IsArg (spec.number_rule (codes "port") 1 65535) result }
{
    number(alloc, "port", "N", help, 1, 65_535, true)
}

/// A site's administrator.
pub fn admin<'a>(alloc: Global, help: &'a str) -> Arg<'a>
    ensures { IsArg (spec.text_rule (codes "admin")) result }
{
    text(alloc, "admin", "TEXT", help, true)
}

/// The title of a site's top menu.
pub fn title<'a>(alloc: Global, help: &'a str) -> Arg<'a>
    ensures { IsArg (spec.text_rule (codes "title")) result }
{
    text(alloc, "title", "TEXT", help, true)
}

/// The same where it may be left out, and what stands for it then.
pub fn standing<'a>(arg: Arg<'a>, value: &'a str) -> Arg<'a>
    ensures { (rule : Rule) → IsArg rule arg.entry → IsArg (spec.standing value.entry.now rule) result }
{
    arg.required(false)
        .default_value(value)
        .hide_default_value(true)
}

/// The same with one value or more.
pub fn some_values<'a>(arg: Arg<'a>) -> Arg<'a>
    ensures { (rule : Rule) → IsArg rule arg.entry → IsArg (spec.some_values rule) result }
{
    arg.num_args(1..)
}

/// A number of a server in rounds, which has another one with it.
pub fn in_rounds<'a>(
    alloc: Global,
    name: &'a str,
    value: &'a str,
    help: &'a str,
    least: u64,
    most: u64,
    other: &'a str,
) -> Result<Arg<'a>, AllocError>
    ensures rule { IfOk result (IsArg (spec.bound_rule (spec.number_rule name.entry.now least most))) }
    ensures other { IfOk result (λ a. a.needs.items ≡ (IsPresent, other.entry) ∷ []) }
{
    number(alloc, name, value, help, least, most, false).requires_arg(other)
}

/// The same, which can't stand beside a number of rounds.
pub fn unless_rounds<'a>(arg: Arg<'a>) -> Result<Arg<'a>, AllocError>
    ensures { (rule : Rule) → IsArg rule arg.entry → IfOk result (IsArg (spec.unless_rounds rule)) }
{
    arg.conflicts_with("rounds")
}
