// The commands, with their help texts, but for the one that serves.
ghost use Rattle.std.specs.Prelude.{IfOk, [], codes};
ghost use Rattle.clap.specs.Words.{App, Rule, with_rule};
ghost use Rattle.command_words.specs.CommandLine as spec;
ghost use Rattle.command_words.specs.CommandLine.{IsApp, IsArg, IsCommand};

use crate::arguments::{
    admin, flag, host, image, now, pages, path, port, socket, some_values, standing, text, title,
};
use clap::{Arg, Command};
use std::alloc::{AllocError, Global};

/// The command with one more argument, where the command was made.
pub fn with_arg<'a>(
    command: Result<Command<'a>, AllocError>,
    arg: Arg<'a>,
) -> Result<Command<'a>, AllocError>
    ensures { (app : App) (rule : Rule) → IfOk command.entry (IsApp app) → IsArg rule arg.entry → IfOk result (IsApp (with_rule app rule)) }
{
    command?.arg(arg)
}

/// A command without arguments.
fn bare<'a>(alloc: Global, name: &'a str, about: &'a str, example: &'a str) -> Command<'a>
    ensures { IsCommand (spec.command name.entry.now []) result }
{
    Command::new(alloc, name).about(about).after_help(example)
}

/// A command that takes an image.
pub fn of_image<'a>(
    alloc: Global,
    name: &'a str,
    about: &'a str,
    example: &'a str,
) -> Result<Command<'a>, AllocError>
    ensures { IfOk result (IsCommand (spec.image_command name.entry.now)) }
{
    with_arg(Ok(bare(alloc, name, about, example)), image(alloc))
}

pub fn format<'a>(alloc: Global) -> Result<Command<'a>, AllocError>
    ensures { IfOk result (IsCommand spec.format_command) }
{
    let about = "Makes an image with an empty top menu; what the file held is gone";
    let example =
        "Example: gopher_host format site.img --pages 4096 --host localhost --port 7070 --admin 'Ada <ada@localhost>' --title Top";
    let format = of_image(alloc, "format", about, example);
    let help =
        "How many pages of 4,096 bytes the image has, 16 to 65,536; a change is written to free ones";
    let format = with_arg(format, pages(alloc, help, true));
    let help =
        "The name of the host, as menus give it to clients: 1 to 100 visible characters of ASCII";
    let format = with_arg(format, host(alloc, help));
    let help = "The port that menus give to clients, and that `serve` listens on, 1 to 65,535";
    let format = with_arg(format, port(alloc, help));
    let help = "The administrator, as attributes show it: at most 100 bytes";
    let format = with_arg(format, admin(alloc, help));
    let help = "The title of the top menu, which is empty at first: at most 69 bytes";
    let format = with_arg(format, title(alloc, help));
    with_arg(format, now(alloc))
}

pub fn init<'a>(alloc: Global) -> Result<Command<'a>, AllocError>
    ensures { IfOk result (IsCommand spec.init_command) }
{
    let about = "Makes an image with an empty top menu in a file that is not there";
    let example = "Example: gopher_host init site.img --host gopher.example --title 'My burrow'";
    let init = of_image(alloc, "init", about, example);
    let help = "How many pages of 4,096 bytes the image has, 16 to 65,536; if left out, 4,096";
    let init = with_arg(init, standing(pages(alloc, help, true), "4096"));
    let help =
        "The name of the host, as menus give it to clients: 1 to 100 visible characters of ASCII; if left out, localhost";
    let init = with_arg(init, standing(host(alloc, help), "localhost"));
    let help =
        "The port that menus give to clients, and that `serve` listens on, 1 to 65,535; if left out, 70";
    let init = with_arg(init, standing(port(alloc, help), "70"));
    let help = "The administrator, as attributes show it: at most 100 bytes; if left out, nobody";
    let init = with_arg(init, standing(admin(alloc, help), ""));
    let help =
        "The title of the top menu, which is empty at first: at most 69 bytes; if left out, Home";
    let init = with_arg(init, standing(title(alloc, help), "Home"));
    with_arg(init, now(alloc))
}

pub fn apply<'a>(alloc: Global) -> Result<Command<'a>, AllocError>
    ensures { IfOk result (IsCommand spec.apply_command) }
{
    let about =
        "Makes the changes of a file, one after another; the first that is refused ends it, and earlier ones stay. On a terminal it shows how far it is";
    let example = "Example: gopher_host apply site.img changes.toml";
    let apply = of_image(alloc, "apply", about, example);
    let file = path(alloc, "FILE", "The file of changes, in TOML", true);
    let apply = with_arg(apply, file);
    let apply = with_arg(apply, now(alloc));
    with_arg(apply, socket(alloc))
}

pub fn drop<'a>(alloc: Global) -> Result<Command<'a>, AllocError>
    ensures { IfOk result (IsCommand spec.drop_command) }
{
    let about =
        "Removes items, posts too, one after another; the first that is refused ends it, and those before it stay removed";
    let example = "Example: gopher_host drop site.img post//book/3 /old";
    let drop = of_image(alloc, "drop", about, example);
    let selector = path(alloc, "SELECTOR", "The selectors of the items", true);
    let drop = with_arg(drop, some_values(selector));
    with_arg(drop, socket(alloc))
}

pub fn get<'a>(alloc: Global) -> Result<Command<'a>, AllocError>
    ensures { IfOk result (IsCommand spec.get_command) }
{
    let about = "Writes the bytes of a document to standard output, as they are stored";
    let example = "Example: gopher_host get site.img /about >about.txt";
    let get = of_image(alloc, "get", about, example);
    let selector = path(alloc, "SELECTOR", "The selector of the document", true);
    let get = with_arg(get, selector);
    let view =
        "Which view of it, by its name, as Text/plain, or by name and language, as 'Text/plain De_DE'; if left out, the first one";
    with_arg(get, text(alloc, "view", "NAME", view, false))
}

pub fn posts<'a>(alloc: Global) -> Result<Command<'a>, AllocError>
    ensures { IfOk result (IsCommand spec.posts_command) }
{
    let about = "Prints a line for each post of a board, as `show` prints lines, the newest last";
    let example = "Example: gopher_host posts site.img /book";
    let posts = of_image(alloc, "posts", about, example);
    let board = path(alloc, "BOARD", "The selector of the board", true);
    with_arg(posts, board)
}

pub fn show<'a>(alloc: Global) -> Result<Command<'a>, AllocError>
    ensures { IfOk result (IsCommand spec.show_command) }
{
    let about =
        "Prints a line for each item: its type, its selector and its title, with spaces in them as `\\x20`; `>` is a moved item";
    let example = "Example: gopher_host show site.img --long";
    let show = of_image(alloc, "show", about, example);
    let long =
        "Behind the type also the moment of its last change and its size: bytes of a document, entries of a menu, posts that a board has had, questions of a form";
    with_arg(show, flag(alloc, "long", long))
}

pub fn export<'a>(alloc: Global) -> Result<Command<'a>, AllocError>
    ensures { IfOk result (IsCommand (spec.image_command (codes "export"))) }
{
    let about =
        "Writes a file of changes to standard output, which puts the same items; what no change can put, as posts and notes of moved items, is named in its comments";
    let example = "Example: gopher_host export site.img >site.toml";
    of_image(alloc, "export", about, example)
}

pub fn import<'a>(alloc: Global) -> Result<Command<'a>, AllocError>
    ensures { IfOk result (IsCommand spec.import_command) }
{
    let about =
        "Writes a file of changes to standard output, which puts the files of a folder as documents and its folders as menus; what it can't put is told on standard error";
    let example = "Example: gopher_host import ~/gopher >site.toml";
    let import = bare(alloc, "import", about, example);
    let folder = "The folder, which is read with all folders below it";
    let import = with_arg(Ok(import), path(alloc, "FOLDER", folder, true));
    let under = "The selector below which all is put; if left out, the top menu";
    with_arg(import, text(alloc, "under", "SELECTOR", under, false))
}

pub fn check<'a>(alloc: Global) -> Result<Command<'a>, AllocError>
    ensures { IfOk result (IsCommand (spec.image_command (codes "check"))) }
{
    let about =
        "Reads the whole image, and prints how many items, keys and free pages it has, and its generation";
    let example = "Example: gopher_host check site.img";
    of_image(alloc, "check", about, example)
}

pub fn compact<'a>(alloc: Global) -> Result<Command<'a>, AllocError>
    ensures { IfOk result (IsCommand (spec.image_command (codes "compact"))) }
{
    let about =
        "Writes the whole site anew in as few pages as it takes, in one step that a crash can't halve, and prints how many pages are free then; it needs free pages for all of it";
    let example = "Example: gopher_host compact site.img";
    of_image(alloc, "compact", about, example)
}

pub fn upgrade<'a>(alloc: Global) -> Result<Command<'a>, AllocError>
    ensures { IfOk result (IsCommand (spec.image_command (codes "upgrade"))) }
{
    let about =
        "Takes over the image of an older program: writes its site in this program's version, in one step that a crash can't halve, and prints how many items that were, or 0 where it is of this version already; it needs free pages for all records";
    let example = "Example: gopher_host upgrade site.img";
    of_image(alloc, "upgrade", about, example)
}

pub fn copy<'a>(alloc: Global) -> Result<Command<'a>, AllocError>
    ensures { IfOk result (IsCommand spec.copy_command) }
{
    let about =
        "Writes the site of an image as a new image, in filled pages: a backup, or an image with more or fewer pages; the old one stays as it is. Prints how many items were copied, and how many pages of the new one are free";
    let example = "Example: gopher_host copy site.img larger.img --pages 8192";
    let copy = of_image(alloc, "copy", about, example);
    let new = "The file of the new image, which must not be there yet";
    let copy = with_arg(copy, path(alloc, "NEW", new, true));
    let help =
        "How many pages of 4,096 bytes the new image has, 16 to 65,536; if left out, as many as the old one";
    with_arg(copy, pages(alloc, help, false))
}

pub fn replay<'a>(alloc: Global) -> Result<Command<'a>, AllocError>
    ensures { IfOk result (IsCommand spec.replay_command) }
{
    let about = "Prints the answers of a script on standard input";
    let example =
        "Example: printf 'join\\nbytes 1 /about\\\\r\\\\n\\ndraw 1 512\\n' | gopher_host replay site.img";
    let replay = bare(alloc, "replay", about, example);
    let image = "The file of the image; if left out, a site in memory";
    let replay = with_arg(Ok(replay), path(alloc, "IMAGE", image, false));
    let group =
        "Posts wait for one another until a line 'flush'; if left out, each is made at once";
    with_arg(replay, flag(alloc, "group", group))
}
