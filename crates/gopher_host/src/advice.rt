// What to do about an image that is not had, a file of changes, a change, an item, an address, or the administrators' socket.
ghost use Rattle.std.specs.Prelude.{◌≡◌};
ghost use Rattle.gopher_host.specs.Advice as spec;

use admin_lines::ReplyFault;
use admin_socket::SocketFault;
use change_file::ChangeFileFault;
use common_types::Refused;
use daily_server::NetCause;
use file_names::Lack;
use image_items::ItemFault;

/// About an image that is not had.
pub fn lack_advice(lack: Lack) -> &'static str
    ensures { result.now ≡ spec.lack_advice lack }
{
    match lack {
        Lack::Missing => "No file has that name.",
        Lack::Folder => "A folder has that name.",
        Lack::Denied => {
            "It may not be read and written: the rights of the file or of its folders forbid it, or the disk is read-only."
        }
        Lack::Locked => "Another program has it open.",
        Lack::Unknown => "It can not be read and written, or another program had it open.",
    }
}

/// About an image that is not made.
pub fn making_advice(lack: Lack) -> &'static str
    ensures { result.now ≡ spec.making_advice lack }
{
    match lack {
        Lack::Missing => {
            "No file can be made there: its folder is not there, or may not be written."
        }
        _ => lack_advice(lack),
    }
}

/// About a change that is refused.
pub fn refused_advice(refused: Refused) -> &'static str
    ensures { result.now ≡ spec.refused_advice refused }
{
    match refused {
        Refused::BadName => {
            "A name is empty or has a byte that it may not have; or a count, a cap or a port is 0, two views have the same name, or an item was to be moved onto itself."
        }
        Refused::TooLong => {
            "A name, a text or a list is longer than may be: docs/CHANGE_FILE.md has the limits."
        }
        Refused::Reserved => {
            "Selectors of posts and links come by themselves: no change can put them."
        }
        Refused::Missing => {
            "Nothing stands at that selector: the command `show` lists what does."
        }
        Refused::NotEmpty => {
            "A board with posts stands there: remove them first; the command `posts` lists them."
        }
        Refused::Root => {
            "The empty selector always has a menu: another menu can be put there, and nothing else."
        }
        Refused::NotABoard => {
            "No board stands where the posts of that form are to go: put it first."
        }
        Refused::WrongAnswers | Refused::WrongWord | Refused::Spent => "",
    }
}

/// About a file of changes that can't be read.
pub fn file_advice(fault: ChangeFileFault) -> &'static str
    ensures { result.now ≡ spec.file_advice fault }
{
    match fault {
        ChangeFileFault::NotToml => "The file is no TOML.",
        ChangeFileFault::Table(_) => {
            "A key of that table is missing, unknown, or of another sort: docs/CHANGE_FILE.md has the keys."
        }
        ChangeFileFault::Memory => "",
    }
}

/// About an item that is not what a command wants.
pub fn item_advice(fault: ItemFault) -> &'static str
    ensures { result.now ≡ spec.item_advice fault }
{
    match fault {
        ItemFault::Refused(_) => "A selector has at most 255 bytes, and no TAB, CR or LF.",
        ItemFault::NotFound => "The command `show` lists what stands in the image.",
        ItemFault::NoDocument => {
            "The command `get` writes documents; `show` tells what an item is."
        }
        ItemFault::NoView => "Without --view the first view is written.",
        ItemFault::NoBoard => {
            "The command `show` tells what an item is; a board is listed as a menu."
        }
    }
}

/// About an address that can't be listened on.
pub fn cause_advice(cause: NetCause) -> &'static str
    ensures { result.now ≡ spec.cause_advice cause }
{
    match cause {
        NetCause::Taken => "another program listens there.",
        NetCause::Elsewhere => "this machine has no such address.",
        NetCause::Forbidden => {
            "the program may not listen there: a port below 1024 wants a right of its own."
        }
        NetCause::Other => "the system gives no listener there.",
    }
}

/// About the socket on which administrators were to come.
pub fn socket_advice(fault: SocketFault) -> &'static str
    ensures { result.now ≡ spec.socket_advice fault }
{
    match fault {
        SocketFault::Taken => {
            "Another server answers on the administrators' socket: give this one another by --admin, or none by --no-admin."
        }
        SocketFault::There => {
            "Something else has the name of the administrators' socket: give another one by --admin, or none by --no-admin."
        }
        SocketFault::NoSocket => {
            "The administrators' socket can not be made: give another name by --admin, of at most 107 bytes, or none by --no-admin."
        }
    }
}

/// About a server's answer that is none.
pub fn reply_advice(fault: ReplyFault) -> &'static str
    ensures { result.now ≡ spec.reply_advice fault }
{
    match fault {
        ReplyFault::Cut => {
            "The server went before it answered: the first of these changes may be made."
        }
        ReplyFault::NoReply => {
            "What answers on the administrators' socket is no server of this program."
        }
    }
}
