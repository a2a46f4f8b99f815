// What the words of the command line ask for.
ghost use Rattle.std.specs.Prelude.{◌≡◌, ◌≤◌, ◌↔◌, ◌⊎◌, IfOk, IfErr, map};
ghost use Rattle.std.specs.String.{string_bytes};
ghost use Rattle.std.specs.Process.{exit_status};
ghost use Rattle.command_words.specs.Misreads.{misread_of, status_of};
ghost use Rattle.command_words.specs.Reading.{IsReadAs};
ghost use Rattle.command_words.specs.declared.words.Misread.TheVariants.{Memory};

use crate::command_line::command_line;
use crate::tasks::task_of;
use clap::Error;
use clap::error::ErrorKind;
use std::alloc::{AllocError, Global};
use std::io;
use std::net::SocketAddr;
use std::process::ExitCode;

/// What the program is asked to do. Images are names of files, and moments seconds since 1970-01-01; where none is given, the system's clock tells it.
#[derive(Debug, Drop)]
pub enum Task<'a> {
    /// Makes an image.
    Format {
        image: &'a str,
        site: NewSite<'a>,
        pages: u32,
        now: Option<u64>,
    },
    /// Makes an image in a file that is not there.
    Init {
        image: &'a str,
        site: NewSite<'a>,
        pages: u32,
        now: Option<u64>,
    },
    /// Makes the changes of a file. Where the image is served, they are asked for on the administrators' socket, which has this name or else stands beside the image.
    Apply {
        image: &'a str,
        file: &'a str,
        now: Option<u64>,
        socket: Option<&'a str>,
    },
    /// Removes items, one after another, in the same way.
    Remove {
        image: &'a str,
        selectors: Vec<&'a str>,
        socket: Option<&'a str>,
    },
    /// Prints the bytes of a document, of its first view or of the one that is named.
    Get {
        image: &'a str,
        selector: &'a str,
        view: Option<&'a str>,
    },
    /// Lists the posts of a board.
    Posts {
        image: &'a str,
        board: &'a str,
    },
    /// Lists the items of an image, at length or not.
    Show {
        image: &'a str,
        long: bool,
    },
    /// Writes the items of an image as a file of changes.
    Export {
        image: &'a str,
    },
    /// Writes the files of a folder as a file of changes, which puts them below a selector.
    Import {
        folder: &'a str,
        under: Option<&'a str>,
    },
    /// Counts what an image holds.
    Check {
        image: &'a str,
    },
    /// Writes an image anew in as few pages as it takes.
    Compact {
        image: &'a str,
    },
    /// Takes over an image of an older version.
    Upgrade {
        image: &'a str,
    },
    /// Writes the site of an image as a new one, of so many pages or as many as the old one has.
    Copy {
        image: &'a str,
        new: &'a str,
        pages: Option<u32>,
    },
    /// Runs the script on standard input, in which posts wait for one another or don't, and prints its answers.
    Replay {
        image: Option<&'a str>,
        group: bool,
    },
    /// Serves so many rounds of connections over an image.
    ServeRounds {
        image: &'a str,
        together: u32,
        rounds: u32,
    },
    /// Serves whoever comes, at an address or else the site's own port on 127.0.0.1, with a log or without, so many clients of one address at a time, and so many posts of one in a minute where that is limited. They are taken for old clients or not. The log may be in the common log format. Administrators come on a socket.
    ServeClients {
        image: &'a str,
        listen: Option<SocketAddr>,
        quiet: bool,
        per_address: u32,
        posts: Option<u32>,
        old_clients: bool,
        common_log: bool,
        place: SocketPlace<'a>,
    },
}

/// Where the socket stands on which administrators come to a served image.
#[derive(Clone, Copy, Debug)]
pub enum SocketPlace<'a> {
    /// Beside the image.
    Beside,
    /// Under this name.
    Named(&'a str),
    /// There is none.
    Nowhere,
}

/// What a new site is given.
#[derive(Clone, Copy, Debug)]
pub struct NewSite<'a> {
    pub host: &'a str,
    pub port: u16,
    pub admin: &'a str,
    pub title: &'a str,
}

/// Why words are no task.
#[derive(Debug, Drop)]
pub enum Misread {
    /// A requested help text, or what is wrong with the words.
    Words(Error),
    /// A word is not UTF-8.
    NotUnicode,
    /// A word that a command wants is missing, or is no address and port.
    Incomplete,
    Memory,
}

impl Misread {
    /// The status with which the program ends: 0 after a requested help text, 1 for lack of memory, else 2.
    pub fn status(&self) -> u8
        ensures known { result ≤ 2 }
        ensures memory { (result ≡ 1) ↔ (self.now ≡ Misread.Memory) }
        ensures value { result ≡ status_of self.now }
    {
        match self {
            Misread::Words(error) => { if error.exit_code() == 0 { 0 } else { 2 } }
            Misread::NotUnicode | Misread::Incomplete => 2,
            Misread::Memory => 1,
        }
    }

    /// Prints the text for the user, and gives the status.
    pub fn tell(&self, rt: &HostRuntime) -> io::Result<ExitCode>
        ensures { IfOk result (λ code. exit_status code ≡ status_of self.now) }
    {
        match self {
            Misread::Words(error) => error.print(rt)?,
            Misread::NotUnicode => eprintln!(rt; "error: a word of the command line is not UTF-8")?,
            Misread::Incomplete => eprintln!(rt;
                "error: a word is missing, or is no address and port"
            )?,
            Misread::Memory => eprintln!(rt; "memory")?,
        }
        Ok(ExitCode::from(self.status()))
    }
}

impl From<Error> for Misread {
    ghost from_gives = { λ error misread. misread ≡ misread_of error };

    fn from(error: Error) -> Self {
        if error.kind() == ErrorKind::OutOfMemory {
            return Misread::Memory;
        }
        Misread::Words(error)
    }
}

impl From<AllocError> for Misread {
    ghost from_gives = { λ _ misread. misread ≡ Memory };

    fn from(_: AllocError) -> Self {
        Misread::Memory
    }
}

/// The words that the program was given.
pub fn given(rt: &HostRuntime) -> Result<Vec<String>, Misread>
    ensures { IfErr result (λ why. (why ≡ Misread.NotUnicode) ⊎ (why ≡ Misread.Memory)) }
{
    let words = match std::env::args(rt) {
        Ok(words) => words,
        Err(error) if error.kind() == io::ErrorKind::InvalidData => return Err(Misread::NotUnicode),
        Err(_) => return Err(Misread::Memory),
    };
    Ok(words.collect(rt.alloc())?)
}

/// What the words ask for, the first of which is the program's name.
pub fn read<'a>(alloc: Global, words: &'a [String]) -> Result<Task<'a>, Misread>
    ensures { IsReadAs (map string_bytes words.entry.now) result }
{
    let matches = command_line(alloc)?.try_get_matches_from(words)?;
    let Some((name, matches)) = matches.subcommand() else {
        return Err(Misread::Incomplete);
    };
    match task_of(alloc, name, matches)? {
        Some(task) => Ok(task),
        None => Err(Misread::Incomplete),
    }
}
