// Which word of the command line names a new site as no site may be named.
ghost use Rattle.std.specs.Prelude.{◌≡◌};
ghost use Rattle.gopher_host.specs.Faults.{word_line};
ghost use Rattle.gopher_host.specs.RefusedWords as spec;

use crate::fault::Fault;
use command_words::{NewSite, Task};
use host_types::{Admin, Host, Title};
use image_commands::ImageFault;

/// A word by which a new site gets a name.
#[derive(Clone, Copy, Debug, PartialEq, Eq)]
pub enum NameWord {
    Host,
    Admin,
    Title,
}

impl NameWord {
    /// The line about it, without its LF.
    pub fn line(self) -> &'static str
        ensures { result.now ≡ word_line self }
    {
        match self {
            NameWord::Host => "The host is refused: --host.",
            NameWord::Admin => "The administrator is refused: --admin.",
            NameWord::Title => "The title is refused: --title.",
        }
    }
}

/// The first word of a new site whose name is refused, unless its port is refused before.
fn first_refused(site: &NewSite<'_>) -> Option<NameWord>
    ensures { result ≡ spec.first_refused site.now }
{
    if site.port == 0 {
        return None;
    }
    if Host::new(site.host.as_bytes()).is_err() {
        return Some(NameWord::Host);
    }
    if Admin::new(site.admin.as_bytes()).is_err() {
        return Some(NameWord::Admin);
    }
    if Title::new(site.title.as_bytes()).is_err() {
        return Some(NameWord::Title);
    }
    None
}

/// That of a task, where it makes a new site.
pub fn refused_word(task: &Task<'_>) -> Option<NameWord>
    ensures { result ≡ spec.refused_word task.now }
{
    match task {
        Task::Format { site, .. } | Task::Init { site, .. } => first_refused(site),
        _ => None,
    }
}

/// How a task ended. Where a name was refused, its word is named, if there is one.
pub fn with_word(word: Option<NameWord>, ended: Result<(), Fault>) -> Result<(), Fault>
    ensures { result ≡ spec.with_word word ended }
{
    match (ended, word) {
        (Err(Fault::Image(ImageFault::Refused(refused))), Some(word)) => {
            Err(Fault::RefusedName(refused, word))
        }
        (ended, _) => ended,
    }
}
