// Changes and items as they are printed.
use change_file::FileChange;
use host_types::{Body, Change, Entry, Item, Question, Stamp, View};
use std::alloc::{AllocError, Global};

/// A text that is printed, made part by part.
#[derive(Drop)]
pub(crate) struct Shown {
    alloc: Global,
    pub text: String,
}

impl Shown {
    pub fn new(alloc: Global) -> Shown {
        Shown {
            alloc,
            text: String::new(alloc),
        }
    }

    pub fn word(&mut self, word: &str) -> Result<(), AllocError> {
        self.text.push_str(word)?;
        Ok(())
    }

    fn number(&mut self, number: u64) -> Result<(), AllocError> {
        let part = format!(in self.alloc; " {number}")?;
        self.word(part.as_str())
    }

    /// Bytes in quotation marks, or by their digits where they are no text.
    pub fn bytes(&mut self, bytes: &[u8]) -> Result<(), AllocError> {
        let part = match std::str::from_utf8(bytes) {
            Ok(text) => format!(in self.alloc; " {text:?}")?,
            Err(_) => {
                let digits = hex::encode(self.alloc, bytes)?;
                format!(in self.alloc; " {}", digits.as_str())?
            }
        };
        self.word(part.as_str())
    }

    fn letter(&mut self, letter: u8) -> Result<(), AllocError> {
        self.bytes(&[letter])
    }

    fn view(&mut self, view: &View) -> Result<(), AllocError> {
        self.word(" view")?;
        self.bytes(view.name.as_slice())?;
        self.bytes(view.language.as_slice())?;
        self.bytes(view.bytes.as_slice())
    }

    fn entry(&mut self, entry: &Entry) -> Result<(), AllocError> {
        match entry {
            Entry::Local(selector) => {
                self.word(" local")?;
                self.bytes(selector.as_bytes())
            }
            Entry::Info(title) => {
                self.word(" info")?;
                self.bytes(title.as_bytes())
            }
            Entry::Url { title, url } => {
                self.word(" url")?;
                self.bytes(title.as_bytes())?;
                self.bytes(url.as_bytes())
            }
            Entry::Remote {
                kind,
                title,
                selector,
                host,
                port,
            } => {
                self.word(" remote")?;
                self.letter(kind.letter())?;
                self.bytes(title.as_bytes())?;
                self.bytes(selector.as_bytes())?;
                self.bytes(host.as_bytes())?;
                self.number(u64::from(*port))
            }
        }
    }

    fn question(&mut self, question: &Question) -> Result<(), AllocError> {
        match question {
            Question::Ask(prompt) => {
                self.word(" ask")?;
                self.bytes(prompt.as_bytes())
            }
            Question::AskL(prompt) => {
                self.word(" askl")?;
                self.bytes(prompt.as_bytes())
            }
            Question::AskP { prompt, word } => {
                self.word(" askp")?;
                self.bytes(prompt.as_bytes())?;
                self.bytes(word.as_slice())
            }
            Question::Choose { prompt, choices } => {
                self.word(" choose")?;
                self.bytes(prompt.as_bytes())?;
                for choice in choices.as_slice() {
                    self.bytes(choice.as_slice())?;
                }
                Ok(())
            }
        }
    }

    fn body(&mut self, body: &Body) -> Result<(), AllocError> {
        match body {
            Body::Views(kind, views) => {
                self.word(" document")?;
                self.letter(kind.letter())?;
                for view in views.as_slice() {
                    self.view(view)?;
                }
                Ok(())
            }
            Body::Menu(entries) => {
                self.word(" menu")?;
                for entry in entries.as_slice() {
                    self.entry(entry)?;
                }
                Ok(())
            }
            Body::Board { cap, next } => {
                self.word(" board")?;
                self.number(u64::from(*cap))?;
                self.number(*next)
            }
            Body::Form { board, questions } => {
                self.word(" form")?;
                self.bytes(board.as_bytes())?;
                for question in questions.as_slice() {
                    self.question(question)?;
                }
                Ok(())
            }
            Body::Search { scope } => {
                self.word(" search")?;
                self.bytes(scope.as_bytes())
            }
            Body::Moved { target } => {
                self.word(" moved")?;
                self.bytes(target.as_bytes())
            }
        }
    }

    fn until(&mut self, until: Option<Stamp>) -> Result<(), AllocError> {
        match until {
            Some(until) => {
                self.word(" until")?;
                self.number(until.seconds())
            }
            None => Ok(()),
        }
    }

    /// Title, stamp, moment of expiry where there is one, summary and body.
    pub fn item(&mut self, item: &Item) -> Result<(), AllocError> {
        self.bytes(item.title.as_bytes())?;
        self.number(item.stamp.seconds())?;
        self.until(item.until)?;
        self.bytes(item.summary.as_slice())?;
        self.body(&item.body)
    }

    fn site_change(&mut self, change: &Change) -> Result<(), AllocError> {
        match change {
            Change::Put(selector, item) => {
                self.word("put")?;
                self.bytes(selector.as_bytes())?;
                self.item(item)
            }
            Change::Remove(selector) => {
                self.word("remove")?;
                self.bytes(selector.as_bytes())
            }
            Change::Move { from, to } => {
                self.word("move")?;
                self.bytes(from.as_bytes())?;
                self.bytes(to.as_bytes())
            }
            Change::SetHost { host, port } => {
                self.word("host")?;
                self.bytes(host.as_bytes())?;
                self.number(u64::from(*port))
            }
            Change::SetAdmin(admin) => {
                self.word("admin")?;
                self.bytes(admin.as_bytes())
            }
            Change::Post { board, .. } => {
                self.word("post")?;
                self.bytes(board.as_bytes())
            }
        }
    }

    /// One change of a file.
    pub fn change(&mut self, change: &FileChange) -> Result<(), AllocError> {
        match change {
            FileChange::Change(change) => self.site_change(change),
            FileChange::Refused(refused) => {
                let part = format!(in self.alloc; "refused {refused}")?;
                self.word(part.as_str())
            }
        }
    }
}
