// What the types say of each value: its names are valid, and its numbers fit.
ghost use Rattle.std.specs.Prelude.{IsTrue};
ghost use Rattle.std.specs.List.{list_all};
ghost use Rattle.host_types.specs.Items.{is_selector, is_title, is_admin, is_host, is_link, is_typed_entry, prompt_of, is_typed_body, is_until, is_typed_item};
ghost use Rattle.host_types.specs.ValidChanges.{is_typed_change};

use crate::{Admin, Body, Change, Entry, Host, Item, Question, Selector, Stamp, Title, Url};

/// A name is valid as its type says.
pub fn valid_selector(selector: &Selector)
    ensures { IsTrue (is_selector selector.now) }
{
    let _ = selector.as_bytes();
}

fn valid_title(title: &Title)
    ensures { IsTrue (is_title title.now) }
{
    let _ = title.as_bytes();
}

/// A name is valid as its type says.
pub fn valid_admin(admin: &Admin)
    ensures { IsTrue (is_admin admin.now) }
{
    let _ = admin.as_bytes();
}

/// A name is valid as its type says.
pub fn valid_host(host: &Host)
    ensures { IsTrue (is_host host.now) }
{
    let _ = host.as_bytes();
}

fn valid_url(url: &Url)
    ensures { IsTrue (is_link url.now) }
{
    let _ = url.as_bytes();
}

impl Entry {
    fn valid_names(&self)
        ensures { IsTrue (is_typed_entry self.now) }
    {
        match self {
            Entry::Local(selector) => valid_selector(selector),
            Entry::Info(title) => valid_title(title),
            Entry::Url { title, url } => {
                valid_title(title);
                valid_url(url);
            }
            Entry::Remote {
                title,
                selector,
                host,
                port,
                ..
            } => {
                valid_title(title);
                valid_selector(selector);
                valid_host(host);
                let _port = *port;
            }
        }
    }
}

fn valid_entries(entries: &[Entry])
    ensures { IsTrue (list_all is_typed_entry entries.now) }
{
    for entry in entries {
        entry.valid_names();
    }
}

impl Question {
    fn valid_prompt(&self)
        ensures { IsTrue (is_title (prompt_of self.now)) }
    {
        match self {
            Question::Ask(prompt)
            | Question::AskL(prompt)
            | Question::AskP { prompt, .. }
            | Question::Choose { prompt, .. } => valid_title(prompt),
        }
    }
}

fn valid_questions(questions: &[Question])
    ensures { IsTrue (list_all (λ q. is_title (prompt_of q)) questions.now) }
{
    for question in questions {
        question.valid_prompt();
    }
}

impl Body {
    fn valid_names(&self)
        ensures { IsTrue (is_typed_body self.now) }
    {
        match self {
            Body::Views(..) => (),
            Body::Menu(entries) => valid_entries(entries.as_slice()),
            Body::Board { next, .. } => {
                let _next = *next;
            }
            Body::Form { board, questions } => {
                valid_selector(board);
                valid_questions(questions.as_slice());
            }
            Body::Search { scope } => valid_selector(scope),
            Body::Moved { target } => valid_selector(target),
        }
    }
}

/// A moment fits, where there is one.
fn valid_until(until: Option<Stamp>)
    ensures { IsTrue (is_until until) }
{
    if let Some(until) = until {
        let _ = until.seconds();
    }
}

impl Item {
    /// Each of its names is valid as its type says, and its numbers fit.
    pub fn valid_names(&self)
        ensures { IsTrue (is_typed_item self.now) }
    {
        valid_title(&self.title);
        let _ = self.stamp.seconds();
        valid_until(self.until);
        self.body.valid_names();
    }
}

impl Change {
    /// Each of its names is valid as its type says, and each of its numbers fits, which `changes_keep_sites_valid` asks of a change.
    pub fn valid_names(&self)
        ensures { IsTrue (is_typed_change self.now) }
    {
        match self {
            Change::Put(selector, item) => {
                valid_selector(selector);
                item.valid_names();
            }
            Change::Remove(selector) => valid_selector(selector),
            Change::Move { from, to } => {
                valid_selector(from);
                valid_selector(to);
            }
            Change::SetHost { host, port } => {
                valid_host(host);
                let _port = *port;
            }
            Change::SetAdmin(admin) => valid_admin(admin),
            Change::Post { board, title, .. } => {
                valid_selector(board);
                valid_title(title);
            }
        }
    }
}
