// Changes of a site, as lines name them.
use crate::fault::RowFault;
use crate::fields::{bytes, kind, link_kind, number, selector, title};
use host_types::{
    Admin, Body, Bytes, Change, ChoiceList, Entry, EntryList, Host, Item, Kind, Question,
    QuestionList, Stamp, Url, View, ViewList,
};
use std::alloc::Global;

/// The views of `NAME LANGUAGE BYTES` and so on.
fn views(alloc: Global, fields: &[&str]) -> Result<ViewList, RowFault> {
    let mut views = ViewList::new(alloc);
    for view in fields.chunks(3) {
        let [name, language, text] = view else {
            return Err(RowFault::Line);
        };
        views.push(View {
            name: bytes(alloc, &[name])?,
            language: bytes(alloc, &[language])?,
            bytes: bytes(alloc, &[text])?,
        })?;
    }
    Ok(views)
}

/// Adds the first entry of some fields, where they have one, and answers how many fields it has.
fn push_entry(alloc: Global, entries: &mut EntryList, fields: &[&str]) -> Result<usize, RowFault> {
    let (entry, taken) = match fields {
        [] => return Ok(0),
        ["local", at, ..] => (Entry::Local(selector(alloc, at)?), 2),
        ["info", text, ..] => (Entry::Info(title(alloc, text)?), 2),
        ["url", text, url, ..] => {
            let url = Url::new(bytes(alloc, &[url])?.as_slice())?;
            let title = title(alloc, text)?;
            (Entry::Url { title, url }, 3)
        }
        ["remote", letter, text, at, host, port, ..] => {
            let entry = Entry::Remote {
                kind: link_kind(letter)?,
                title: title(alloc, text)?,
                selector: selector(alloc, at)?,
                host: Host::new(bytes(alloc, &[host])?.as_slice())?,
                port: number(port)?,
            };
            (entry, 6)
        }
        _ => return Err(RowFault::Line),
    };
    entries.push(entry)?;
    Ok(taken)
}

fn entries(alloc: Global, fields: &[&str]) -> Result<EntryList, RowFault> {
    let mut entries = EntryList::new(alloc);
    let mut taken = 0usize;
    // There are no more entries than fields.
    for _ in fields {
        let rest = fields.get(taken..).unwrap_or(&[]);
        taken = taken.saturating_add(push_entry(alloc, &mut entries, rest)?);
    }
    Ok(entries)
}

fn choices(alloc: Global, fields: &[&str]) -> Result<ChoiceList, RowFault> {
    let mut choices = ChoiceList::new(alloc);
    for choice in fields {
        choices.push(bytes(alloc, &[choice])?)?;
    }
    Ok(choices)
}

/// Adds the first question of some fields, where they have one, and answers how many fields it has.
fn push_question(
    alloc: Global,
    questions: &mut QuestionList,
    fields: &[&str],
) -> Result<usize, RowFault> {
    let (question, taken) = match fields {
        [] => return Ok(0),
        ["ask", prompt, ..] => (Question::Ask(title(alloc, prompt)?), 2),
        ["askl", prompt, ..] => (Question::AskL(title(alloc, prompt)?), 2),
        ["askp", prompt, word, ..] => {
            let prompt = title(alloc, prompt)?;
            let word = bytes(alloc, &[word])?;
            (Question::AskP { prompt, word }, 3)
        }
        ["choose", prompt, count, rest @ ..] => {
            let count = number::<usize>(count)?;
            let Some(texts) = rest.get(..count) else {
                return Err(RowFault::Line);
            };
            let prompt = title(alloc, prompt)?;
            let choices = choices(alloc, texts)?;
            (
                Question::Choose { prompt, choices },
                count.saturating_add(3),
            )
        }
        _ => return Err(RowFault::Line),
    };
    questions.push(question)?;
    Ok(taken)
}

fn questions(alloc: Global, fields: &[&str]) -> Result<QuestionList, RowFault> {
    let mut questions = QuestionList::new(alloc);
    let mut taken = 0usize;
    // There are no more questions than fields.
    for _ in fields {
        let rest = fields.get(taken..).unwrap_or(&[]);
        taken = taken.saturating_add(push_question(alloc, &mut questions, rest)?);
    }
    Ok(questions)
}

fn body(alloc: Global, fields: &[&str]) -> Result<Body, RowFault> {
    Ok(match fields {
        ["views", letter, all @ ..] => Body::Views(kind(letter)?, views(alloc, all)?),
        ["menu", all @ ..] => Body::Menu(entries(alloc, all)?),
        ["board", cap] => Body::Board {
            cap: number(cap)?,
            next: 1,
        },
        ["form", board, all @ ..] => Body::Form {
            board: selector(alloc, board)?,
            questions: questions(alloc, all)?,
        },
        ["search", scope] => Body::Search {
            scope: selector(alloc, scope)?,
        },
        ["text", all @ ..] => {
            let mut views = ViewList::new(alloc);
            views.push(View {
                name: Bytes::from_slice(alloc, b"Text/plain")?,
                language: Bytes::new(alloc),
                bytes: bytes(alloc, all)?,
            })?;
            Body::Views(Kind::Text, views)
        }
        _ => return Err(RowFault::Line),
    })
}

/// What puts an item at a selector, by `SELECTOR TITLE SUMMARY BODY` and the moment until which it is found.
fn put(alloc: Global, until: Option<Stamp>, fields: &[&str]) -> Result<Change, RowFault> {
    let [at, text, summary, rest @ ..] = fields else {
        return Err(RowFault::Line);
    };
    let at = selector(alloc, at)?;
    let item = Item {
        title: title(alloc, text)?,
        stamp: Stamp::start(),
        until,
        summary: bytes(alloc, &[summary])?,
        body: body(alloc, rest)?,
    };
    Ok(Change::Put(at, item))
}

/// The change that a line names, or none where its first word is another one.
pub fn change(alloc: Global, fields: &[&str]) -> Result<Option<Change>, RowFault> {
    Ok(Some(match fields {
        ["put", rest @ ..] => put(alloc, None, rest)?,
        ["until", seconds, rest @ ..] => { put(alloc, Some(Stamp::new(number(seconds)?)?), rest)? }
        ["remove", at] => Change::Remove(selector(alloc, at)?),
        ["move", from, to] => Change::Move {
            from: selector(alloc, from)?,
            to: selector(alloc, to)?,
        },
        ["host", host, port] => Change::SetHost {
            host: Host::new(bytes(alloc, &[host])?.as_slice())?,
            port: number(port)?,
        },
        ["admin", text] => Change::SetAdmin(Admin::new(bytes(alloc, &[text])?.as_slice())?),
        ["post", board, text, body @ ..] => Change::Post {
            board: selector(alloc, board)?,
            title: title(alloc, text)?,
            text: bytes(alloc, body)?,
        },
        _ => return Ok(None),
    }))
}
