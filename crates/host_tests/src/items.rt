// Items from fields.
use crate::line::{number, small_number, text_of};
use crate::trouble::Trouble;
use host_types::{
    Body, Bytes, ChoiceList, Entry, EntryList, Host, Item, Kind, LinkKind, Question, QuestionList,
    Selector, Stamp, Title, Url, View, ViewList, lines_of,
};
use std::alloc::Global;

/// Views, each by its name, its language and its bytes.
fn views(alloc: Global, fields: &[Vec<u8>]) -> Result<ViewList, Trouble> {
    let mut list = ViewList::new(alloc);
    for view in fields.chunks(3) {
        let [name, language, bytes] = view else {
            return Err(Trouble::Line);
        };
        list.push(View {
            name: Bytes::from_slice(alloc, name)?,
            language: Bytes::from_slice(alloc, language)?,
            bytes: Bytes::from_slice(alloc, bytes)?,
        })?;
    }
    Ok(list)
}

/// A link to another server, by a title, a selector, a host and a port.
fn remote(kind: LinkKind, fields: &[Vec<u8>]) -> Result<Entry, Trouble> {
    let [title, selector, host, port] = fields else {
        return Err(Trouble::Line);
    };
    Ok(Entry::Remote {
        kind,
        title: Title::new(title)?,
        selector: Selector::new(selector)?,
        host: Host::new(host)?,
        port: small_number(port)?,
    })
}

/// An entry by a letter and what it needs.
fn entry(letter: u8, fields: &[Vec<u8>]) -> Result<Entry, Trouble> {
    match (letter, fields) {
        (b'l', [selector, ..]) => Ok(Entry::Local(Selector::new(selector)?)),
        (b'i', [title, ..]) => Ok(Entry::Info(Title::new(title)?)),
        (b'h', [title, url, ..]) => Ok(Entry::Url {
            title: Title::new(title)?,
            url: Url::new(url)?,
        }),
        (b'1', fields) => remote(LinkKind::Menu, fields),
        (b'7', fields) => remote(LinkKind::Search, fields),
        _ => Err(Trouble::Line),
    }
}

/// Entries of five fields each: a letter, and what it needs. `l` is a local item.
pub fn entries(alloc: Global, fields: &[Vec<u8>]) -> Result<EntryList, Trouble> {
    let mut list = EntryList::new(alloc);
    for fields in fields.chunks(5) {
        let [letter, rest @ ..] = fields else {
            return Err(Trouble::Line);
        };
        let [letter] = letter.as_slice() else {
            return Err(Trouble::Line);
        };
        list.push(entry(*letter, rest)?)?;
    }
    Ok(list)
}

/// Choices, each a line.
fn choices(alloc: Global, lines: &[u8]) -> Result<ChoiceList, Trouble> {
    let mut list = ChoiceList::new(alloc);
    for line in lines_of(alloc, lines)?.as_slice() {
        list.push(line.clone()?)?;
    }
    Ok(list)
}

/// A question for a word that has to be known.
fn ask_word(alloc: Global, prompt: Title, word: &[u8]) -> Result<Question, Trouble> {
    Ok(Question::AskP {
        prompt,
        word: Bytes::from_slice(alloc, word)?,
    })
}

/// A question with choices.
fn choose(alloc: Global, prompt: Title, lines: &[u8]) -> Result<Question, Trouble> {
    Ok(Question::Choose {
        prompt,
        choices: choices(alloc, lines)?,
    })
}

/// A question: `ask` and `askl` need no more than a prompt, `askp` a word, `choose` choices.
fn question(alloc: Global, sort: &str, prompt: Title, more: &[u8]) -> Result<Question, Trouble> {
    match sort {
        "ask" => Ok(Question::Ask(prompt)),
        "askl" => Ok(Question::AskL(prompt)),
        "askp" => ask_word(alloc, prompt, more),
        "choose" => choose(alloc, prompt, more),
        _ => Err(Trouble::Line),
    }
}

/// A form by the selector of its board, and questions of three fields each.
fn form(alloc: Global, board: &[u8], fields: &[Vec<u8>]) -> Result<Body, Trouble> {
    let board = Selector::new(board)?;
    let mut questions = QuestionList::new(alloc);
    for fields in fields.chunks(3) {
        let [sort, prompt, more] = fields else {
            return Err(Trouble::Line);
        };
        questions.push(question(alloc, text_of(sort), Title::new(prompt)?, more)?)?;
    }
    Ok(Body::Form { board, questions })
}

fn board(cap: &[u8], next: &[u8]) -> Result<Body, Trouble> {
    Ok(Body::Board {
        cap: small_number(cap)?,
        next: number(next)?,
    })
}

/// A document of some views.
fn document(alloc: Global, kind: Kind, fields: &[Vec<u8>]) -> Result<Body, Trouble> {
    Ok(Body::Views(kind, views(alloc, fields)?))
}

fn menu(alloc: Global, fields: &[Vec<u8>]) -> Result<Body, Trouble> {
    Ok(Body::Menu(entries(alloc, fields)?))
}

fn search(scope: &[u8]) -> Result<Body, Trouble> {
    Ok(Body::Search {
        scope: Selector::new(scope)?,
    })
}

fn moved(target: &[u8]) -> Result<Body, Trouble> {
    Ok(Body::Moved {
        target: Selector::new(target)?,
    })
}

/// A body by a word and what it needs.
fn body(alloc: Global, sort: &str, fields: &[Vec<u8>]) -> Result<Body, Trouble> {
    match (sort, fields) {
        ("text", fields) => document(alloc, Kind::Text, fields),
        ("image", fields) => document(alloc, Kind::Image, fields),
        ("menu", fields) => menu(alloc, fields),
        ("board", [cap, next]) => board(cap, next),
        ("form", [board, rest @ ..]) => form(alloc, board, rest),
        ("search", [scope]) => search(scope),
        ("moved", [target]) => moved(target),
        _ => Err(Trouble::Line),
    }
}

/// An item by its title, its summary, a word, and what its body needs.
pub fn item(alloc: Global, fields: &[Vec<u8>]) -> Result<Item, Trouble> {
    item_until(alloc, None, fields)
}

/// The same, found until a moment.
pub fn item_until(
    alloc: Global,
    until: Option<Stamp>,
    fields: &[Vec<u8>],
) -> Result<Item, Trouble> {
    let [title, summary, sort, rest @ ..] = fields else {
        return Err(Trouble::Line);
    };
    let body = body(alloc, text_of(sort), rest)?;
    Ok(Item {
        title: Title::new(title)?,
        stamp: Stamp::start(),
        until,
        summary: Bytes::from_slice(alloc, summary)?,
        body,
    })
}
