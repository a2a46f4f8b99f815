// Items and changes from fields.
use crate::line::{number, small_number, text_of};
use crate::trouble::Trouble;
use group_world::Event;
use host_types::{
    Admin, Body, Bytes, Change, Entry, EntryList, Host, Item, Kind, LinkKind, Selector, Stamp,
    Title, Url, View, ViewList,
};
use site_records::read_questions;
use std::alloc::{AllocError, Global};

fn view(alloc: Global, name: &[u8], language: &[u8], bytes: &[u8]) -> Result<View, AllocError> {
    Ok(View {
        name: Bytes::from_slice(alloc, name)?,
        language: Bytes::from_slice(alloc, language)?,
        bytes: Bytes::from_slice(alloc, bytes)?,
    })
}

/// Views, each by its name, its language and its bytes.
fn views(alloc: Global, fields: &[Vec<u8>]) -> Result<ViewList, Trouble> {
    let mut list = ViewList::new(alloc);
    for place in 0..fields.len() / 3 {
        let (name, language) = (&fields[3 * place], &fields[3 * place + 1]);
        list.push(view(alloc, name, language, &fields[3 * place + 2])?)?;
    }
    Ok(list)
}

/// A link to another server, by a title, a selector, a host and a port.
fn remote(kind: LinkKind, fields: &[Vec<u8>]) -> Result<Entry, Trouble> {
    let [title, selector, host, port] = fields else {
        return Err(Trouble::Line);
    };
    Ok(Entry::Remote {
        kind,
        title: Title::new(title)?,
        selector: Selector::new(selector)?,
        host: Host::new(host)?,
        port: small_number(port)?,
    })
}

/// An entry by a letter and what it needs.
fn entry(letter: u8, fields: &[Vec<u8>]) -> Result<Entry, Trouble> {
    match (letter, fields) {
        (b'l', [selector, ..]) => Ok(Entry::Local(Selector::new(selector)?)),
        (b'i', [title, ..]) => Ok(Entry::Info(Title::new(title)?)),
        (b'h', [title, url, ..]) => Ok(Entry::Url {
            title: Title::new(title)?,
            url: Url::new(url)?,
        }),
        (b'1', fields) => remote(LinkKind::Menu, fields),
        (b'8', fields) => remote(LinkKind::Telnet, fields),
        _ => Err(Trouble::Line),
    }
}

/// Entries of five fields each: a letter, and what it needs. `l` is a local item.
pub fn entries(alloc: Global, fields: &[Vec<u8>]) -> Result<EntryList, Trouble> {
    let mut list = EntryList::new(alloc);
    for place in 0..100 {
        let Some([letter, rest @ ..]) = fields.get(5 * place..5 * place + 5) else {
            return Ok(list);
        };
        let [letter] = letter.as_slice() else {
            return Err(Trouble::Line);
        };
        list.push(entry(*letter, rest)?)?;
    }
    Ok(list)
}

/// A document of some views.
fn document(alloc: Global, kind: Kind, fields: &[Vec<u8>]) -> Result<Body, Trouble> {
    Ok(Body::Views(kind, views(alloc, fields)?))
}

fn menu(alloc: Global, fields: &[Vec<u8>]) -> Result<Body, Trouble> {
    Ok(Body::Menu(entries(alloc, fields)?))
}

fn board(cap: &[u8], next: &[u8]) -> Result<Body, Trouble> {
    Ok(Body::Board {
        cap: small_number(cap)?,
        next: number(next)?,
    })
}

/// A form by the selector of its board, and its questions as a record has them.
fn form(alloc: Global, board: &[u8], questions: &[u8]) -> Result<Body, Trouble> {
    Ok(Body::Form {
        board: Selector::new(board)?,
        questions: read_questions(alloc, questions)?,
    })
}

fn search(scope: &[u8]) -> Result<Body, Trouble> {
    Ok(Body::Search {
        scope: Selector::new(scope)?,
    })
}

fn moved(target: &[u8]) -> Result<Body, Trouble> {
    Ok(Body::Moved {
        target: Selector::new(target)?,
    })
}

/// A body by a word and what it needs.
fn body(alloc: Global, sort: &str, fields: &[Vec<u8>]) -> Result<Body, Trouble> {
    match (sort, fields) {
        ("text", views) => document(alloc, Kind::Text, views),
        ("gif", views) => document(alloc, Kind::Gif, views),
        ("html", views) => document(alloc, Kind::Html, views),
        ("menu", entries) => menu(alloc, entries),
        ("board", [cap, next]) => board(cap, next),
        ("form", [board, questions]) => form(alloc, board, questions),
        ("search", [scope]) => search(scope),
        ("moved", [target]) => moved(target),
        _ => Err(Trouble::Line),
    }
}

/// An item by its title, its summary, a word, and what its body needs.
pub fn item(alloc: Global, stamp: Stamp, fields: &[Vec<u8>]) -> Result<Item, Trouble> {
    let [title, summary, sort, rest @ ..] = fields else {
        return Err(Trouble::Line);
    };
    let body = body(alloc, text_of(sort), rest)?;
    Ok(Item {
        title: Title::new(title)?,
        stamp,
        until: None,
        summary: Bytes::from_slice(alloc, summary)?,
        body,
    })
}

fn put(alloc: Global, selector: &[u8], fields: &[Vec<u8>]) -> Result<Change, Trouble> {
    let item = item(alloc, Stamp::start(), fields)?;
    Ok(Change::Put(Selector::new(selector)?, item))
}

fn remove(selector: &[u8]) -> Result<Change, Trouble> {
    Ok(Change::Remove(Selector::new(selector)?))
}

fn move_to(from: &[u8], to: &[u8]) -> Result<Change, Trouble> {
    Ok(Change::Move {
        from: Selector::new(from)?,
        to: Selector::new(to)?,
    })
}

fn set_host(host: &[u8], port: &[u8]) -> Result<Change, Trouble> {
    Ok(Change::SetHost {
        host: Host::new(host)?,
        port: small_number(port)?,
    })
}

fn set_admin(text: &[u8]) -> Result<Change, Trouble> {
    Ok(Change::SetAdmin(Admin::new(text)?))
}

fn post(alloc: Global, board: &[u8], title: &[u8], text: &[u8]) -> Result<Change, Trouble> {
    Ok(Change::Post {
        board: Selector::new(board)?,
        title: Title::new(title)?,
        text: Bytes::from_slice(alloc, text)?,
    })
}

/// The change that a word names: `put SELECTOR ITEM`, `remove SELECTOR`, `move SELECTOR SELECTOR`, `host HOST PORT`, `admin TEXT` or `post BOARD TITLE TEXT`.
pub fn change(alloc: Global, word: &str, fields: &[Vec<u8>]) -> Result<Change, Trouble> {
    match (word, fields) {
        ("put", [selector, rest @ ..]) => put(alloc, selector, rest),
        ("remove", [selector]) => remove(selector),
        ("move", [from, to]) => move_to(from, to),
        ("host", [host, port]) => set_host(host, port),
        ("admin", [text]) => set_admin(text),
        ("post", [board, title, text]) => post(alloc, board, title, text),
        _ => Err(Trouble::Line),
    }
}

fn bytes(alloc: Global, now: Stamp, id: &[u8], piece: &[u8]) -> Result<Event, Trouble> {
    Ok(Event::Bytes {
        id: number(id)?,
        piece: Bytes::from_slice(alloc, piece)?,
        now,
    })
}

fn end(now: Stamp, id: &[u8]) -> Result<Event, Trouble> {
    Ok(Event::End {
        id: number(id)?,
        now,
    })
}

fn draw(id: &[u8], room: &[u8]) -> Result<Event, Trouble> {
    Ok(Event::Draw {
        id: number(id)?,
        room: number(room)? as usize,
    })
}

fn leave(id: &[u8]) -> Result<Event, Trouble> {
    Ok(Event::Leave { id: number(id)? })
}

fn admin(alloc: Global, now: Stamp, word: &str, fields: &[Vec<u8>]) -> Result<Event, Trouble> {
    Ok(Event::Admin {
        change: change(alloc, word, fields)?,
        now,
    })
}

/// The event that a word names: `join`, `bytes ID PIECE`, `end ID`, `draw ID ROOM`, `leave ID` or a change.
pub fn event(alloc: Global, now: Stamp, word: &str, fields: &[Vec<u8>]) -> Result<Event, Trouble> {
    match (word, fields) {
        ("join", []) => Ok(Event::Join),
        ("bytes", [id, piece]) => bytes(alloc, now, id, piece),
        ("end", [id]) => end(now, id),
        ("draw", [id, room]) => draw(id, room),
        ("leave", [id]) => leave(id),
        _ => admin(alloc, now, word, fields),
    }
}
