// A site in memory: its changes, and what is seen of it.
use crate::bench::Bench;
use crate::forms;
use crate::items::{item, item_until};
use crate::line::{Line, number, small_number};
use crate::trouble::Trouble;
use host_types::{
    Admin, Bytes, Card, CardBody, Change, Host, Kind, Selector, SiteKeeper, Stamp, Title, is_over,
};
use mem_site::MemSite;
use word_search::{SearchKeeper, card_words, words};

/// `site HOST PORT KEEPER TITLE STAMP`: a fresh site.
fn fresh(bench: &mut Bench, fields: &[Vec<u8>]) -> Result<(), Trouble> {
    let [host, port, admin, title, stamp] = fields else {
        return Err(Trouble::Line);
    };
    let port = small_number(port)?;
    if port == 0 {
        return Err(Trouble::Line);
    }
    bench.site = MemSite::new(
        bench.alloc,
        Host::new(host)?,
        port,
        Admin::new(admin)?,
        Title::new(title)?,
        Stamp::new(number(stamp)?)?,
    )?;
    Ok(())
}

/// Makes a change, of which each name is valid, at the moment that was given.
fn change(bench: &mut Bench, change: Change) -> Result<(), Trouble> {
    change.valid_names();
    Ok(bench.site.change(change.clone()?, bench.now)?)
}

/// `put SELECTOR ITEM`, an item as its fields say.
fn put(bench: &mut Bench, fields: &[Vec<u8>]) -> Result<(), Trouble> {
    let [selector, rest @ ..] = fields else {
        return Err(Trouble::Line);
    };
    let put = Change::Put(Selector::new(selector)?, item(bench.alloc, rest)?);
    change(bench, put)
}

/// `put_until SECONDS SELECTOR ITEM`: the same of an item that is found until a moment.
fn put_until(bench: &mut Bench, fields: &[Vec<u8>]) -> Result<(), Trouble> {
    let [until, selector, rest @ ..] = fields else {
        return Err(Trouble::Line);
    };
    let until = Stamp::new(number(until)?)?;
    let item = item_until(bench.alloc, Some(until), rest)?;
    let put = Change::Put(Selector::new(selector)?, item);
    change(bench, put)
}

/// `insert SELECTOR ITEM`: the item stands there, whatever the rules say.
fn insert(bench: &mut Bench, fields: &[Vec<u8>]) -> Result<(), Trouble> {
    let [selector, rest @ ..] = fields else {
        return Err(Trouble::Line);
    };
    let selector = Selector::new(selector)?;
    let item = item(bench.alloc, rest)?;
    if item.is_long(&selector) {
        return Err(Trouble::Line);
    }
    Ok(bench.site.insert(selector, item)?)
}

/// `post BOARD TITLE TEXT`
fn post(bench: &mut Bench, fields: &[Vec<u8>]) -> Result<(), Trouble> {
    let [board, title, text] = fields else {
        return Err(Trouble::Line);
    };
    let post = Change::Post {
        board: Selector::new(board)?,
        title: Title::new(title)?,
        text: Bytes::from_slice(bench.alloc, text)?,
    };
    change(bench, post)
}

/// The changes with one field or two: `remove SELECTOR`, `set_keeper KEEPER`, `move SELECTOR SELECTOR`, `set_host HOST PORT`.
fn short_change(word: &str, fields: &[Vec<u8>]) -> Result<Change, Trouble> {
    match (word, fields) {
        ("remove", [selector]) => Ok(Change::Remove(Selector::new(selector)?)),
        ("set_keeper", [keeper]) => Ok(Change::SetAdmin(Admin::new(keeper)?)),
        ("move", [from, to]) => Ok(Change::Move {
            from: Selector::new(from)?,
            to: Selector::new(to)?,
        }),
        ("set_host", [host, port]) => Ok(Change::SetHost {
            host: Host::new(host)?,
            port: small_number(port)?,
        }),
        _ => Err(Trouble::Line),
    }
}

/// What sort of item it is, and two numbers: how many or how long, or how many posts and the number of the next.
fn show_body(line: &mut Line, body: &CardBody) -> Result<(), Trouble> {
    let (word, first, second) = match body {
        CardBody::Views(Kind::Text, views) => match views.as_slice() {
            [view] => ("text", u64::from(view.length), 0),
            _ => ("views", 0, 0),
        },
        CardBody::Views(_, _) => ("document", 0, 0),
        CardBody::Menu(entries) => ("menu", entries.as_slice().len() as u64, 0),
        CardBody::Board { cap, next } => ("board", u64::from(*cap), *next),
        CardBody::Form { .. } => ("form", 0, 0),
        CardBody::Search { .. } => ("search", 0, 0),
        CardBody::Moved { target } => ("moved", target.as_bytes().len() as u64, 0),
    };
    line.word(word)?;
    line.number(first)?;
    Ok(line.number(second)?)
}

/// The item at a selector.
pub fn card_at(bench: &mut Bench, selector: &[u8]) -> Result<Option<Card>, Trouble> {
    Ok(bench.site.card(&Selector::new(selector)?)?)
}

/// `card SELECTOR`: what stands there, when it changed, and how long its summary is.
fn show_card(bench: &mut Bench, line: &mut Line, selector: &[u8]) -> Result<(), Trouble> {
    let Some(card) = card_at(bench, selector)? else {
        return Ok(line.word("none")?);
    };
    show_body(line, &card.body)?;
    line.number(card.stamp.seconds())?;
    Ok(line.number(card.summary.len() as u64)?)
}

/// `until SELECTOR`: until when what stands there is found, where that has an end, and whether it has expired.
fn show_until(bench: &mut Bench, line: &mut Line, selector: &[u8]) -> Result<(), Trouble> {
    let Some(card) = card_at(bench, selector)? else {
        return Ok(line.word("none")?);
    };
    match card.until {
        Some(until) => line.number(until.seconds())?,
        None => line.word("always")?,
    }
    let has_expired = card.is_expired(bench.now);
    if has_expired != is_over(card.until, bench.now) {
        return Err(Trouble::Differs);
    }
    Ok(line.word(if has_expired { "expired" } else { "found" })?)
}

/// `front`: host, port and who keeps the site.
fn show_front(bench: &Bench, line: &mut Line) -> Result<(), Trouble> {
    if !bench.site.is_usable() {
        return Err(Trouble::Differs);
    }
    let address = bench.site.front();
    line.bytes(address.host.as_bytes())?;
    line.number(u64::from(address.port))?;
    Ok(line.bytes(address.admin.as_bytes())?)
}

/// `chunk SELECTOR VIEW PLACE`
fn show_chunk(bench: &mut Bench, line: &mut Line, fields: &[Vec<u8>]) -> Result<(), Trouble> {
    let [selector, view, place] = fields else {
        return Err(Trouble::Line);
    };
    let selector = Selector::new(selector)?;
    let view = number(view)? as usize;
    let place = number(place)? as usize;
    let mut buffer = [0; 1000];
    let pin = bench.site.pin_site()?;
    let read = bench.site.chunk(&pin, &selector, view, place, &mut buffer);
    bench.site.unpin_site(pin);
    let length = read?;
    Ok(line.bytes(&buffer[..length])?)
}

/// `search SCOPE WORDS`: the selectors that are found.
fn search(bench: &mut Bench, line: &mut Line, fields: &[Vec<u8>]) -> Result<(), Trouble> {
    let [scope, words] = fields else {
        return Err(Trouble::Line);
    };
    let found = bench.site.search(&Selector::new(scope)?, words, bench.now)?;
    for find in found.as_slice() {
        line.bytes(find.selector.as_bytes())?;
    }
    Ok(())
}

/// `card_words SELECTOR BYTES`: the words of the item there, whose first view has these bytes.
fn show_words(bench: &mut Bench, line: &mut Line, fields: &[Vec<u8>]) -> Result<(), Trouble> {
    let [selector, bytes] = fields else {
        return Err(Trouble::Line);
    };
    let Some(card) = card_at(bench, selector)? else {
        return Err(Trouble::Line);
    };
    Ok(line.list(&card_words(bench.alloc, &card, bytes)?)?)
}

/// `remove SELECTOR`, `set_keeper KEEPER`, `move SELECTOR SELECTOR` and `set_host HOST PORT`
fn change_shortly(bench: &mut Bench, word: &str, fields: &[Vec<u8>]) -> Result<(), Trouble> {
    change(bench, short_change(word, fields)?)
}

/// `now SECONDS`
fn set_now(bench: &mut Bench, seconds: &[u8]) -> Result<(), Trouble> {
    bench.now = Stamp::new(number(seconds)?)?;
    Ok(())
}

/// `valid`: whether the site keeps the rules.
fn show_valid(bench: &mut Bench, line: &mut Line) -> Result<(), Trouble> {
    let is_valid = bench.site.is_valid(bench.alloc)?;
    Ok(line.word(if is_valid { "valid" } else { "invalid" })?)
}

/// `words ITEM`: the words of an item.
fn show_item_words(bench: &Bench, line: &mut Line, fields: &[Vec<u8>]) -> Result<(), Trouble> {
    let item = item(bench.alloc, fields)?;
    Ok(line.list(&words(bench.alloc, &item)?)?)
}

/// The words that look at the site.
fn looks(
    bench: &mut Bench,
    line: &mut Line,
    word: &str,
    fields: &[Vec<u8>],
) -> Result<(), Trouble> {
    match word {
        "front" => show_front(bench, line),
        "valid" => show_valid(bench, line),
        "chunk" => show_chunk(bench, line, fields),
        "search" => search(bench, line, fields),
        "card_words" => show_words(bench, line, fields),
        "words" => show_item_words(bench, line, fields),
        _ => forms::call(bench, line, word, fields),
    }
}

pub fn call(
    bench: &mut Bench,
    line: &mut Line,
    word: &str,
    fields: &[Vec<u8>],
) -> Result<(), Trouble> {
    match (word, fields) {
        ("now", [moment]) => set_now(bench, moment),
        ("card", [selector]) => show_card(bench, line, selector),
        ("until", [selector]) => show_until(bench, line, selector),
        ("site", fields) => fresh(bench, fields),
        ("put", fields) => put(bench, fields),
        ("put_until", fields) => put_until(bench, fields),
        ("insert", fields) => insert(bench, fields),
        ("post", fields) => post(bench, fields),
        ("remove" | "set_keeper" | "move" | "set_host", fields) => {
            change_shortly(bench, word, fields)
        }
        _ => looks(bench, line, word, fields),
    }
}
