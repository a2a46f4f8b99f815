// Menus, errors and attributes of the items of the site.
use crate::bench::Bench;
use crate::forms::list_of;
use crate::items::entries;
use crate::line::{Line, number};
use crate::trouble::Trouble;
use host_types::{Bytes, Card, CardBody, LineList, Selector, SiteKeeper};
use plus_blocks::{attributes, entry_attributes, info, item_blocks, views};
use std::alloc::Global;
use text_writer::{ErrorText, error_reply, item_line, link_line, menu, menu_line};

/// All errors.
const ERRORS: [ErrorText; 13] = [
    ErrorText::ItemNotFound,
    ErrorText::ViewNotFound,
    ErrorText::NotAMenu,
    ErrorText::FormNeedsAnswers,
    ErrorText::AnswersDoNotFit,
    ErrorText::WrongWord,
    ErrorText::BoardNotFound,
    ErrorText::BoardIsFull,
    ErrorText::UrlNotAllowed,
    ErrorText::RequestTooLong,
    ErrorText::RequestNotUnderstood,
    ErrorText::TryAgainLater,
    ErrorText::ItemHasMoved,
];

/// `error NUMBER PLACE` and `plus_error NUMBER PLACE`: the reply of an error, and its code.
fn error(alloc: Global, line: &mut Line, is_plus: bool, fields: &[Vec<u8>]) -> Result<(), Trouble> {
    let [place, item] = fields else {
        return Err(Trouble::Line);
    };
    let Some(error) = ERRORS.get(number(place)? as usize) else {
        return Err(Trouble::Line);
    };
    line.number(u64::from(error.code()))?;
    line.bytes(error.as_bytes())?;
    Ok(line.bytes(error_reply(alloc, is_plus, *error, item)?.as_slice())?)
}

/// `item_line SELECTOR`: the line of the item, and the line that a menu has of it, where it has one.
fn lines(bench: &Bench, line: &mut Line, selector: &Selector, card: &Card) -> Result<(), Trouble> {
    let alloc = bench.alloc;
    let address = bench.site.front();
    line.bytes(item_line(alloc, &address, selector, card)?.as_slice())?;
    match menu_line(alloc, &address, selector, card)? {
        Some(shown) => Ok(line.bytes(shown.as_slice())?),
        None => Ok(line.word("none")?),
    }
}

/// `menu SELECTOR ENTRY ..`: a menu of the item's line, and of those entries that are links.
fn whole_menu(
    bench: &Bench,
    line: &mut Line,
    selector: &Selector,
    card: &Card,
    links: &[Vec<u8>],
) -> Result<(), Trouble> {
    let alloc = bench.alloc;
    let address = bench.site.front();
    let mut lines = LineList::new(alloc);
    if let Some(shown) = menu_line(alloc, &address, selector, card)? {
        lines.push(shown)?;
    }
    for entry in entries(alloc, links)?.as_slice() {
        if let Some(link) = link_line(alloc, &address, entry)? {
            lines.push(link)?;
        }
    }
    Ok(line.bytes(menu(alloc, &lines)?.as_slice())?)
}

/// `attributes SELECTOR NAME ..`: the reply, which is the one of a menu with this entry alone.
fn all_attributes(
    bench: &Bench,
    line: &mut Line,
    selector: &Selector,
    card: &Card,
    names: &LineList,
) -> Result<(), Trouble> {
    let alloc = bench.alloc;
    let address = bench.site.front();
    let reply = attributes(alloc, &address, names, selector, card)?;
    let mut blocks = LineList::new(alloc);
    blocks.push(item_blocks(alloc, &address, names, selector, card)?)?;
    if entry_attributes(alloc, &blocks)? != reply {
        return Err(Trouble::Differs);
    }
    Ok(line.bytes(reply.as_slice())?)
}

/// `entries SELECTOR LINE ..`: the attributes of a menu of the item and of these lines.
fn menu_attributes(
    bench: &Bench,
    line: &mut Line,
    selector: &Selector,
    card: &Card,
    others: &LineList,
) -> Result<(), Trouble> {
    let alloc = bench.alloc;
    let mut blocks = LineList::new(alloc);
    let names = LineList::new(alloc);
    blocks.push(item_blocks(alloc, &bench.site.front(), &names, selector, card)?)?;
    for other in others.as_slice() {
        blocks.push(info(alloc, other.as_slice())?)?;
    }
    Ok(line.bytes(entry_attributes(alloc, &blocks)?.as_slice())?)
}

/// `views SELECTOR`: the block of the item's views.
fn show_views(alloc: Global, line: &mut Line, card: &Card) -> Result<(), Trouble> {
    match &card.body {
        CardBody::Views(_, list) => Ok(line.bytes(views(alloc, list)?.as_slice())?),
        _ => Err(Trouble::Line),
    }
}

/// `attributes SELECTOR NAME ..` and `entries SELECTOR LINE ..`
fn blocks(
    bench: &Bench,
    line: &mut Line,
    word: &str,
    (selector, card): (&Selector, &Card),
    rest: &[Vec<u8>],
) -> Result<(), Trouble> {
    let rest = list_of(bench.alloc, rest)?;
    match word {
        "attributes" => all_attributes(bench, line, selector, card, &rest),
        _ => menu_attributes(bench, line, selector, card, &rest),
    }
}

/// The words of an item and its selector.
fn shown(
    bench: &Bench,
    line: &mut Line,
    word: &str,
    (selector, card): (&Selector, &Card),
    rest: &[Vec<u8>],
) -> Result<(), Trouble> {
    match word {
        "item_line" => lines(bench, line, selector, card),
        "menu" => whole_menu(bench, line, selector, card, rest),
        "attributes" | "entries" => blocks(bench, line, word, (selector, card), rest),
        "views" => show_views(bench.alloc, line, card),
        _ => Err(Trouble::Line),
    }
}

/// The words of the item at a selector.
fn of_item(
    bench: &mut Bench,
    line: &mut Line,
    word: &str,
    selector: &[u8],
    rest: &[Vec<u8>],
) -> Result<(), Trouble> {
    let selector = Selector::new(selector)?;
    match bench.site.card(&selector)? {
        Some(card) => shown(bench, line, word, (&selector, &card), rest),
        None => Err(Trouble::Line),
    }
}

/// `no_entries`: the attributes of a menu of nothing.
fn no_entries(alloc: Global, line: &mut Line) -> Result<(), Trouble> {
    let none = LineList::new(alloc);
    Ok(line.bytes(entry_attributes(alloc, &none)?.as_slice())?)
}

pub fn call(
    bench: &mut Bench,
    line: &mut Line,
    word: &str,
    fields: &[Vec<u8>],
) -> Result<(), Trouble> {
    match (word, fields) {
        ("error", fields) => error(bench.alloc, line, false, fields),
        ("plus_error", fields) => error(bench.alloc, line, true, fields),
        ("no_entries", []) => no_entries(bench.alloc, line),
        (word, [selector, rest @ ..]) => of_item(bench, line, word, selector, rest),
        _ => Err(Trouble::Line),
    }
}
