// Sites.
use crate::items::change;
use crate::keepers::{show_figures, show_usable};
use crate::line::{Line, number};
use crate::trouble::Trouble;
use host_types::{Card, CardBody, Selector, SiteKeeper, Stamp};
use page_store::{CompactKeeper, Keeper, PinKeeper};
use site_store::DiskSite;
use std::alloc::Global;
use word_search::SearchKeeper;

/// What sort of body it is.
fn sort(body: &CardBody) -> &'static str {
    match body {
        CardBody::Views(_, _) => "views",
        CardBody::Menu(_) => "menu",
        CardBody::Board { .. } => "board",
        CardBody::Form { .. } => "form",
        CardBody::Search { .. } => "search",
        CardBody::Moved { .. } => "moved",
    }
}

/// A title, a moment and the sort of its body.
fn show_card(line: &mut Line, card: &Card) -> Result<(), Trouble> {
    line.bytes(card.title.as_bytes())?;
    line.number(card.stamp.seconds())?;
    line.word(sort(&card.body))
}

/// What stands at a selector, or `none`.
fn card_at<S: SiteKeeper>(
    site: &mut S,
    line: &mut Line,
    selector: &Selector,
) -> Result<(), Trouble> {
    match site.card(selector)? {
        Some(card) => show_card(line, &card),
        None => line.word("none"),
    }
}

/// `card SELECTOR`
fn card<S: SiteKeeper>(site: &mut S, line: &mut Line, selector: &[u8]) -> Result<(), Trouble> {
    card_at(site, line, &Selector::new(selector)?)
}

/// `chunk SELECTOR VIEW PLACE`: the bytes.
fn chunk<S: SiteKeeper>(
    site: &mut S,
    line: &mut Line,
    (selector, view, place): (&[u8], &[u8], &[u8]),
) -> Result<(), Trouble> {
    let selector = Selector::new(selector)?;
    let (view, place) = (number(view)? as usize, number(place)? as usize);
    let mut buffer = [0; 1000];
    let pin = site.pin_site()?;
    let read = site.chunk(&pin, &selector, view, place, &mut buffer);
    site.unpin_site(pin);
    let length = read?;
    line.bytes(&buffer[..length])
}

/// `search SCOPE QUERY`: the selectors that are found.
fn search<S: SearchKeeper>(
    site: &mut S,
    line: &mut Line,
    scope: &[u8],
    query: &[u8],
) -> Result<(), Trouble> {
    for found in site
        .search(&Selector::new(scope)?, query, Stamp::start())?
        .as_slice()
    {
        line.bytes(found.selector.as_bytes())?;
    }
    Ok(())
}

/// A change at a moment.
fn make<S: SiteKeeper>(
    alloc: Global,
    site: &mut S,
    now: Stamp,
    word: &str,
    fields: &[Vec<u8>],
) -> Result<(), Trouble> {
    Ok(site.change(change(alloc, word, fields)?, now)?)
}

/// The words of any site: those that look at it, and else changes at a moment.
pub fn call<S: SearchKeeper>(
    alloc: Global,
    site: &mut S,
    line: &mut Line,
    now: Stamp,
    word: &str,
    fields: &[Vec<u8>],
) -> Result<(), Trouble> {
    match (word, fields) {
        ("port", []) => line.number(u64::from(site.front().port)),
        ("usable", []) => show_usable(line, site.is_usable()),
        ("card", [selector]) => card(site, line, selector),
        ("chunk", [selector, view, place]) => chunk(site, line, (selector, view, place)),
        ("search", [scope, query]) => search(site, line, scope, query),
        _ => make(alloc, site, now, word, fields),
    }
}

/// `compact`: the site is written anew.
pub fn compact<K: CompactKeeper>(site: &mut DiskSite<K>) -> Result<(), Trouble> {
    Ok(site.compact()?)
}

/// `figures`: items, and the figures of the keeper.
pub fn figures<K: Keeper>(site: &mut DiskSite<K>, line: &mut Line) -> Result<(), Trouble> {
    let figures = site.figures()?;
    line.number(figures.items)?;
    show_figures(line, figures.store)
}

/// `next` and `next SELECTOR`: the first item, and the item behind a selector, with its card, which stands there alone too.
pub fn next<K: PinKeeper>(
    site: &mut DiskSite<K>,
    line: &mut Line,
    fields: &[Vec<u8>],
) -> Result<(), Trouble> {
    let found = match fields {
        [] => site.next_card(None)?,
        [after, ..] => site.next_card(Some(&Selector::new(after)?))?,
    };
    let Some((selector, next)) = found else {
        return line.word("none");
    };
    line.bytes(selector.as_bytes())?;
    show_card(line, &next)?;
    card_at(site, line, &selector)
}
