// The rows that a program is given.
use crate::random::random;
use crate::sites::{Query, Sites};
use crate::trouble::Trouble;
use host_types::{Bytes, Change, Item, Selector, Stamp, Title};
use std::alloc::Global;
use std::fs;
use word_search::FindList;

/// The number that decimal digits write.
fn number(field: &str) -> Result<u32, Trouble> {
    field.parse::<u32>().or(Err(Trouble::Line))
}

/// Two fields with a space between them.
fn two_of(fields: &str) -> Result<(&str, &str), Trouble> {
    match fields.split_once(' ') {
        Some(two) => Ok(two),
        None => Err(Trouble::Line),
    }
}

fn selector(field: &str) -> Result<Selector, Trouble> {
    Ok(Selector::new(field.as_bytes())?)
}

/// A text by its title and its bytes.
fn text_item(alloc: Global, title: &str, text: &str) -> Result<Item, Trouble> {
    let title = Title::new(title.as_bytes())?;
    let text = Bytes::from_slice(alloc, text.as_bytes())?;
    Ok(Item::text(alloc, title, Stamp::start(), text)?)
}

/// Puts a text at a selector.
fn put_text(
    alloc: Global,
    sites: &mut Sites,
    place: &str,
    (title, text): (&str, &str),
) -> Result<(), Trouble> {
    let item = text_item(alloc, title, text)?;
    sites.change(Change::Put(selector(place)?, item))
}

/// `put SELECTOR TITLE TEXT`
fn put(alloc: Global, sites: &mut Sites, fields: &str) -> Result<(), Trouble> {
    let (place, item) = two_of(fields)?;
    put_text(alloc, sites, place, two_of(item)?)
}

/// `until SECONDS SELECTOR TITLE TEXT`
fn put_until(alloc: Global, sites: &mut Sites, fields: &str) -> Result<(), Trouble> {
    let (until, fields) = two_of(fields)?;
    let (place, fields) = two_of(fields)?;
    let (title, text) = two_of(fields)?;
    let item = text_item(alloc, title, text)?;
    let until = Stamp::new(number(until)?.into())?;
    let item = Item {
        title: item.title,
        stamp: item.stamp,
        until: Some(until),
        summary: item.summary,
        body: item.body,
    };
    sites.change(Change::Put(selector(place)?, item))
}

/// `fill FIRST LAST FRONT WORD`: texts of a word, at selectors of this front and three digits.
fn fill(alloc: Global, sites: &mut Sites, fields: &str) -> Result<(), Trouble> {
    let (first, fields) = two_of(fields)?;
    let (last, fields) = two_of(fields)?;
    let (front, word) = two_of(fields)?;
    for place in number(first)?..=number(last)? {
        let place = format!(in alloc; "{front}{place:03}")?;
        put_text(alloc, sites, &place, (word, word))?;
    }
    Ok(())
}

/// `remove SELECTOR`
fn remove(sites: &mut Sites, place: &str) -> Result<(), Trouble> {
    sites.change(Change::Remove(selector(place)?))
}

/// `move FROM TO`
fn move_to(sites: &mut Sites, fields: &str) -> Result<(), Trouble> {
    let (from, to) = two_of(fields)?;
    let (from, to) = (selector(from)?, selector(to)?);
    sites.change(Change::Move { from, to })
}

/// How many selectors there are, and each behind a space.
fn show_found(alloc: Global, found: &FindList) -> Result<String, Trouble> {
    let mut text = format!(in alloc; " {}", found.as_slice().len())?;
    for find in found.as_slice() {
        text.push(' ')?;
        text.push_str(std::str::from_utf8(find.selector.as_bytes()).unwrap_or("?"))?;
    }
    Ok(text)
}

/// The one query of a scope and words, at a moment.
fn query_of(alloc: Global, scope: &str, words: &str, now: Stamp) -> Result<Vec<Query>, Trouble> {
    let mut queries = Vec::new(alloc);
    let words = words.as_bytes().to_vec(alloc)?;
    queries.push(Query {
        scope: selector(scope)?,
        words,
        now,
    })?;
    Ok(queries)
}

/// `search SCOPE WORDS`: what is found, the same by all three searches.
fn search(alloc: Global, sites: &mut Sites, fields: &str) -> Result<String, Trouble> {
    let (scope, words) = two_of(fields)?;
    let query = query_of(alloc, scope, words, sites.now)?;
    let answers = sites.search(&query)?;
    match answers.found.as_slice() {
        [found] if answers.differ == 0 => show_found(alloc, found),
        _ => Err(Trouble::Wrong("other searches find something else")),
    }
}

/// `pages TIMES SCOPE WORDS`: how many items a search finds that is made so often, and how many pages it reads.
fn pages(alloc: Global, sites: &mut Sites, fields: &str) -> Result<String, Trouble> {
    let (times, fields) = two_of(fields)?;
    let (scope, words) = two_of(fields)?;
    let query = query_of(alloc, scope, words, sites.now)?;
    let (found, pages) = sites.pages(number(times)?, &query)?;
    Ok(format!(in alloc; " {found} items, {pages} pages")?)
}

/// `image PATH`
fn load(rt: &HostRuntime, sites: &mut Sites, path: &str) -> Result<String, Trouble> {
    match fs::read(rt, path) {
        Ok(image) => sites.load(&image)?,
        Err(_) => return Err(Trouble::File),
    }
    Ok(String::new(rt.alloc()))
}

/// `random SEED SITES` and `random_ends SEED SITES`
fn random_sites(alloc: Global, fields: &str, has_ends: bool) -> Result<String, Trouble> {
    let (seed, sites) = two_of(fields)?;
    let seen = random(alloc, number(seed)?.into(), number(sites)?, has_ends)?;
    Ok(format!(in alloc;
        " {} changes, {} refused; {} queries, {} found in all, {} differ",
        seen.changes, seen.refused, seen.queries, seen.found, seen.differ
    )?)
}

/// Makes the change that a word names.
fn change(alloc: Global, sites: &mut Sites, word: &str, fields: &str) -> Result<(), Trouble> {
    match word {
        "put" => put(alloc, sites, fields),
        "until" => put_until(alloc, sites, fields),
        "fill" => fill(alloc, sites, fields),
        "remove" => remove(sites, fields),
        "move" => move_to(sites, fields),
        _ => Err(Trouble::Line),
    }
}

/// `new`
fn begin(alloc: Global, sites: &mut Sites) -> Result<String, Trouble> {
    *sites = Sites::new(alloc)?;
    Ok(String::new(alloc))
}

/// `now SECONDS`
fn set_now(alloc: Global, sites: &mut Sites, seconds: &str) -> Result<String, Trouble> {
    sites.now = Stamp::new(number(seconds)?.into())?;
    Ok(String::new(alloc))
}

/// Makes the call of a row.
pub fn call(rt: &HostRuntime, sites: &mut Sites, text: &str) -> Result<String, Trouble> {
    let alloc = rt.alloc();
    let (word, fields) = text.split_once(' ').unwrap_or((text, ""));
    match word {
        "new" => begin(alloc, sites),
        "search" => search(alloc, sites, fields),
        "now" => set_now(alloc, sites, fields),
        "random" => random_sites(alloc, fields, false),
        "random_ends" => random_sites(alloc, fields, true),
        "pages" => pages(alloc, sites, fields),
        "image" => load(rt, sites, fields),
        _ => {
            change(alloc, sites, word, fields)?;
            Ok(String::new(alloc))
        }
    }
}
