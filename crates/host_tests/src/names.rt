// Names, stamps, and the texts of faults.
use crate::bench::Bench;
use crate::line::{Line, number};
use crate::links;
use crate::trouble::Trouble;
use host_types::{
    Admin, Bytes, GREATEST_STAMP, Host, Refused, Selector, SiteFault, Stamp, Title, Url,
};
use std::alloc::Global;

/// `names BYTES`: why the bytes are no selector, no title, no administrator and no host.
fn names(alloc: Global, line: &mut Line, bytes: &[u8]) -> Result<(), Trouble> {
    for refused in [
        Selector::new(bytes).err(),
        Title::new(bytes).err(),
        Admin::new(bytes).err(),
        Host::new(bytes).err(),
    ] {
        match refused {
            Some(refused) => line.word(&refused.to_string(alloc)?)?,
            None => line.word("-")?,
        }
    }
    Ok(())
}

/// `faults`: the text of each fault of a site.
fn faults(alloc: Global, line: &mut Line) -> Result<(), Trouble> {
    for fault in [
        SiteFault::Refused(Refused::BadName),
        SiteFault::Refused(Refused::TooLong),
        SiteFault::Refused(Refused::Reserved),
        SiteFault::Refused(Refused::Missing),
        SiteFault::Refused(Refused::NotEmpty),
        SiteFault::Refused(Refused::Root),
        SiteFault::Refused(Refused::NotABoard),
        SiteFault::Refused(Refused::WrongAnswers),
        SiteFault::Refused(Refused::WrongWord),
        SiteFault::Refused(Refused::Spent),
        SiteFault::Read,
        SiteFault::Failed,
        SiteFault::Memory,
        SiteFault::Deep,
    ] {
        line.word(&fault.to_string(alloc)?)?;
    }
    Ok(())
}

/// `same BYTES BYTES`: whether bytes that were moved and bytes that were copied are equal.
fn same(alloc: Global, line: &mut Line, one: &Vec<u8>, other: &[u8]) -> Result<(), Trouble> {
    let moved = Bytes::from(one.clone()?);
    let is_same = moved == Bytes::from_slice(alloc, other)?;
    Ok(line.word(if is_same { "same" } else { "other" })?)
}

/// `selector BYTES` gives the name back, as do the next four.
fn selector(line: &mut Line, bytes: &[u8]) -> Result<(), Trouble> {
    Ok(line.bytes(Selector::new(bytes)?.clone()?.as_bytes())?)
}

fn title(line: &mut Line, bytes: &[u8]) -> Result<(), Trouble> {
    Ok(line.bytes(Title::new(bytes)?.clone()?.as_bytes())?)
}

fn keeper(line: &mut Line, bytes: &[u8]) -> Result<(), Trouble> {
    Ok(line.bytes(Admin::new(bytes)?.clone()?.as_bytes())?)
}

fn host(line: &mut Line, bytes: &[u8]) -> Result<(), Trouble> {
    Ok(line.bytes(Host::new(bytes)?.clone()?.as_bytes())?)
}

fn url(line: &mut Line, bytes: &[u8]) -> Result<(), Trouble> {
    Ok(line.bytes(Url::new(bytes)?.clone()?.as_bytes())?)
}

/// `reserved BYTES`: whether the selector is.
fn reserved(line: &mut Line, bytes: &[u8]) -> Result<(), Trouble> {
    let is_reserved = Selector::new(bytes)?.is_reserved();
    Ok(line.word(if is_reserved { "reserved" } else { "free" })?)
}

/// `stamp SECONDS`
fn stamp(line: &mut Line, seconds: &[u8]) -> Result<(), Trouble> {
    moment(line, number(seconds)?)
}

fn moment(line: &mut Line, seconds: u64) -> Result<(), Trouble> {
    Ok(line.number(Stamp::new(seconds)?.seconds())?)
}

fn echo(line: &mut Line, bytes: &[u8]) -> Result<(), Trouble> {
    Ok(line.bytes(bytes)?)
}

/// The words that give a name back.
fn one_name(
    bench: &mut Bench,
    line: &mut Line,
    word: &str,
    fields: &[Vec<u8>],
) -> Result<(), Trouble> {
    match (word, fields) {
        ("selector", [bytes]) => selector(line, bytes),
        ("title", [bytes]) => title(line, bytes),
        ("keeper", [bytes]) => keeper(line, bytes),
        ("host", [bytes]) => host(line, bytes),
        ("url", [bytes]) => url(line, bytes),
        _ => links::call(bench, line, word, fields),
    }
}

/// The words without a name.
fn nameless(line: &mut Line, alloc: Global, word: &str) -> Result<(), Trouble> {
    match word {
        "faults" => faults(alloc, line),
        "root" => echo(line, Selector::root().as_bytes()),
        _ => moment(line, GREATEST_STAMP),
    }
}

pub fn call(
    bench: &mut Bench,
    line: &mut Line,
    word: &str,
    fields: &[Vec<u8>],
) -> Result<(), Trouble> {
    match (word, fields) {
        ("names", [bytes]) => names(bench.alloc, line, bytes),
        ("reserved", [bytes]) => reserved(line, bytes),
        ("stamp", [seconds]) => stamp(line, seconds),
        ("echo", [bytes]) => echo(line, bytes),
        ("same", [one, other]) => same(bench.alloc, line, one, other),
        ("faults" | "root" | "greatest", []) => nameless(line, bench.alloc, word),
        _ => one_name(bench, line, word, fields),
    }
}
