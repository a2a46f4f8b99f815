// The entries of a menu, as a file of changes writes them.
ghost use Rattle.std.specs.Prelude.{◌≡◌, Some, None, IfOk, map};
ghost use Rattle.toml.specs.View.{table_view, view};
ghost use Rattle.change_file.specs.Tables.{each};
ghost use Rattle.change_file.specs.Entries as spec;

use crate::fault::FormFault;
use crate::named::{host_at, port_at, selector_at, title_at, url_at};
use crate::tables::{has_only, text_at};
use host_types::{Entry, Host, LinkKind, Refused, Selector, Title, Url};
use std::alloc::Global;
use toml::{Table, Value};

fn link_of(text: &[u8]) -> Option<LinkKind>
    ensures { result ≡ spec.link_of text.now }
{
    match text {
        [b'0'] => Some(LinkKind::Text),
        [b'1'] => Some(LinkKind::Menu),
        [b'2'] => Some(LinkKind::PhoneBook),
        [b'4'] => Some(LinkKind::BinHex),
        [b'5'] => Some(LinkKind::DosArchive),
        [b'6'] => Some(LinkKind::Uuencoded),
        [b'7'] => Some(LinkKind::Search),
        [b'8'] => Some(LinkKind::Telnet),
        [b'9'] => Some(LinkKind::Binary),
        [b'+'] => Some(LinkKind::Mirror),
        [b'T'] => Some(LinkKind::Tn3270),
        [b'g'] => Some(LinkKind::Gif),
        [b'I'] => Some(LinkKind::Image),
        [b'h'] => Some(LinkKind::Html),
        _ => None,
    }
}

/// The kind of a link at a key, by its letter.
fn link_at(table: &Table, key: &str) -> Option<LinkKind>
    ensures { result ≡ spec.link_at key.now (table_view table.now) }
{
    match text_at(table, key) {
        Some(text) => link_of(text.as_bytes()),
        None => None,
    }
}

fn local(selector: Result<Selector, Refused>) -> Result<Entry, Refused>
    ensures { result ≡ spec.local selector }
{
    Ok(Entry::Local(selector?))
}

fn info(title: Result<Title, Refused>) -> Result<Entry, Refused>
    ensures { result ≡ spec.info title }
{
    Ok(Entry::Info(title?))
}

fn link(title: Result<Title, Refused>, url: Result<Url, Refused>) -> Result<Entry, Refused>
    ensures { result ≡ spec.link title url }
{
    Ok(Entry::Url {
        title: title?,
        url: url?,
    })
}

fn remote(
    kind: LinkKind,
    title: Result<Title, Refused>,
    selector: Result<Selector, Refused>,
    host: Result<Host, Refused>,
    port: Result<u16, Refused>,
) -> Result<Entry, Refused>
    ensures { result ≡ spec.remote kind title selector host port }
{
    Ok(Entry::Remote {
        kind,
        title: title?,
        selector: selector?,
        host: host?,
        port: port?,
    })
}

fn local_in(table: &Table) -> Option<Result<Entry, Refused>>
    ensures { result ≡ spec.local_in (table_view table.now) }
{
    Some(local(selector_at(table, "local")?))
}

fn info_in(table: &Table) -> Option<Result<Entry, Refused>>
    ensures { result ≡ spec.info_in (table_view table.now) }
{
    Some(info(title_at(table, "info")?))
}

fn url_in(table: &Table) -> Option<Result<Entry, Refused>>
    ensures { result ≡ spec.url_in (table_view table.now) }
{
    let title = title_at(table, "title")?;
    let url = url_at(table, "url")?;
    Some(link(title, url))
}

fn remote_in(table: &Table) -> Option<Result<Entry, Refused>>
    ensures { result ≡ spec.remote_in (table_view table.now) }
{
    let kind = link_at(table, "kind")?;
    let title = title_at(table, "title")?;
    let selector = selector_at(table, "selector")?;
    let host = host_at(table, "host")?;
    let port = port_at(table, "port")?;
    Some(remote(kind, title, selector, host, port))
}

/// One entry, or the first refusal of its names.
fn entry_of(value: &Value) -> Option<Result<Entry, Refused>>
    ensures { result ≡ spec.entry_of (view value.now) }
{
    let table = value.as_table()?;
    if has_only(table, &["local"]) {
        local_in(table)
    } else if has_only(table, &["info"]) {
        info_in(table)
    } else if has_only(table, &["title", "url"]) {
        url_in(table)
    } else if has_only(table, &["kind", "title", "selector", "host", "port"]) {
        remote_in(table)
    } else {
        None
    }
}

/// Entries, in their order.
#[tactic(auto, using(crate::proofs::Lists::each_more, crate::proofs::Lists::each_none))]
pub fn entries_of(alloc: Global, values: &[Value]) -> Result<Vec<Result<Entry, Refused>>, FormFault>
    ensures ok { IfOk result (λ es. each spec.entry_of (map view values.now) ≡ Some es.items) }
    ensures form { result ≡ Err FormFault.Form → each spec.entry_of (map view values.now) ≡ None }
{
    let mut entries = Vec::new(alloc);
    for value in values {
        let Some(entry) = entry_of(value) else {
            return Err(FormFault::Form);
        };
        entries.push(entry)?;
    }
    Ok(entries)
}
