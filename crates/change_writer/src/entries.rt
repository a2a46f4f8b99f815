// The entries of a menu, as a file of changes writes them.
ghost use Rattle.std.specs.Prelude.{◌≡◌, ◌≤◌, IfOk, OnOk, Some, Ok, Err, All, IsUtf8, map};
ghost use Rattle.host_types.specs.declared.menu.Entry.TheVariants as entries;
ghost use Rattle.toml.specs.Data.{depth, items_depth};
ghost use Rattle.toml.specs.View.{view, items_view};
ghost use Rattle.change_file.specs.Tables.{each};
ghost use Rattle.change_file.specs.Entries.{entry_of};
ghost use Rattle.change_writer.specs.Said.{IsSaidEntry};
ghost use Rattle.change_writer.specs.declared.fault.WriteFault.TheVariants.{Unsaid};

use crate::WriteFault;
use crate::tables::{letter, no_table, number, text, with};
use host_types::{Entry, Host, LinkKind, Selector, Title, Url};
use std::alloc::Global;
use toml::Value;

fn local(alloc: Global, selector: &Selector) -> Result<Value, WriteFault>
    ensures read { IfOk result (λ v. entry_of (view v) ≡ Some (Ok (entries.Local selector.now))) }
    ensures depth { IfOk result (λ v. depth (view v) ≤ 1) }
    ensures said { OnOk result (IsUtf8 selector.now) }
    ensures unsaid { result ≡ Err Unsaid → ¬ (IsUtf8 selector.now) }
{
    let selector = text(alloc, selector.as_bytes())?;
    Ok(Value::Table(with(alloc, no_table(alloc), "local", selector)?))
}

fn info(alloc: Global, title: &Title) -> Result<Value, WriteFault>
    ensures read { IfOk result (λ v. entry_of (view v) ≡ Some (Ok (entries.Info title.now))) }
    ensures depth { IfOk result (λ v. depth (view v) ≤ 1) }
    ensures said { OnOk result (IsUtf8 title.now) }
    ensures unsaid { result ≡ Err Unsaid → ¬ (IsUtf8 title.now) }
{
    let title = text(alloc, title.as_bytes())?;
    Ok(Value::Table(with(alloc, no_table(alloc), "info", title)?))
}

fn link(alloc: Global, title: &Title, url: &Url) -> Result<Value, WriteFault>
    ensures read { IfOk result (λ v. entry_of (view v) ≡ Some (Ok (entries.Url title.now url.now))) }
    ensures depth { IfOk result (λ v. depth (view v) ≤ 1) }
    ensures said { OnOk result (IsUtf8 title.now × IsUtf8 url.now) }
    ensures unsaid { result ≡ Err Unsaid → ¬ (IsUtf8 title.now × IsUtf8 url.now) }
{
    let title = text(alloc, title.as_bytes())?;
    let url = text(alloc, url.as_bytes())?;
    let table = with(alloc, no_table(alloc), "title", title)?;
    Ok(Value::Table(with(alloc, table, "url", url)?))
}

#[tactic(auto, using(crate::proofs::SmallTables::remote_reads))]
fn remote(
    alloc: Global,
    kind: LinkKind,
    title: &Title,
    selector: &Selector,
    host: &Host,
    port: u16,
) -> Result<Value, WriteFault>
    ensures read { IfOk result (λ v. entry_of (view v) ≡ Some (Ok (entries.Remote kind title.now selector.now host.now port))) }
    ensures depth { IfOk result (λ v. depth (view v) ≤ 1) }
    ensures said { OnOk result (IsSaidEntry (entries.Remote kind title.now selector.now host.now port)) }
    ensures unsaid { result ≡ Err Unsaid → ¬ (IsSaidEntry (entries.Remote kind title.now selector.now host.now port)) }
{
    if port == 0 {
        return Err(WriteFault::Unsaid);
    }
    let title = text(alloc, title.as_bytes())?;
    let selector = text(alloc, selector.as_bytes())?;
    let host = text(alloc, host.as_bytes())?;
    let table = with(
        alloc,
        no_table(alloc),
        "kind",
        letter(alloc, kind.letter())?,
    )?;
    let table = with(alloc, table, "title", title)?;
    let table = with(alloc, table, "selector", selector)?;
    let table = with(alloc, table, "host", host)?;
    Ok(Value::Table(with(alloc, table, "port", number(u64::from(port)))?))
}

/// One entry.
fn entry(alloc: Global, entry: &Entry) -> Result<Value, WriteFault>
    ensures read { IfOk result (λ v. entry_of (view v) ≡ Some (Ok entry.now)) }
    ensures depth { IfOk result (λ v. depth (view v) ≤ 1) }
    ensures said { OnOk result (IsSaidEntry entry.now) }
    ensures unsaid { result ≡ Err Unsaid → ¬ (IsSaidEntry entry.now) }
{
    match entry {
        Entry::Local(selector) => local(alloc, selector),
        Entry::Info(title) => info(alloc, title),
        Entry::Url { title, url } => link(alloc, title, url),
        Entry::Remote {
            kind,
            title,
            selector,
            host,
            port,
        } => remote(alloc, *kind, title, selector, host, *port),
    }
}

/// Entries, in their order.
#[tactic(auto, using(crate::proofs::Lists::each_more, crate::proofs::Lists::depth_more, crate::proofs::Lists::all_more, crate::proofs::Lists::not_all))]
pub fn entries(alloc: Global, entries: &[Entry]) -> Result<Vec<Value>, WriteFault>
    ensures read { IfOk result (λ vs. each entry_of (map view vs.items) ≡ Some (map (λ e. Ok e) entries.now)) }
    ensures depth { IfOk result (λ vs. items_depth (items_view vs.items) ≤ 1) }
    ensures said { OnOk result (All IsSaidEntry entries.now) }
    ensures unsaid { result ≡ Err Unsaid → ¬ (All IsSaidEntry entries.now) }
{
    let mut values = Vec::new(alloc);
    for one in entries {
        values.push(entry(alloc, one)?)?;
    }
    Ok(values)
}
