// The changes that a file asks for.
ghost use Rattle.std.specs.Prelude.{◌≡◌, ◌≢◌, ◌<◌, ◌^◌, ℕ, Some, None, Ok, Err, IfOk, IsTrue, IsSomeAnd, IsUtf8, ◌&&◌, codes, length, map, option_map};
ghost use Rattle.std.specs.List.{list_all};
ghost use Rattle.toml.specs.Data.{as_table};
ghost use Rattle.toml.specs.View.{table_view, view};
ghost use Rattle.change_file.specs.Changes as spec;
ghost use Rattle.change_file.specs.declared.fault.ChangeFileFault.TheVariants.{NotToml, Table, Memory};

use crate::bodies::body_in;
use crate::fault::{ChangeFileFault, FileChange, FormFault};
use crate::named::{admin_at, host_at, port_at, selector_at, title_at};
use crate::tables::{has_only, optional_moment_at, optional_text_at, text_at, values_at};
use host_types::{Admin, Body, Bytes, Change, Host, Item, Refused, Selector, Stamp, Title};
use std::alloc::Global;
use toml::{Table, Value};

fn put(
    summary: Bytes,
    until: Option<Stamp>,
    selector: Result<Selector, Refused>,
    title: Result<Title, Refused>,
    body: Result<Body, Refused>,
) -> Result<Change, Refused>
    ensures { result ≡ spec.put summary until selector title body }
{
    let selector = selector?;
    let item = Item {
        title: title?,
        stamp: Stamp::start(),
        until,
        summary,
        body: body?,
    };
    Ok(Change::Put(selector, item))
}

fn move_to(
    from: Result<Selector, Refused>,
    to: Result<Selector, Refused>,
) -> Result<Change, Refused>
    ensures { result ≡ spec.move from to }
{
    Ok(Change::Move {
        from: from?,
        to: to?,
    })
}

fn set_host(host: Result<Host, Refused>, port: Result<u16, Refused>) -> Result<Change, Refused>
    ensures { result ≡ spec.set_host host port }
{
    Ok(Change::SetHost {
        host: host?,
        port: port?,
    })
}

fn remove(selector: Result<Selector, Refused>) -> Result<Change, Refused>
    ensures { result ≡ spec.remove selector }
{
    Ok(Change::Remove(selector?))
}

fn set_admin(admin: Result<Admin, Refused>) -> Result<Change, Refused>
    ensures { result ≡ spec.set_admin admin }
{
    Ok(Change::SetAdmin(admin?))
}

fn put_in(alloc: Global, table: &Table) -> Result<Result<Change, Refused>, FormFault>
    ensures ok { IfOk result (λ c. spec.put_in (table_view table.now) ≡ Some c) }
    ensures form { result ≡ Err FormFault.Form → spec.put_in (table_view table.now) ≡ None }
    ensures memory { result ≡ Err FormFault.Memory → IsTrue (spec.begins_put (table_view table.now)) }
{
    let Some(selector) = selector_at(table, "selector") else {
        return Err(FormFault::Form);
    };
    let Some(title) = title_at(table, "title") else {
        return Err(FormFault::Form);
    };
    let Some(summary) = optional_text_at(table, "abstract") else {
        return Err(FormFault::Form);
    };
    let Some(until) = optional_moment_at(table, "until") else {
        return Err(FormFault::Form);
    };
    let body = body_in(alloc, table)?;
    let summary = Bytes::from_slice(alloc, summary.as_bytes())?;
    Ok(put(summary, until, selector, title, body))
}

fn remove_in(table: &Table) -> Option<Result<Change, Refused>>
    ensures { result ≡ spec.remove_in (table_view table.now) }
{
    Some(remove(selector_at(table, "selector")?))
}

fn move_in(table: &Table) -> Option<Result<Change, Refused>>
    ensures { result ≡ spec.move_in (table_view table.now) }
{
    let from = selector_at(table, "from")?;
    let to = selector_at(table, "to")?;
    Some(move_to(from, to))
}

fn host_in(table: &Table) -> Option<Result<Change, Refused>>
    ensures { result ≡ spec.host_in (table_view table.now) }
{
    let host = host_at(table, "host")?;
    let port = port_at(table, "port")?;
    Some(set_host(host, port))
}

fn admin_in(table: &Table) -> Option<Result<Change, Refused>>
    ensures { result ≡ spec.admin_in (table_view table.now) }
{
    Some(set_admin(admin_at(table, "admin")?))
}

/// The change of a table by its word, but for one that puts an item.
fn small_change(word: &str, table: &Table) -> Option<Result<Change, Refused>>
    ensures { result ≡ spec.small_change word.now (table_view table.now) }
{
    match word {
        "remove" if has_only(table, &["do", "selector"]) => remove_in(table),
        "move" if has_only(table, &["do", "from", "to"]) => move_in(table),
        "host" if has_only(table, &["do", "host", "port"]) => host_in(table),
        "admin" if has_only(table, &["do", "admin"]) => admin_in(table),
        _ => None,
    }
}

fn change_by(alloc: Global, word: &str, table: &Table) -> Result<Result<Change, Refused>, FormFault>
    ensures ok { IfOk result (λ c. spec.change_by word.now (table_view table.now) ≡ Some c) }
    ensures form { result ≡ Err FormFault.Form → spec.change_by word.now (table_view table.now) ≡ None }
    ensures memory { result ≡ Err FormFault.Memory → IsTrue (spec.is word.now (codes "put") && spec.begins_put (table_view table.now)) }
{
    if word == "put" {
        return put_in(alloc, table);
    }
    match small_change(word, table) {
        Some(change) => Ok(change),
        None => Err(FormFault::Form),
    }
}

fn file_change(change: Result<Change, Refused>) -> FileChange
    ensures { result ≡ spec.file_change change }
{
    match change {
        Ok(change) => FileChange::Change(change),
        Err(refused) => FileChange::Refused(refused),
    }
}

/// The change of one table.
fn change_of(alloc: Global, value: &Value) -> Result<FileChange, FormFault>
    ensures ok { IfOk result (λ c. spec.change_of (view value.now) ≡ Some c) }
    ensures form { result ≡ Err FormFault.Form → spec.change_of (view value.now) ≡ None }
    ensures memory { result ≡ Err FormFault.Memory → IsSomeAnd (as_table (view value.now)) (λ table. IsTrue (spec.puts table)) }
{
    let Some(table) = value.as_table() else {
        return Err(FormFault::Form);
    };
    let Some(word) = text_at(table, "do") else {
        return Err(FormFault::Form);
    };
    Ok(file_change(change_by(alloc, word, table)?))
}

/// The tables of a document, which has nothing else.
#[tactic(auto, using(crate::proofs::Values::all_tables))]
fn tables_in(document: &Table) -> Option<&[Value]>
    ensures { option_map (λ v. map view v.now) result ≡ spec.tables_in (table_view document.now) }
{
    let values = values_at(document, "change")?;
    if has_only(document, &["change"]) && are_tables(values) {
        Some(values)
    } else {
        None
    }
}

fn are_tables(values: &[Value]) -> bool
    ensures { result ≡ list_all (λ v. spec.is_table (view v)) values.now }
{
    for value in values {
        if !value.is_table() {
            return false;
        }
    }
    true
}

/// The changes of tables, or the number of the first that says none.
#[tactic(auto, using(crate::proofs::Lists::each_more, crate::proofs::Lists::each_none, crate::proofs::Lists::first_none))]
fn changes_of_tables(alloc: Global, tables: &[Value]) -> Result<Vec<FileChange>, ChangeFileFault>
    requires { length tables.now < 2 ^ 63 }
    ensures ok { IfOk result (λ cs. spec.changes_of_tables (map view tables.now) ≡ Ok cs.items) }
    ensures table { (k : ℕ) → result ≡ Err (Table k) → spec.changes_of_tables (map view tables.now) ≡ Err k }
    ensures memory { result ≡ Err Memory → 0 < length tables.now }
    ensures toml { result ≢ Err NotToml }
{
    let mut changes = Vec::new(alloc);
    for (place, table) in tables.iter().enumerate() {
        match change_of(alloc, table) {
            Ok(change) => changes.push(change)?,
            Err(FormFault::Form) => return Err(ChangeFileFault::Table(place as u64 + 1)),
            Err(FormFault::Memory) => return Err(ChangeFileFault::Memory),
        }
    }
    Ok(changes)
}

/// The changes of a document.
fn changes_of(alloc: Global, document: &Table) -> Result<Vec<FileChange>, ChangeFileFault>
    ensures ok { IfOk result (λ cs. spec.changes_of (table_view document.now) ≡ Ok cs.items) }
    ensures table { (k : ℕ) → result ≡ Err (Table k) → spec.changes_of (table_view document.now) ≡ Err k }
    ensures memory { result ≡ Err Memory → IsSomeAnd (spec.tables_in (table_view document.now)) (λ tables. 0 < length tables) }
    ensures toml { result ≢ Err NotToml }
{
    match tables_in(document) {
        Some(tables) => changes_of_tables(alloc, tables),
        None => Err(ChangeFileFault::Table(0)),
    }
}

/// Reads a file of changes whole. Where the bytes are no document of TOML, `NotToml`; where a table has another form, the number of the first.
pub fn read_changes(alloc: Global, bytes: &[u8]) -> Result<Vec<FileChange>, ChangeFileFault>
    ensures ok { IfOk result (λ cs. IsUtf8 bytes.now × (spec.read bytes.now ≡ Some (Ok cs.items))) }
    ensures table { (k : ℕ) → result ≡ Err (Table k) → IsUtf8 bytes.now × (spec.read bytes.now ≡ Some (Err k)) }
    ensures toml { result ≡ Err NotToml → IsUtf8 bytes.now → spec.read bytes.now ≡ None }
    // Bytes that are no UTF-8 are told as such.
    ensures memory { result ≡ Err Memory → IsUtf8 bytes.now }
{
    let Ok(text) = std::str::from_utf8(bytes) else {
        return Err(ChangeFileFault::NotToml);
    };
    match toml::table_from_str(alloc, text) {
        Ok(document) => changes_of(alloc, &document),
        Err(error) if error.is_memory() => Err(ChangeFileFault::Memory),
        Err(_) => Err(ChangeFileFault::NotToml),
    }
}
