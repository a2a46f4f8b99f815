// One change, as a file of changes writes it.
ghost use Rattle.std.specs.Prelude.{◌≡◌, ◌≤◌, ◌<◌, ℕ, List, [], None, IfOk, OnOk, Some, Err, IsUtf8, codes};
ghost use Rattle.host_types.specs.declared.change.Change.TheVariants as changes;
ghost use Rattle.toml.specs.Data.{string, table, member, no_members, members_depth};
ghost use Rattle.toml.specs.View.{table_view};
ghost use Rattle.change_file.specs.Changes.{change_of, file_change, remove as removed};
ghost use Rattle.change_file.specs.Named.{selector_named};
ghost use Rattle.change_file.specs.declared.fault.FileChange.TheVariants.{Change as FileChange};
ghost use Rattle.change_writer.specs.Bodies.{BeginsPut, deepest};
ghost use Rattle.change_writer.specs.Said.{IsSaid, read_back};
ghost use Rattle.change_writer.specs.declared.fault.WriteFault.TheVariants.{Unsaid};

use crate::WriteFault;
use crate::bodies::with_body;
use crate::tables::{no_table, number, text, with};
use host_types::{Admin, Bytes, Change, Host, Item, Selector, Stamp, Title};
use std::alloc::{AllocError, Global};
use toml::{Table, Value};

/// A table that says what is done.
fn that_does(alloc: Global, word: &str) -> Result<Table, WriteFault>
    ensures table { IfOk result (λ t. table_view t ≡ member (codes "do") (string word.now) no_members) }
    ensures unsaid { ¬ (result ≡ Err Unsaid) }
{
    let word = Value::String(String::from_str(alloc, word)?);
    Ok(with(alloc, no_table(alloc), "do", word)?)
}

/// A table that puts an item, but for what may be left out and its body.
#[tactic(auto, using(crate::proofs::Puts::begun_table))]
fn begun(alloc: Global, selector: &Selector, title: &Title) -> Result<Table, WriteFault>
    ensures begins { IfOk result (λ t. BeginsPut (table_view t) selector.now title.now [] None) }
    ensures said { OnOk result (IsUtf8 selector.now × IsUtf8 title.now) }
    ensures unsaid { result ≡ Err Unsaid → ¬ (IsUtf8 selector.now × IsUtf8 title.now) }
{
    let selector = text(alloc, selector.as_bytes())?;
    let title = text(alloc, title.as_bytes())?;
    let table = with(alloc, that_does(alloc, "put")?, "selector", selector)?;
    Ok(with(alloc, table, "title", title)?)
}

/// The table with a summary, where there is one.
#[tactic(auto, using(crate::proofs::Puts::summary_added))]
fn with_summary(alloc: Global, table: Table, summary: &Bytes) -> Result<Table, WriteFault>
    ensures begins { IfOk result (λ r. (s t : List ℕ) → BeginsPut (table_view table) s t [] None → BeginsPut (table_view r) s t summary.now None) }
    ensures said { OnOk result (IsUtf8 summary.now) }
    ensures unsaid { result ≡ Err Unsaid → ¬ (IsUtf8 summary.now) }
{
    if summary.is_empty() {
        return Ok(table);
    }
    let summary = text(alloc, summary.as_slice())?;
    Ok(with(alloc, table, "abstract", summary)?)
}

/// The table with the moment from which on the item is not found, where there is one.
#[tactic(auto, using(crate::proofs::Puts::until_added))]
fn with_until(alloc: Global, table: Table, until: Option<Stamp>) -> Result<Table, AllocError>
    ensures begins { IfOk result (λ r. (s t a : List ℕ) → BeginsPut (table_view table) s t a None → BeginsPut (table_view r) s t a until) }
{
    match until {
        Some(stamp) => Ok(with(alloc, table, "until", number(stamp.seconds()))?),
        None => Ok(table),
    }
}

#[tactic(auto, using(crate::proofs::Puts::put_reads))]
fn put(alloc: Global, selector: &Selector, item: &Item) -> Result<Table, WriteFault>
    ensures read { IfOk result (λ t. change_of (table (table_view t)) ≡ Some (FileChange (read_back (changes.Put selector.now item.now)))) }
    ensures depth { IfOk result (λ t. members_depth (table_view t) ≤ deepest) }
    ensures said { OnOk result (IsSaid (changes.Put selector.now item.now)) }
    ensures unsaid { result ≡ Err Unsaid → ¬ (IsSaid (changes.Put selector.now item.now)) }
{
    let table = begun(alloc, selector, &item.title)?;
    let table = with_summary(alloc, table, &item.summary)?;
    let table = with_until(alloc, table, item.until)?;
    Ok(with_body(alloc, table, &item.body)?)
}

fn remove(alloc: Global, selector: &Selector) -> Result<Table, WriteFault>
    ensures read { IfOk result (λ t. change_of (table (table_view t)) ≡ Some (FileChange (changes.Remove selector.now))) }
    ensures depth { IfOk result (λ t. members_depth (table_view t) ≤ deepest) }
    ensures said { OnOk result (IsUtf8 selector.now) }
    ensures unsaid { result ≡ Err Unsaid → ¬ (IsUtf8 selector.now) }
{
    let selector = text(alloc, selector.as_bytes())?;
    Ok(with(alloc, that_does(alloc, "remove")?, "selector", selector)?)
}

/// The table that removes the item of this name, be it a selector or not.
pub fn remove_named(alloc: Global, name: &str) -> Result<Table, WriteFault>
    ensures read { IfOk result (λ t. change_of (table (table_view t)) ≡ Some (file_change (removed (selector_named name.now)))) }
    ensures depth { IfOk result (λ t. members_depth (table_view t) ≤ deepest) }
    ensures unsaid { ¬ (result ≡ Err Unsaid) }
{
    let name = Value::String(String::from_str(alloc, name)?);
    Ok(with(alloc, that_does(alloc, "remove")?, "selector", name)?)
}

fn moved(alloc: Global, from: &Selector, to: &Selector) -> Result<Table, WriteFault>
    ensures read { IfOk result (λ t. change_of (table (table_view t)) ≡ Some (FileChange (changes.Move from.now to.now))) }
    ensures depth { IfOk result (λ t. members_depth (table_view t) ≤ deepest) }
    ensures said { OnOk result (IsUtf8 from.now × IsUtf8 to.now) }
    ensures unsaid { result ≡ Err Unsaid → ¬ (IsUtf8 from.now × IsUtf8 to.now) }
{
    let from = text(alloc, from.as_bytes())?;
    let to = text(alloc, to.as_bytes())?;
    let table = with(alloc, that_does(alloc, "move")?, "from", from)?;
    Ok(with(alloc, table, "to", to)?)
}

fn host_set(alloc: Global, host: &Host, port: u16) -> Result<Table, WriteFault>
    ensures read { IfOk result (λ t. change_of (table (table_view t)) ≡ Some (FileChange (changes.SetHost host.now port))) }
    ensures depth { IfOk result (λ t. members_depth (table_view t) ≤ deepest) }
    ensures said { OnOk result (IsUtf8 host.now × (0 < port)) }
    ensures unsaid { result ≡ Err Unsaid → ¬ (IsUtf8 host.now × (0 < port)) }
{
    if port == 0 {
        return Err(WriteFault::Unsaid);
    }
    let host = text(alloc, host.as_bytes())?;
    let table = with(alloc, that_does(alloc, "host")?, "host", host)?;
    Ok(with(alloc, table, "port", number(u64::from(port)))?)
}

fn admin_set(alloc: Global, admin: &Admin) -> Result<Table, WriteFault>
    ensures read { IfOk result (λ t. change_of (table (table_view t)) ≡ Some (FileChange (changes.SetAdmin admin.now))) }
    ensures depth { IfOk result (λ t. members_depth (table_view t) ≤ deepest) }
    ensures said { OnOk result (IsUtf8 admin.now) }
    ensures unsaid { result ≡ Err Unsaid → ¬ (IsUtf8 admin.now) }
{
    let admin = text(alloc, admin.as_bytes())?;
    Ok(with(alloc, that_does(alloc, "admin")?, "admin", admin)?)
}

/// The table of a change.
pub fn change(alloc: Global, change: &Change) -> Result<Table, WriteFault>
    ensures read { IfOk result (λ t. change_of (table (table_view t)) ≡ Some (FileChange (read_back change.now))) }
    ensures depth { IfOk result (λ t. members_depth (table_view t) ≤ deepest) }
    ensures said { OnOk result (IsSaid change.now) }
    ensures unsaid { result ≡ Err Unsaid → ¬ (IsSaid change.now) }
{
    match change {
        Change::Put(selector, item) => put(alloc, selector, item),
        Change::Remove(selector) => remove(alloc, selector),
        Change::Move { from, to } => moved(alloc, from, to),
        Change::SetHost { host, port } => host_set(alloc, host, *port),
        Change::SetAdmin(admin) => admin_set(alloc, admin),
        Change::Post { .. } => Err(WriteFault::Unsaid),
    }
}
