// The views of a document, as a file of changes writes them.
ghost use Rattle.std.specs.Prelude.{◌≡◌, ◌≤◌, IfOk, OnOk, Some, Err, All, IsUtf8, map};
ghost use Rattle.toml.specs.Data.{depth, items_depth};
ghost use Rattle.toml.specs.View.{view, items_view, table_view};
ghost use Rattle.change_file.specs.Tables.{each};
ghost use Rattle.change_file.specs.Views.{view_of};
ghost use Rattle.change_writer.specs.Members.{HasBytes, names};
ghost use Rattle.change_writer.specs.Said.{IsSaidView};
ghost use Rattle.change_writer.specs.declared.fault.WriteFault.TheVariants.{Unsaid};

use crate::WriteFault;
use crate::tables::{no_table, text, with};
use host_types::{Bytes, View};
use std::alloc::{AllocError, Global};
use toml::{Table, Value};

/// The table with bytes: as text where they are one, and else as hexadecimal digits.
fn with_bytes(alloc: Global, table: Table, bytes: &[u8]) -> Result<Table, AllocError>
    ensures { IfOk result (λ t. HasBytes bytes.now (table_view table) (table_view t)) }
{
    match str::from_utf8(bytes) {
        Ok(text) => with(
            alloc,
            table,
            "text",
            Value::String(String::from_str(alloc, text)?),
        ),
        Err(_) => with(
            alloc,
            table,
            "hex",
            Value::String(hex::encode(alloc, bytes)?),
        ),
    }
}

/// The name of a view, and its language where it has one.
fn named(alloc: Global, name: &Bytes, language: &Bytes) -> Result<Table, WriteFault>
    ensures named { IfOk result (λ t. table_view t ≡ names name.now language.now) }
    ensures said { OnOk result (IsUtf8 name.now × IsUtf8 language.now) }
    ensures unsaid { result ≡ Err Unsaid → ¬ (IsUtf8 name.now × IsUtf8 language.now) }
{
    let name = text(alloc, name.as_slice())?;
    let table = with(alloc, no_table(alloc), "name", name)?;
    if language.is_empty() {
        return Ok(table);
    }
    let language = text(alloc, language.as_slice())?;
    Ok(with(alloc, table, "language", language)?)
}

/// One view.
#[tactic(auto, using(crate::proofs::SmallTables::view_reads, crate::proofs::SmallTables::view_depth))]
fn one_view(alloc: Global, one: &View) -> Result<Value, WriteFault>
    ensures read { IfOk result (λ v. view_of (view v) ≡ Some one.now) }
    ensures depth { IfOk result (λ v. depth (view v) ≤ 1) }
    ensures said { OnOk result (IsSaidView one.now) }
    ensures unsaid { result ≡ Err Unsaid → ¬ (IsSaidView one.now) }
{
    let table = named(alloc, &one.name, &one.language)?;
    Ok(Value::Table(with_bytes(alloc, table, one.bytes.as_slice())?))
}

/// Views, in their order.
#[tactic(auto, using(crate::proofs::Lists::each_same, crate::proofs::Lists::depth_more, crate::proofs::Lists::all_more, crate::proofs::Lists::not_all))]
pub fn views(alloc: Global, views: &[View]) -> Result<Vec<Value>, WriteFault>
    ensures read { IfOk result (λ vs. each view_of (map view vs.items) ≡ Some views.now) }
    ensures depth { IfOk result (λ vs. items_depth (items_view vs.items) ≤ 1) }
    ensures said { OnOk result (All IsSaidView views.now) }
    ensures unsaid { result ≡ Err Unsaid → ¬ (All IsSaidView views.now) }
{
    let mut values = Vec::new(alloc);
    for one in views {
        values.push(one_view(alloc, one)?)?;
    }
    Ok(values)
}
