// The views of a document, as a file of changes writes them.
ghost use Rattle.std.specs.Prelude.{◌≡◌, ◌%◌, Some, None, IfOk, IfErr, IsSomeAnd, length, map};
ghost use Rattle.toml.specs.View.{table_view, view};
ghost use Rattle.change_file.specs.Fails.{FormFails};
ghost use Rattle.change_file.specs.Tables.{each, text_at};
ghost use Rattle.change_file.specs.Views as spec;

use crate::fault::FormFault;
use crate::tables::{has_only, optional_text_at, text_at};
use hex::FromHexError;
use host_types::{Bytes, Kind, View};
use std::alloc::Global;
use toml::{Table, Value};

fn kind_of(text: &[u8]) -> Option<Kind>
    ensures { result ≡ spec.kind_of text.now }
{
    match text {
        [b'0'] => Some(Kind::Text),
        [b'4'] => Some(Kind::BinHex),
        [b'5'] => Some(Kind::DosArchive),
        [b'6'] => Some(Kind::Uuencoded),
        [b'9'] => Some(Kind::Binary),
        [b'g'] => Some(Kind::Gif),
        [b'I'] => Some(Kind::Image),
        [b'h'] => Some(Kind::Html),
        _ => None,
    }
}

/// The kind of a document at a key, by its letter.
pub fn kind_at(table: &Table, key: &str) -> Option<Kind>
    ensures { result ≡ spec.kind_at key.now (table_view table.now) }
{
    match text_at(table, key) {
        Some(text) => kind_of(text.as_bytes()),
        None => None,
    }
}

/// The bytes that the hexadecimal digits at a key write.
fn hex_at(alloc: Global, table: &Table, key: &str) -> Result<Bytes, FormFault>
    ensures ok { IfOk result (λ b. spec.hex_at key.now (table_view table.now) ≡ Some b) }
    ensures form { result ≡ Err FormFault.Form → spec.hex_at key.now (table_view table.now) ≡ None }
    ensures memory { result ≡ Err FormFault.Memory → IsSomeAnd (text_at key.now (table_view table.now)) (λ digits. length digits % 2 ≡ 0) }
{
    let Some(digits) = text_at(table, key) else {
        return Err(FormFault::Form);
    };
    match hex::decode(alloc, digits.as_bytes()) {
        Ok(bytes) => Ok(Bytes::from(bytes)),
        Err(FromHexError::OutOfMemory) => Err(FormFault::Memory),
        Err(_) => Err(FormFault::Form),
    }
}

fn view_with(alloc: Global, table: &Table, bytes: Bytes) -> Result<View, FormFault>
    ensures ok { IfOk result (λ v. spec.view_with (table_view table.now) bytes ≡ Some v) }
    ensures fault { IfErr result (FormFails (spec.view_with (table_view table.now) bytes)) }
{
    let Some(name) = text_at(table, "name") else {
        return Err(FormFault::Form);
    };
    let Some(language) = optional_text_at(table, "language") else {
        return Err(FormFault::Form);
    };
    Ok(View {
        name: Bytes::from_slice(alloc, name.as_bytes())?,
        language: Bytes::from_slice(alloc, language.as_bytes())?,
        bytes,
    })
}

fn text_view(alloc: Global, table: &Table) -> Result<View, FormFault>
    ensures ok { IfOk result (λ v. spec.text_view (table_view table.now) ≡ Some v) }
    ensures form { result ≡ Err FormFault.Form → spec.text_view (table_view table.now) ≡ None }
{
    let Some(text) = text_at(table, "text") else {
        return Err(FormFault::Form);
    };
    view_with(alloc, table, Bytes::from_slice(alloc, text.as_bytes())?)
}

fn hex_view(alloc: Global, table: &Table) -> Result<View, FormFault>
    ensures ok { IfOk result (λ v. spec.hex_view (table_view table.now) ≡ Some v) }
    ensures form { result ≡ Err FormFault.Form → spec.hex_view (table_view table.now) ≡ None }
{
    view_with(alloc, table, hex_at(alloc, table, "hex")?)
}

/// One view.
fn view_of(alloc: Global, value: &Value) -> Result<View, FormFault>
    ensures ok { IfOk result (λ v. spec.view_of (view value.now) ≡ Some v) }
    ensures form { result ≡ Err FormFault.Form → spec.view_of (view value.now) ≡ None }
{
    let Some(table) = value.as_table() else {
        return Err(FormFault::Form);
    };
    if has_only(table, &["name", "language", "text"]) {
        text_view(alloc, table)
    } else if has_only(table, &["name", "language", "hex"]) {
        hex_view(alloc, table)
    } else {
        Err(FormFault::Form)
    }
}

/// Views, in their order.
#[tactic(auto, using(crate::proofs::Lists::each_more, crate::proofs::Lists::each_none))]
pub fn views_of(alloc: Global, values: &[Value]) -> Result<Vec<View>, FormFault>
    ensures ok { IfOk result (λ vs. each spec.view_of (map view values.now) ≡ Some vs.items) }
    ensures form { result ≡ Err FormFault.Form → each spec.view_of (map view values.now) ≡ None }
{
    let mut views = Vec::new(alloc);
    for value in values {
        views.push(view_of(alloc, value)?)?;
    }
    Ok(views)
}
