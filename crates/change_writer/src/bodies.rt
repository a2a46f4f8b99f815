// The body of an item, as a file of changes writes it.
ghost use Rattle.std.specs.Prelude.{◌≡◌, [], IfOk, IfSome, OnOk, Err, IsUtf8, All};
ghost use Rattle.host_types.specs.Site.{text_item};
ghost use Rattle.host_types.specs.declared.item.Body.TheVariants as bodies;
ghost use Rattle.toml.specs.View.{table_view};
ghost use Rattle.change_writer.specs.Bodies.{AddsBody};
ghost use Rattle.change_writer.specs.Said.{IsSaidBody, IsSaidView, IsSaidEntry, IsSaidQuestion};
ghost use Rattle.change_writer.specs.declared.fault.WriteFault.TheVariants.{Unsaid};

use crate::WriteFault;
use crate::entries::entries;
use crate::questions::questions;
use crate::tables::{letter, no_table, number, text, with};
use crate::views::views;
use host_types::{Body, Entry, Kind, Question, Selector, View};
use std::alloc::{AllocError, Global};
use toml::{Table, Value};

/// The text of a document that has one view of plain text, without a language.
fn plain_text<'a>(kind: Kind, views: &'a [View]) -> Option<&'a str>
    ensures { IfSome result (λ t. bodies.Views kind views.now ≡ (text_item [] 0 t.now).body) }
{
    match (kind, views) {
        (Kind::Text, [one])
            if one.name.as_slice() == b"Text/plain".as_slice() && one.language.is_empty() => {
            match str::from_utf8(one.bytes.as_slice()) {
                Ok(text) => Some(text),
                Err(_) => None,
            }
        }
        _ => None,
    }
}

#[tactic(auto, using(crate::proofs::Puts::text_added))]
fn with_text(alloc: Global, table: Table, text: &str) -> Result<Table, AllocError>
    ensures { IfOk result (λ t. AddsBody (table_view table) (table_view t) (text_item [] 0 text.now).body) }
{
    Ok(with(
        alloc,
        table,
        "text",
        Value::String(String::from_str(alloc, text)?),
    )?)
}

#[tactic(auto, using(crate::proofs::Puts::views_added, crate::proofs::Lists::values_seen))]
fn with_views(
    alloc: Global,
    table: Table,
    kind: Kind,
    views_of: &[View],
) -> Result<Table, WriteFault>
    ensures adds { IfOk result (λ t. AddsBody (table_view table) (table_view t) (bodies.Views kind views_of.now)) }
    ensures said { OnOk result (All IsSaidView views_of.now) }
    ensures unsaid { result ≡ Err Unsaid → ¬ (All IsSaidView views_of.now) }
{
    let values = views(alloc, views_of)?;
    if let Some(text) = plain_text(kind, views_of) {
        return Ok(with_text(alloc, table, text)?);
    }
    let table = with(alloc, table, "kind", letter(alloc, kind.letter())?)?;
    Ok(with(alloc, table, "views", Value::Array(values))?)
}

#[tactic(auto, using(crate::proofs::Puts::menu_added, crate::proofs::Lists::all_named_fine, crate::proofs::Lists::values_seen))]
fn with_menu(alloc: Global, table: Table, menu: &[Entry]) -> Result<Table, WriteFault>
    ensures adds { IfOk result (λ t. AddsBody (table_view table) (table_view t) (bodies.Menu menu.now)) }
    ensures said { OnOk result (All IsSaidEntry menu.now) }
    ensures unsaid { result ≡ Err Unsaid → ¬ (All IsSaidEntry menu.now) }
{
    let values = entries(alloc, menu)?;
    Ok(with(alloc, table, "menu", Value::Array(values))?)
}

#[tactic(auto, using(crate::proofs::Puts::board_added))]
fn with_board(alloc: Global, table: Table, cap: u16, next: u64) -> Result<Table, WriteFault>
    ensures adds { IfOk result (λ t. AddsBody (table_view table) (table_view t) (bodies.Board cap next)) }
    ensures unsaid { ¬ (result ≡ Err Unsaid) }
{
    Ok(with(alloc, table, "board", number(u64::from(cap)))?)
}

#[tactic(auto, using(crate::proofs::Puts::form_added, crate::proofs::Lists::all_named_fine, crate::proofs::Lists::values_seen))]
fn with_form(
    alloc: Global,
    table: Table,
    board: &Selector,
    asked: &[Question],
) -> Result<Table, WriteFault>
    ensures adds { IfOk result (λ t. AddsBody (table_view table) (table_view t) (bodies.Form board.now asked.now)) }
    ensures said { OnOk result (IsUtf8 board.now × All IsSaidQuestion asked.now) }
    ensures unsaid { result ≡ Err Unsaid → ¬ (IsUtf8 board.now × All IsSaidQuestion asked.now) }
{
    let board = text(alloc, board.as_bytes())?;
    let values = questions(alloc, asked)?;
    let form = with(alloc, no_table(alloc), "board", board)?;
    let form = with(alloc, form, "questions", Value::Array(values))?;
    Ok(with(alloc, table, "form", Value::Table(form))?)
}

#[tactic(auto, using(crate::proofs::Puts::search_added))]
fn with_search(alloc: Global, table: Table, scope: &Selector) -> Result<Table, WriteFault>
    ensures adds { IfOk result (λ t. AddsBody (table_view table) (table_view t) (bodies.Search scope.now)) }
    ensures said { OnOk result (IsUtf8 scope.now) }
    ensures unsaid { result ≡ Err Unsaid → ¬ (IsUtf8 scope.now) }
{
    let scope = text(alloc, scope.as_bytes())?;
    Ok(with(alloc, table, "search", scope)?)
}

/// The table that puts an item, with its body.
pub fn with_body(alloc: Global, table: Table, body: &Body) -> Result<Table, WriteFault>
    ensures adds { IfOk result (λ t. AddsBody (table_view table) (table_view t) body.now) }
    ensures said { OnOk result (IsSaidBody body.now) }
    ensures unsaid { result ≡ Err Unsaid → ¬ (IsSaidBody body.now) }
{
    match body {
        Body::Views(kind, views) => with_views(alloc, table, *kind, views.as_slice()),
        Body::Menu(entries) => with_menu(alloc, table, entries.as_slice()),
        Body::Board { cap, next } => with_board(alloc, table, *cap, *next),
        Body::Form { board, questions } => with_form(alloc, table, board, questions.as_slice()),
        Body::Search { scope } => with_search(alloc, table, scope),
        Body::Moved { .. } => Err(WriteFault::Unsaid),
    }
}
