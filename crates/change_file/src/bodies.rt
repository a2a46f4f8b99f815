// The body of an item, as a file of changes writes it.
ghost use Rattle.std.specs.Prelude.{◌≡◌, Some, None, [], IfOk, IfErr, IsTrue, IsSome, codes};
ghost use Rattle.std.specs.Result.{result_map_both};
ghost use Rattle.host_types.specs.Site.{text_item};
ghost use Rattle.toml.specs.View.{table_view};
ghost use Rattle.change_file.specs.Bodies as spec;
ghost use Rattle.change_file.specs.Fails.{HasNoForm, FormFails};
ghost use Rattle.change_file.specs.Tables.{text_at, values_at};
ghost use Rattle.change_file.specs.Views.{kind_at};

use crate::entries::entries_of;
use crate::fault::FormFault;
use crate::named::{all_named, selector_at};
use crate::questions::questions_of;
use crate::tables::{has_only, number_at, table_at, text_at, values_at};
use crate::views::{kind_at, views_of};
use host_types::{
    Body, Bytes, Entry, EntryList, Kind, Question, QuestionList, Refused, Selector, View, ViewList,
};
use std::alloc::{AllocError, Global};
use toml::Table;

fn menu(entries: Result<Vec<Entry>, Refused>) -> Result<Body, Refused>
    ensures { result ≡ spec.menu (result_map_both (λ v. v.items) (λ e. e) entries) }
{
    Ok(Body::Menu(EntryList::from(entries?)))
}

fn form(
    board: Result<Selector, Refused>,
    questions: Result<Vec<Question>, Refused>,
) -> Result<Body, Refused>
    ensures { result ≡ spec.form board (result_map_both (λ v. v.items) (λ e. e) questions) }
{
    Ok(Body::Form {
        board: board?,
        questions: QuestionList::from(questions?),
    })
}

fn search(scope: Result<Selector, Refused>) -> Result<Body, Refused>
    ensures { result ≡ spec.search_in scope }
{
    Ok(Body::Search { scope: scope? })
}

/// A text of one view, as posts are.
fn text(alloc: Global, text: &str) -> Result<Body, AllocError>
    ensures { IfOk result (λ b. b ≡ (text_item [] 0 text.now).body) }
{
    let view = View {
        name: Bytes::from_slice(alloc, b"Text/plain")?,
        language: Bytes::new(alloc),
        bytes: Bytes::from_slice(alloc, text.as_bytes())?,
    };
    let mut views = ViewList::new(alloc);
    views.push(view)?;
    Ok(Body::Views(Kind::Text, views))
}

fn text_body(alloc: Global, table: &Table) -> Result<Result<Body, Refused>, FormFault>
    ensures ok { IfOk result (λ b. spec.text_body (table_view table.now) ≡ Some b) }
    ensures fault { IfErr result (FormFails (spec.text_body (table_view table.now))) }
{
    match text_at(table, "text") {
        Some(bytes) => Ok(Ok(text(alloc, bytes)?)),
        None => Err(FormFault::Form),
    }
}

fn views_body(alloc: Global, table: &Table) -> Result<Result<Body, Refused>, FormFault>
    ensures ok { IfOk result (λ b. spec.views_body (table_view table.now) ≡ Some b) }
    ensures form { result ≡ Err FormFault.Form → spec.views_body (table_view table.now) ≡ None }
    ensures memory { result ≡ Err FormFault.Memory → IsSome (kind_at (codes "kind") (table_view table.now)) × IsSome (values_at (codes "views") (table_view table.now)) }
{
    let Some(kind) = kind_at(table, "kind") else {
        return Err(FormFault::Form);
    };
    let Some(values) = values_at(table, "views") else {
        return Err(FormFault::Form);
    };
    let views = views_of(alloc, values)?;
    Ok(Ok(Body::Views(kind, ViewList::from(views))))
}

fn menu_body(alloc: Global, table: &Table) -> Result<Result<Body, Refused>, FormFault>
    ensures ok { IfOk result (λ b. spec.menu_body (table_view table.now) ≡ Some b) }
    ensures form { result ≡ Err FormFault.Form → spec.menu_body (table_view table.now) ≡ None }
    ensures memory { result ≡ Err FormFault.Memory → IsSome (values_at (codes "menu") (table_view table.now)) }
{
    let Some(values) = values_at(table, "menu") else {
        return Err(FormFault::Form);
    };
    let entries = entries_of(alloc, values)?;
    Ok(menu(all_named(alloc, entries)?))
}

fn board_body(table: &Table) -> Result<Result<Body, Refused>, FormFault>
    ensures ok { IfOk result (λ b. spec.board_body (table_view table.now) ≡ Some b) }
    ensures fault { IfErr result (HasNoForm (spec.board_body (table_view table.now))) }
{
    match number_at(table, "board") {
        Some(cap) => Ok(Ok(Body::Board { cap, next: 1 })),
        None => Err(FormFault::Form),
    }
}

fn form_in(alloc: Global, table: &Table) -> Result<Result<Body, Refused>, FormFault>
    ensures ok { IfOk result (λ b. spec.form_in (table_view table.now) ≡ Some b) }
    ensures form { result ≡ Err FormFault.Form → spec.form_in (table_view table.now) ≡ None }
    ensures memory { result ≡ Err FormFault.Memory → IsSome (text_at (codes "board") (table_view table.now)) × IsSome (values_at (codes "questions") (table_view table.now)) }
{
    let Some(board) = selector_at(table, "board") else {
        return Err(FormFault::Form);
    };
    let Some(values) = values_at(table, "questions") else {
        return Err(FormFault::Form);
    };
    let questions = questions_of(alloc, values)?;
    Ok(form(board, all_named(alloc, questions)?))
}

fn form_body(alloc: Global, table: &Table) -> Result<Result<Body, Refused>, FormFault>
    ensures ok { IfOk result (λ b. spec.form_body (table_view table.now) ≡ Some b) }
    ensures form { result ≡ Err FormFault.Form → spec.form_body (table_view table.now) ≡ None }
    ensures memory { result ≡ Err FormFault.Memory → IsSome (spec.form_table (table_view table.now)) }
{
    match table_at(table, "form") {
        Some(inner) if has_only(inner, &["board", "questions"]) => form_in(alloc, inner),
        _ => Err(FormFault::Form),
    }
}

fn search_body(table: &Table) -> Result<Result<Body, Refused>, FormFault>
    ensures ok { IfOk result (λ b. spec.search_body (table_view table.now) ≡ Some b) }
    ensures fault { IfErr result (HasNoForm (spec.search_body (table_view table.now))) }
{
    match selector_at(table, "search") {
        Some(scope) => Ok(search(scope)),
        None => Err(FormFault::Form),
    }
}

/// The body that a table puts, or the first refusal of its names; the table has the keys of its form alone.
pub fn body_in(alloc: Global, table: &Table) -> Result<Result<Body, Refused>, FormFault>
    ensures ok { IfOk result (λ b. spec.body_in (table_view table.now) ≡ Some b) }
    ensures form { result ≡ Err FormFault.Form → spec.body_in (table_view table.now) ≡ None }
    ensures memory { result ≡ Err FormFault.Memory → IsTrue (spec.has_body (table_view table.now)) }
{
    if has_only(
        table,
        &["do", "selector", "title", "abstract", "until", "text"],
    ) {
        text_body(alloc, table)
    } else if has_only(
        table,
        &[
            "do", "selector", "title", "abstract", "until", "kind", "views",
        ],
    ) {
        views_body(alloc, table)
    } else if has_only(
        table,
        &["do", "selector", "title", "abstract", "until", "menu"],
    ) {
        menu_body(alloc, table)
    } else if has_only(
        table,
        &["do", "selector", "title", "abstract", "until", "board"],
    ) {
        board_body(table)
    } else if has_only(
        table,
        &["do", "selector", "title", "abstract", "until", "form"],
    ) {
        form_body(alloc, table)
    } else if has_only(
        table,
        &["do", "selector", "title", "abstract", "until", "search"],
    ) {
        search_body(table)
    } else {
        Err(FormFault::Form)
    }
}
