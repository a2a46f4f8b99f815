// What of a change is longer than may be.
ghost use Rattle.std.specs.Prelude.{◌≡◌, IfOk, codes, map, option_map};
ghost use Rattle.std.specs.List.{list_any};
ghost use Rattle.std.specs.String.{string_bytes};
ghost use Rattle.toml.specs.View.{table_view, view};
ghost use Rattle.change_file.specs.Tables.{table_at, text_at, values_at};
ghost use Rattle.change_flaws.specs.Refusals as spec;

use crate::keys::{text_at, value_at};
use host_types::{LONGEST_SUMMARY, MOST_VIEW_BYTES};
use std::alloc::{AllocError, Global};
use toml::{Table, Value};

/// Whether the text at a key has more than so many bytes.
fn is_above(table: &Table, key: &str, most: usize) -> bool
    ensures { result ≡ spec.is_above most (text_at key.now (table_view table.now)) }
{
    match text_at(table, key) {
        Some(text) => text.len() > most,
        None => false,
    }
}

/// What is said of the text at a key that has more than so many bytes.
fn long_at(
    alloc: Global,
    table: &Table,
    key: &str,
    most: usize,
) -> Result<Option<String>, AllocError>
    ensures { IfOk result (λ said. option_map string_bytes said ≡ spec.long_at key.now most (table_view table.now)) }
{
    if is_above(table, key, most) {
        Ok(Some(format!(in alloc; "its {key} is longer than {most} bytes")?))
    } else {
        Ok(None)
    }
}

/// The values of the array at a key.
#[tactic(auto, using(change_file::proofs::Values::values_seen))]
fn values_at<'a>(table: &'a Table, key: &str) -> Option<&'a [Value]>
    ensures { option_map (λ v. map view v.now) result ≡ values_at key.now (table_view table.now) }
{
    match value_at(table, key) {
        Some(value) => match value.as_array() {
            Some(array) => Some(array.as_slice()),
            None => None,
        },
        None => None,
    }
}

/// Whether there are more than so many values in the array at a key.
#[tactic(auto, using(crate::proofs::ValueLists::as_many))]
fn are_above(table: &Table, key: &str, most: usize) -> bool
    ensures { result ≡ spec.are_above most (values_at key.now (table_view table.now)) }
{
    match values_at(table, key) {
        Some(values) => values.len() > most,
        None => false,
    }
}

/// What is said of more than so many values in the array at a key.
fn many_at(
    alloc: Global,
    table: &Table,
    key: &str,
    most: usize,
) -> Result<Option<String>, AllocError>
    ensures { IfOk result (λ said. option_map string_bytes said ≡ spec.many_at key.now most (table_view table.now)) }
{
    if are_above(table, key, most) {
        Ok(Some(format!(in alloc; "its {key} is longer than {most} items")?))
    } else {
        Ok(None)
    }
}

/// What is said of a selector of a change.
fn long_selector(alloc: Global, table: &Table) -> Result<Option<String>, AllocError>
    ensures { IfOk result (λ said. option_map string_bytes said ≡ spec.long_selector (table_view table.now)) }
{
    if let Some(said) = long_at(alloc, table, "selector", 255)? {
        return Ok(Some(said));
    }
    if let Some(said) = long_at(alloc, table, "from", 255)? {
        return Ok(Some(said));
    }
    if let Some(said) = long_at(alloc, table, "to", 255)? {
        return Ok(Some(said));
    }
    long_at(alloc, table, "search", 255)
}

/// What is said of another name of a change.
fn long_name(alloc: Global, table: &Table) -> Result<Option<String>, AllocError>
    ensures { IfOk result (λ said. option_map string_bytes said ≡ spec.long_name (table_view table.now)) }
{
    if let Some(said) = long_at(alloc, table, "title", 69)? {
        return Ok(Some(said));
    }
    if let Some(said) = long_at(alloc, table, "host", 100)? {
        return Ok(Some(said));
    }
    long_at(alloc, table, "admin", 100)
}

/// What is said of a text of a change.
#[tactic(auto, unfolding(host_types::specs::Items::most_view_bytes))]
fn long_text(alloc: Global, table: &Table) -> Result<Option<String>, AllocError>
    ensures { IfOk result (λ said. option_map string_bytes said ≡ spec.long_text (table_view table.now)) }
{
    if let Some(said) = long_at(alloc, table, "abstract", LONGEST_SUMMARY)? {
        return Ok(Some(said));
    }
    long_at(alloc, table, "text", MOST_VIEW_BYTES)
}

/// What is said of the values of a body.
fn long_list(alloc: Global, table: &Table) -> Result<Option<String>, AllocError>
    ensures { IfOk result (λ said. option_map string_bytes said ≡ spec.long_list (table_view table.now)) }
{
    if let Some(said) = many_at(alloc, table, "menu", 100)? {
        return Ok(Some(said));
    }
    many_at(alloc, table, "views", 8)
}

/// Whether a table has a text of more than so many bytes at a key.
fn is_above_in(value: &Value, key: &str, most: usize) -> bool
    ensures { result ≡ spec.is_above most (spec.text_in key.now (view value.now)) }
{
    match value.as_table() {
        Some(table) => is_above(table, key, most),
        None => false,
    }
}

/// Whether one of these values has.
fn one_is_above(values: &[Value], key: &str, most: usize) -> bool
    ensures { result ≡ list_any (λ value. spec.is_above most (spec.text_in key.now (view value))) values.now }
{
    values.iter().any(|value| is_above_in(value, key, most))
}

/// Whether one in the array at a key has.
#[tactic(auto, using(crate::proofs::ValueLists::any_seen))]
fn any_above(table: &Table, array: &str, key: &str, most: usize) -> bool
    ensures { result ≡ spec.any_above key.now most (values_at array.now (table_view table.now)) }
{
    match values_at(table, array) {
        Some(values) => one_is_above(values, key, most),
        None => false,
    }
}

/// What is said of such a text.
fn long_in(
    alloc: Global,
    table: &Table,
    array: &str,
    key: &str,
    most: usize,
) -> Result<Option<String>, AllocError>
    ensures { IfOk result (λ said. option_map string_bytes said ≡ spec.long_in array.now key.now most (table_view table.now)) }
{
    if any_above(table, array, key, most) {
        Ok(Some(format!(in alloc; "one {key} is longer than {most} bytes")?))
    } else {
        Ok(None)
    }
}

/// What is said of a text in a menu.
fn long_entry(alloc: Global, table: &Table) -> Result<Option<String>, AllocError>
    ensures { IfOk result (λ said. option_map string_bytes said ≡ spec.long_entry (table_view table.now)) }
{
    if let Some(said) = long_in(alloc, table, "menu", "local", 255)? {
        return Ok(Some(said));
    }
    if let Some(said) = long_in(alloc, table, "menu", "selector", 255)? {
        return Ok(Some(said));
    }
    if let Some(said) = long_in(alloc, table, "menu", "info", 69)? {
        return Ok(Some(said));
    }
    if let Some(said) = long_in(alloc, table, "menu", "title", 69)? {
        return Ok(Some(said));
    }
    if let Some(said) = long_in(alloc, table, "menu", "url", 251)? {
        return Ok(Some(said));
    }
    long_in(alloc, table, "menu", "host", 100)
}

/// What is said of a text in a view.
#[tactic(auto, unfolding(host_types::specs::Items::most_view_bytes))]
fn long_view(alloc: Global, table: &Table) -> Result<Option<String>, AllocError>
    ensures { IfOk result (λ said. option_map string_bytes said ≡ spec.long_view (table_view table.now)) }
{
    if let Some(said) = long_in(alloc, table, "views", "name", 40)? {
        return Ok(Some(said));
    }
    if let Some(said) = long_in(alloc, table, "views", "language", 10)? {
        return Ok(Some(said));
    }
    if let Some(said) = long_in(alloc, table, "views", "text", MOST_VIEW_BYTES)? {
        return Ok(Some(said));
    }
    long_in(alloc, table, "views", "hex", 2 * MOST_VIEW_BYTES)
}

/// What is said of a text in a question.
fn long_question(alloc: Global, form: &Table) -> Result<Option<String>, AllocError>
    ensures { IfOk result (λ said. option_map string_bytes said ≡ spec.long_question (table_view form.now)) }
{
    if let Some(said) = long_in(alloc, form, "questions", "ask", 69)? {
        return Ok(Some(said));
    }
    if let Some(said) = long_in(alloc, form, "questions", "askl", 69)? {
        return Ok(Some(said));
    }
    if let Some(said) = long_in(alloc, form, "questions", "askp", 69)? {
        return Ok(Some(said));
    }
    if let Some(said) = long_in(alloc, form, "questions", "choose", 69)? {
        return Ok(Some(said));
    }
    long_in(alloc, form, "questions", "word", 40)
}

/// The form that a change puts.
fn form_of(table: &Table) -> Option<&Table>
    ensures { option_map (λ t. table_view t.now) result ≡ table_at (codes "form") (table_view table.now) }
{
    match value_at(table, "form") {
        Some(value) => value.as_table(),
        None => None,
    }
}

/// What is said of a form.
fn long_form(alloc: Global, table: &Table) -> Result<Option<String>, AllocError>
    ensures { IfOk result (λ said. option_map string_bytes said ≡ spec.long_form (table_view table.now)) }
{
    let Some(form) = form_of(table) else {
        return Ok(None);
    };
    if let Some(said) = long_at(alloc, form, "board", 255)? {
        return Ok(Some(said));
    }
    if let Some(said) = many_at(alloc, form, "questions", 16)? {
        return Ok(Some(said));
    }
    long_question(alloc, form)
}

/// What is said of a body.
fn long_body(alloc: Global, table: &Table) -> Result<Option<String>, AllocError>
    ensures { IfOk result (λ said. option_map string_bytes said ≡ spec.long_body (table_view table.now)) }
{
    if let Some(said) = long_list(alloc, table)? {
        return Ok(Some(said));
    }
    if let Some(said) = long_entry(alloc, table)? {
        return Ok(Some(said));
    }
    if let Some(said) = long_view(alloc, table)? {
        return Ok(Some(said));
    }
    long_form(alloc, table)
}

/// Whether it puts a board.
fn puts_board(table: &Table) -> bool
    ensures { result ≡ spec.puts_board (table_view table.now) }
{
    value_at(table, "board").is_some()
}

/// What is said of the selector of a board, which is shorter since its posts have longer ones.
fn long_board(alloc: Global, table: &Table) -> Result<Option<String>, AllocError>
    ensures { IfOk result (λ said. option_map string_bytes said ≡ spec.long_board (table_view table.now)) }
{
    if puts_board(table) {
        long_at(alloc, table, "selector", 229)
    } else {
        long_at(alloc, table, "to", 229)
    }
}

/// What is said of what is too long in a change.
pub fn excess(alloc: Global, table: &Table) -> Result<Option<String>, AllocError>
    ensures { IfOk result (λ said. option_map string_bytes said ≡ spec.excess (table_view table.now)) }
{
    if let Some(said) = long_selector(alloc, table)? {
        return Ok(Some(said));
    }
    if let Some(said) = long_name(alloc, table)? {
        return Ok(Some(said));
    }
    if let Some(said) = long_text(alloc, table)? {
        return Ok(Some(said));
    }
    if let Some(said) = long_body(alloc, table)? {
        return Ok(Some(said));
    }
    long_board(alloc, table)
}
