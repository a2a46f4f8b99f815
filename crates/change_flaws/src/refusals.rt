// What is said of a change that is refused.
ghost use Rattle.std.specs.Prelude.{◌≡◌, IfOk, codes, option_map};
ghost use Rattle.std.specs.String.{string_bytes};
ghost use Rattle.toml.specs.View.{table_view};
ghost use Rattle.change_flaws.specs.Refusals as spec;

use crate::keys::{table_of, text_at};
use crate::limits::excess;
use crate::said::document_of;
use common_types::{Refused, escaped};
use std::alloc::{AllocError, Global};
use toml::Table;

/// What is done to the item whose selector stands at a key.
fn done_at(
    alloc: Global,
    table: &Table,
    verb: &str,
    key: &str,
) -> Result<Option<String>, AllocError>
    ensures { IfOk result (λ said. option_map string_bytes said ≡ spec.done_at verb.now key.now (table_view table.now)) }
{
    let Some(selector) = text_at(table, key) else {
        return Ok(None);
    };
    let selector = escaped(alloc, selector.as_bytes())?;
    Ok(Some(format!(in alloc; "{verb} \"{selector}\"")?))
}

/// What is done to an item that is moved.
fn move_of(alloc: Global, table: &Table) -> Result<Option<String>, AllocError>
    ensures { IfOk result (λ said. option_map string_bytes said ≡ spec.move (table_view table.now)) }
{
    let Some(mut text) = done_at(alloc, table, "moves", "from")? else {
        return Ok(None);
    };
    let Some(to) = done_at(alloc, table, " to", "to")? else {
        return Ok(None);
    };
    text.push_str(&to)?;
    Ok(Some(text))
}

/// What a change does, and to which item.
fn deed(alloc: Global, table: &Table) -> Result<Option<String>, AllocError>
    ensures { IfOk result (λ said. option_map string_bytes said ≡ spec.deed (table_view table.now)) }
{
    let Some(word) = text_at(table, "do") else {
        return Ok(None);
    };
    match word {
        "put" => done_at(alloc, table, "puts", "selector"),
        "remove" => done_at(alloc, table, "removes", "selector"),
        "move" => move_of(alloc, table),
        "host" => Ok(Some(String::from_str(alloc, "sets the host")?)),
        "admin" => Ok(Some(String::from_str(alloc, "sets the administrator")?)),
        _ => Ok(None),
    }
}

/// What is said of why it is refused.
fn reason(alloc: Global, table: &Table, refused: Refused) -> Result<Option<String>, AllocError>
    ensures { IfOk result (λ said. option_map string_bytes said ≡ spec.reason refused (table_view table.now)) }
{
    match refused {
        Refused::TooLong => excess(alloc, table),
        _ => Ok(None),
    }
}

/// What a change of this number does.
fn item_text(alloc: Global, number: u64, deed: &str) -> Result<String, AllocError>
    ensures { IfOk result (λ t. string_bytes t ≡ spec.item_text number deed.now) }
{
    let mut text = format!(in alloc; "Change {number}")?;
    text.push_str(&format!(in alloc; " {deed}")?)?;
    Ok(text)
}

/// What stands behind that.
fn behind(alloc: Global, reason: Option<String>) -> Result<String, AllocError>
    ensures { IfOk result (λ t. string_bytes t ≡ spec.behind (option_map string_bytes reason)) }
{
    match reason {
        Some(reason) => format!(in alloc; ": {reason}."),
        None => String::from_str(alloc, "."),
    }
}

/// What is said of the table of a change.
fn table_line(
    alloc: Global,
    table: &Table,
    number: u64,
    refused: Refused,
) -> Result<Option<String>, AllocError>
    ensures { IfOk result (λ said. option_map string_bytes said ≡ spec.table_line number refused (table_view table.now)) }
{
    let Some(deed) = deed(alloc, table)? else {
        return Ok(None);
    };
    let mut line = item_text(alloc, number, &deed)?;
    line.push_str(&behind(alloc, reason(alloc, table, refused)?)?)?;
    Ok(Some(line))
}

/// What is said of a change of a document.
fn document_line(
    alloc: Global,
    document: &Table,
    number: u64,
    refused: Refused,
) -> Result<Option<String>, AllocError>
    ensures { IfOk result (λ said. option_map string_bytes said ≡ spec.document_line number refused (table_view document.now)) }
{
    match table_of(document, number) {
        Some(table) => table_line(alloc, table, number, refused),
        None => Ok(None),
    }
}

/// What is said of the change of this number of a file, which is refused so.
pub fn refusal_line(
    alloc: Global,
    file: &str,
    number: u64,
    refused: Refused,
) -> Result<Option<String>, AllocError>
    ensures { IfOk result (λ said. option_map string_bytes said ≡ spec.refusal_line number refused file.now) }
{
    match document_of(alloc, file)? {
        Ok(document) => document_line(alloc, &document, number, refused),
        Err(_) => Ok(None),
    }
}

/// What a change does that removes the item of a name.
fn removal(alloc: Global, name: &str) -> Result<String, AllocError>
    ensures { IfOk result (λ t. string_bytes t ≡ spec.done_to (codes "removes") name.now) }
{
    let name = escaped(alloc, name.as_bytes())?;
    format!(in alloc; "removes \"{name}\"")
}

/// What is said of why an item of this name is not removed.
fn name_reason(alloc: Global, name: &str, refused: Refused) -> Result<Option<String>, AllocError>
    ensures { IfOk result (λ said. option_map string_bytes said ≡ spec.name_reason refused name.now) }
{
    match refused {
        Refused::TooLong if name.len() > 255 => Ok(Some(String::from_str(
            alloc,
            "its selector is longer than 255 bytes",
        )?)),
        _ => Ok(None),
    }
}

/// What is said of the change of this number, which removes the item of a name and is refused so.
pub fn removal_line(
    alloc: Global,
    name: &str,
    number: u64,
    refused: Refused,
) -> Result<String, AllocError>
    ensures { IfOk result (λ t. string_bytes t ≡ spec.removal_line number refused name.now) }
{
    let mut line = item_text(alloc, number, &removal(alloc, name)?)?;
    line.push_str(&behind(alloc, name_reason(alloc, name, refused)?)?)?;
    Ok(line)
}
