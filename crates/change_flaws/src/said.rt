// What is said of a file of changes that can't be read.
ghost use Rattle.std.specs.Prelude.{◌≡◌, ◌≤◌, Some, None, IfOk, IfErr, length, option_map};
ghost use Rattle.toml.specs.Parse.{parse_document};
ghost use Rattle.std.specs.String.{string_bytes};
ghost use Rattle.toml.specs.View.{table_view};
ghost use Rattle.change_flaws.specs.Flaws as spec;

use crate::keys::{missing_key, table_of, text_at, unknown_key, unknown_word};
use crate::lines::{line_at, line_text};
use change_file::ChangeFileFault;
use common_types::escaped;
use std::alloc::{AllocError, Global};
use std::str::from_utf8;
use toml::Table;

/// What is said of a key.
fn key_text(alloc: Global, key: &str) -> Result<String, AllocError>
    ensures { IfOk result (λ t. string_bytes t ≡ spec.key_text key.now) }
{
    let key = escaped(alloc, key.as_bytes())?;
    format!(in alloc; "No change of its kind has the key {key}.")
}

/// What is said of a selector.
fn selector_text(alloc: Global, selector: &str) -> Result<String, AllocError>
    ensures { IfOk result (λ t. string_bytes t ≡ spec.selector_text selector.now) }
{
    let selector = escaped(alloc, selector.as_bytes())?;
    format!(in alloc; " Its selector is {selector}.")
}

/// What is said of a word.
fn word_text(alloc: Global, word: &str) -> Result<String, AllocError>
    ensures { IfOk result (λ t. string_bytes t ≡ spec.word_text word.now) }
{
    let word = escaped(alloc, word.as_bytes())?;
    format!(in alloc; "There is no change with the word {word}.")
}

/// What is said of a missing key.
fn missing_text(alloc: Global, key: &str) -> Result<String, AllocError>
    ensures { IfOk result (λ t. string_bytes t ≡ spec.missing_text key.now) }
{
    format!(in alloc; "It has no key {key}.")
}

/// What is said of an unknown word, an unknown key, or a missing one.
fn key_flaw(alloc: Global, table: &Table) -> Result<Option<String>, AllocError>
    ensures { IfOk result (λ said. option_map string_bytes said ≡ spec.key_flaw (table_view table.now)) }
{
    if let Some(word) = unknown_word(table) {
        return Ok(Some(word_text(alloc, word)?));
    }
    if let Some(key) = unknown_key(table) {
        return Ok(Some(key_text(alloc, key.as_str())?));
    }
    match missing_key(table) {
        Some(key) => Ok(Some(missing_text(alloc, key)?)),
        None => Ok(None),
    }
}

/// What is said of a table.
fn table_text(alloc: Global, table: &Table) -> Result<Option<String>, AllocError>
    ensures { IfOk result (λ said. option_map string_bytes said ≡ spec.table_text (table_view table.now)) }
{
    let Some(mut text) = key_flaw(alloc, table)? else {
        return Ok(None);
    };
    if let Some(selector) = text_at(table, "selector") {
        text.push_str(&selector_text(alloc, selector)?)?;
    }
    Ok(Some(text))
}

/// What is said of the table of this number.
fn numbered_text(alloc: Global, document: &Table, number: u64) -> Result<Option<String>, AllocError>
    ensures { IfOk result (λ said. option_map string_bytes said ≡ spec.numbered_text number (table_view document.now)) }
{
    match table_of(document, number) {
        Some(table) => table_text(alloc, table),
        None => Ok(None),
    }
}

/// The document that a text is, or the place where it breaks.
pub fn document_of(alloc: Global, text: &str) -> Result<Result<Table, usize>, AllocError>
    ensures document { IfOk result (λ r. IfOk r (λ document. parse_document text.now ≡ Some (table_view document))) }
    ensures place { IfOk result (λ r. IfErr r (λ place. (parse_document text.now ≡ None) × (place ≤ length text.now))) }
{
    match toml::table_from_str(alloc, text) {
        Ok(document) => Ok(Ok(document)),
        Err(error) if error.is_memory() => Err(AllocError),
        Err(error) => Ok(Err(error.span().map_or(0, |span| span.start))),
    }
}

fn flaw_of_text(
    alloc: Global,
    text: &str,
    fault: ChangeFileFault,
) -> Result<Option<String>, AllocError>
    ensures { IfOk result (λ said. spec.SaysFlaw text.now fault (option_map string_bytes said)) }
{
    match (document_of(alloc, text)?, fault) {
        (Err(place), ChangeFileFault::NotToml) => {
            let line = line_at(text.as_bytes(), place);
            Ok(Some(line_text(alloc, line)?))
        }
        (Ok(document), ChangeFileFault::Table(number)) => numbered_text(alloc, &document, number),
        _ => Ok(None),
    }
}

/// What is said of a file that could not be read for this fault.
pub fn flaw_of(
    alloc: Global,
    bytes: &[u8],
    fault: ChangeFileFault,
) -> Result<Option<String>, AllocError>
    ensures { IfOk result (λ said. spec.SaysFlaw bytes.now fault (option_map string_bytes said)) }
{
    match (from_utf8(bytes), fault) {
        (Ok(text), _) => flaw_of_text(alloc, text, fault),
        (Err(error), ChangeFileFault::NotToml) => {
            let line = line_at(bytes, error.valid_up_to());
            Ok(Some(line_text(alloc, line)?))
        }
        _ => Ok(None),
    }
}
