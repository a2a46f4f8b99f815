// What a table of a file of changes has at its keys.
ghost use Rattle.std.specs.Prelude.{◌≡◌, Some, option_map, map, bytes_eq};
ghost use Rattle.std.specs.List.{list_any};
ghost use Rattle.toml.specs.Data.{get_member};
ghost use Rattle.toml.specs.View.{table_view, view};
ghost use Rattle.change_file.specs.Tables as spec;

use host_types::Stamp;
use toml::{Table, Value};

/// The value at a key.
fn value_at<'a>(table: &'a Table, key: &str) -> Option<&'a Value>
    ensures { option_map (λ v. view v.now) result ≡ get_member key.now (table_view table.now) }
{
    table.get(key)
}

/// The string at a key.
pub fn text_at<'a>(table: &'a Table, key: &str) -> Option<&'a str>
    ensures { option_map (λ s. s.now) result ≡ spec.text_at key.now (table_view table.now) }
{
    match value_at(table, key) {
        Some(value) => value.as_str(),
        None => None,
    }
}

/// The string at a key that may be left out, and is empty then.
pub fn optional_text_at<'a>(table: &'a Table, key: &str) -> Option<&'a str>
    ensures { option_map (λ s. s.now) result ≡ spec.optional_text_at key.now (table_view table.now) }
{
    match value_at(table, key) {
        Some(value) => value.as_str(),
        None => Some(""),
    }
}

fn small_number(number: i64) -> Option<u16>
    ensures { result ≡ spec.small_number number }
{
    if number < 0 || number > 65_535 {
        return None;
    }
    Some(number as u16)
}

/// The number at a key, from 0 to 65,535.
pub fn number_at(table: &Table, key: &str) -> Option<u16>
    ensures { result ≡ spec.number_at key.now (table_view table.now) }
{
    match value_at(table, key) {
        Some(value) => match value.as_integer() {
            Some(number) => small_number(number),
            None => None,
        },
        None => None,
    }
}

fn moment(seconds: i64) -> Option<Stamp>
    ensures { result ≡ spec.moment seconds }
{
    if seconds < 0 {
        return None;
    }
    Stamp::new(seconds as u64).ok()
}

fn moment_in(value: &Value) -> Option<Option<Stamp>>
    ensures { result ≡ spec.moment_or_none (Some (view value.now)) }
{
    let seconds = value.as_integer()?;
    Some(Some(moment(seconds)?))
}

/// The moment at a key that may be left out.
pub fn optional_moment_at(table: &Table, key: &str) -> Option<Option<Stamp>>
    ensures { result ≡ spec.optional_moment_at key.now (table_view table.now) }
{
    match value_at(table, key) {
        Some(value) => moment_in(value),
        None => Some(None),
    }
}

/// The values of the array at a key.
#[tactic(auto, using(crate::proofs::Values::values_seen))]
pub fn values_at<'a>(table: &'a Table, key: &str) -> Option<&'a [Value]>
    ensures { option_map (λ v. map view v.now) result ≡ spec.values_at key.now (table_view table.now) }
{
    match value_at(table, key) {
        Some(value) => match value.as_array() {
            Some(array) => Some(array.as_slice()),
            None => None,
        },
        None => None,
    }
}

/// The table at a key.
pub fn table_at<'a>(table: &'a Table, key: &str) -> Option<&'a Table>
    ensures { option_map (λ t. table_view t.now) result ≡ spec.table_at key.now (table_view table.now) }
{
    match value_at(table, key) {
        Some(value) => value.as_table(),
        None => None,
    }
}

/// Whether the key is one of these.
fn is_among(keys: &[&str], key: &str) -> bool
    ensures { result ≡ list_any (λ k. bytes_eq k.now key.now) keys.now }
{
    for one in keys {
        if *one == key {
            return true;
        }
    }
    false
}

/// Whether the table has no key but these.
#[tactic(auto, using(crate::proofs::Values::only_of_keys))]
pub fn has_only(table: &Table, keys: &[&str]) -> bool
    ensures { result ≡ spec.has_only (map (λ k. k.now) keys.now) (table_view table.now) }
{
    table.keys().all(|key| is_among(keys, key.as_str()))
}
