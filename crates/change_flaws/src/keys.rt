// The keys of a change that it may not have.
ghost use Rattle.std.specs.Prelude.{◌≡◌, map, option_map};
ghost use Rattle.std.specs.List.{list_any};
ghost use Rattle.std.specs.String.{string_bytes};
ghost use Rattle.std.specs.Prelude.{bytes_eq};
ghost use Rattle.toml.specs.Data.{get_member};
ghost use Rattle.toml.specs.View.{table_view, view};
ghost use Rattle.change_file.specs.Tables.{text_at};
ghost use Rattle.change_flaws.specs.Flaws as spec;

use toml::{Table, Value};

/// Whether a key is one of these.
fn is_one_of(keys: &[&str], key: &str) -> bool
    ensures { result ≡ list_any (λ k. bytes_eq k.now key.now) keys.now }
{
    keys.iter().any(|one| *one == key)
}

/// The first key of a table that is none of these.
fn first_other<'a>(table: &'a Table, keys: &[&str]) -> Option<&'a String>
    ensures { option_map (λ k. string_bytes k.now) result ≡ spec.first_other (map (λ k. k.now) keys.now) (table_view table.now) }
{
    table.keys().find(|key| !is_one_of(keys, key.as_str()))
}

/// The value at a key.
pub fn value_at<'a>(table: &'a Table, key: &str) -> Option<&'a Value>
    ensures { option_map (λ v. view v.now) result ≡ get_member key.now (table_view table.now) }
{
    table.get(key)
}

/// The string at a key.
pub fn text_at<'a>(table: &'a Table, key: &str) -> Option<&'a str>
    ensures { option_map (λ s. s.now) result ≡ text_at key.now (table_view table.now) }
{
    match value_at(table, key) {
        Some(value) => value.as_str(),
        None => None,
    }
}

/// The first key of a table that no change of its word has.
pub fn unknown_key(table: &Table) -> Option<&String>
    ensures { option_map (λ k. string_bytes k.now) result ≡ spec.unknown_key (table_view table.now) }
{
    let Some(word) = text_at(table, "do") else {
        return None;
    };
    match word {
        "put" => first_other(
            table,
            &[
                "do", "selector", "title", "abstract", "until", "text", "kind", "views", "menu",
                "board", "form", "search",
            ],
        ),
        "remove" => first_other(table, &["do", "selector"]),
        "move" => first_other(table, &["do", "from", "to"]),
        "host" => first_other(table, &["do", "host", "port"]),
        "admin" => first_other(table, &["do", "admin"]),
        _ => None,
    }
}

/// The word of a table, where no changes have it.
pub fn unknown_word(table: &Table) -> Option<&str>
    ensures { option_map (λ w. w.now) result ≡ spec.unknown_word (table_view table.now) }
{
    let Some(word) = text_at(table, "do") else {
        return None;
    };
    match word {
        "put" | "remove" | "move" | "host" | "admin" => None,
        _ => Some(word),
    }
}

/// The first of two keys that a table has not.
fn first_missing(table: &Table, first: &'static str, second: &'static str) -> Option<&'static str>
    ensures { option_map (λ k. k.now) result ≡ spec.first_missing first.now second.now (table_view table.now) }
{
    if value_at(table, first).is_none() {
        return Some(first);
    }
    if value_at(table, second).is_none() {
        return Some(second);
    }
    None
}

/// The first key that a table has not, and that changes of its word need.
pub fn missing_key(table: &Table) -> Option<&'static str>
    ensures { option_map (λ k. k.now) result ≡ spec.missing_key (table_view table.now) }
{
    let Some(word) = text_at(table, "do") else {
        return first_missing(table, "do", "do");
    };
    match word {
        "put" => first_missing(table, "selector", "title"),
        "remove" => first_missing(table, "selector", "selector"),
        "move" => first_missing(table, "from", "to"),
        "host" => first_missing(table, "host", "port"),
        "admin" => first_missing(table, "admin", "admin"),
        _ => None,
    }
}

/// The value at a place of an array.
fn value_of(value: &Value, place: usize) -> Option<&Value>
    ensures { option_map (λ v. view v.now) result ≡ spec.value_of place (view value.now) }
{
    value.get(place)
}

/// The table of this number, from 1.
pub fn table_of(document: &Table, number: u64) -> Option<&Table>
    ensures { option_map (λ t. table_view t.now) result ≡ spec.table_of number (table_view document.now) }
{
    if number == 0 {
        return None;
    }
    let Some(changes) = value_at(document, "change") else {
        return None;
    };
    match value_of(changes, (number - 1) as usize) {
        Some(change) => change.as_table(),
        None => None,
    }
}
