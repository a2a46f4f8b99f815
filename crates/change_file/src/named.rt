// Names of a file of changes, which their types may refuse.
ghost use Rattle.std.specs.Prelude.{◌≡◌, IfOk};
ghost use Rattle.toml.specs.View.{table_view};
ghost use Rattle.std.specs.Result.{result_map_both};
ghost use Rattle.change_file.specs.Named.{name_at, port_at, selector_named, title_named, prompt_named, host_named, admin_named, url_named, port_named, all_named};

use crate::tables::{number_at, text_at};
use host_types::{Admin, Host, Refused, Selector, Title, Url};
use std::alloc::{AllocError, Global};
use toml::Table;

/// The selector at a key.
pub fn selector_at(table: &Table, key: &str) -> Option<Result<Selector, Refused>>
    ensures { result ≡ name_at selector_named key.now (table_view table.now) }
{
    match text_at(table, key) {
        Some(text) => Some(Selector::new(text.as_bytes())),
        None => None,
    }
}

/// The title at a key.
pub fn title_at(table: &Table, key: &str) -> Option<Result<Title, Refused>>
    ensures { result ≡ name_at title_named key.now (table_view table.now) }
{
    match text_at(table, key) {
        Some(text) => Some(Title::new(text.as_bytes())),
        None => None,
    }
}

fn prompt(text: &str) -> Result<Title, Refused>
    ensures { result ≡ prompt_named text.now }
{
    let title = Title::new(text.as_bytes())?;
    if text.is_empty() {
        return Err(Refused::BadName);
    }
    Ok(title)
}

/// The prompt at a key: a title of at least one byte.
pub fn prompt_at(table: &Table, key: &str) -> Option<Result<Title, Refused>>
    ensures { result ≡ name_at prompt_named key.now (table_view table.now) }
{
    match text_at(table, key) {
        Some(text) => Some(prompt(text)),
        None => None,
    }
}

/// The host at a key.
pub fn host_at(table: &Table, key: &str) -> Option<Result<Host, Refused>>
    ensures { result ≡ name_at host_named key.now (table_view table.now) }
{
    match text_at(table, key) {
        Some(text) => Some(Host::new(text.as_bytes())),
        None => None,
    }
}

/// The administrator at a key.
pub fn admin_at(table: &Table, key: &str) -> Option<Result<Admin, Refused>>
    ensures { result ≡ name_at admin_named key.now (table_view table.now) }
{
    match text_at(table, key) {
        Some(text) => Some(Admin::new(text.as_bytes())),
        None => None,
    }
}

/// The link at a key.
pub fn url_at(table: &Table, key: &str) -> Option<Result<Url, Refused>>
    ensures { result ≡ name_at url_named key.now (table_view table.now) }
{
    match text_at(table, key) {
        Some(text) => Some(Url::new(text.as_bytes())),
        None => None,
    }
}

fn port(number: u16) -> Result<u16, Refused>
    ensures { result ≡ port_named number }
{
    if number == 0 {
        return Err(Refused::BadName);
    }
    Ok(number)
}

/// The port at a key: a number that is not 0.
pub fn port_at(table: &Table, key: &str) -> Option<Result<u16, Refused>>
    ensures { result ≡ port_at key.now (table_view table.now) }
{
    match number_at(table, key) {
        Some(number) => Some(port(number)),
        None => None,
    }
}

/// All of them, or the first refusal.
#[tactic(auto, using(crate::proofs::Lists::all_named_last))]
pub fn all_named<T: Drop>(
    alloc: Global,
    named: Vec<Result<T, Refused>>,
) -> Result<Result<Vec<T>, Refused>, AllocError>
    ensures { IfOk result (λ all. result_map_both (λ v. v.items) (λ e. e) all ≡ all_named named.items) }
{
    let mut all = Vec::new(alloc);
    for one in named {
        match one {
            Ok(name) => all.push(name)?,
            Err(refused) => return Ok(Err(refused)),
        }
    }
    Ok(Ok(all))
}
