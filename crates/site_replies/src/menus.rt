// Menus of what stands in a site.
ghost use Rattle.std.specs.Prelude.{◌≡◌, ◌++◌, true, All, filter_map, flat_map, IfOk, OnOk, IfErr, IsTrue, option_copied};
ghost use Rattle.host_types.specs.Card.{card_at};
ghost use Rattle.host_types.specs.Visible.{visible};
ghost use Rattle.host_types.specs.Address.{address};
ghost use Rattle.host_types.specs.Site.{Site};
ghost use Rattle.host_types.specs.declared.menu.Entry.TheVariants.{Local};
ghost use Rattle.host_types.specs.SiteState.{HasRead, LacksTheSame, IsReadFault};
ghost use Rattle.host_types.specs.CrashStates.{AddsNone};
ghost use Rattle.text_writer.specs.Menu.{address_fields, found_line, entry_line, line_bytes};
ghost use Rattle.word_search.specs.Search.{search_of};
ghost use Rattle.site_replies.specs.Finds.{IsFindOf, found_names};
ghost use Rattle.site_replies.specs.Reply.{locals};
ghost use Rattle.site_replies.specs.Reads.{ReadsSite};
ghost use Rattle.site_replies.specs.Reply as spec;

use crate::documents::as_text;
use crate::entries::post_names;
use crate::looking::front_at;
use host_types::{Address, Bytes, Entry, Selector, SiteFault, Stamp};
use std::alloc::{AllocError, Global};
use text_writer::{add_link_line, add_menu_line, address_fields, ended_menu};
use word_search::{Find, SearchKeeper};

/// Adds the line of what stands at a selector, where it has one, by the fields of the site's address.
fn add_line_at<S: SearchKeeper>(
    lines: &mut Vec<u8>,
    site: &mut S,
    fields: &[u8],
    selector: &Selector,
    now: Stamp,
) -> Result<(), SiteFault>
    ensures line { ReadsSite S.site_state S.lacks S.crash_states site.old site.new result (λ s _. fields.now ≡ address_fields (address s) → lines.new.items ≡ lines.old.items ++ line_bytes (found_line (address s) selector.now (card_at (visible s now) selector.now))) }
{
    let Some(front) = front_at(site, selector, now)? else {
        return Ok(());
    };
    Ok(add_menu_line(lines, fields, selector, &front)?)
}

/// Adds the line of an entry of a menu, where it has one, by the fields of the site's address.
fn add_line_of<S: SearchKeeper>(
    alloc: Global,
    lines: &mut Vec<u8>,
    site: &mut S,
    fields: &[u8],
    entry: &Entry,
    now: Stamp,
) -> Result<(), SiteFault>
    ensures line { ReadsSite S.site_state S.lacks S.crash_states site.old site.new result (λ s _. fields.now ≡ address_fields (address s) → lines.new.items ≡ lines.old.items ++ line_bytes (entry_line (visible s now) entry.now)) }
{
    if let Entry::Local(selector) = entry {
        return add_line_at(lines, site, fields, selector, now);
    }
    Ok(add_link_line(alloc, lines, &site.front(), entry)?)
}

/// The lines of the entries that have one, in a row.
fn lines_of<S: SearchKeeper>(
    alloc: Global,
    site: &mut S,
    entries: &[Entry],
    now: Stamp,
) -> Result<Vec<u8>, SiteFault>
    ensures lines { ReadsSite S.site_state S.lacks S.crash_states site.old site.new result (λ s lines. lines.items ≡ flat_map (λ line. line) (filter_map (entry_line (visible s now)) entries.now)) }
{
    let address = address_fields(alloc, &site.front())?;
    let fields = address.as_slice();
    let mut lines = Vec::new(alloc);
    for entry in entries {
        add_line_of(alloc, &mut lines, site, fields, entry, now)?;
    }
    Ok(lines)
}

/// The lines of the items at these selectors that have one, in a row.
fn lines_at<S: SearchKeeper>(
    alloc: Global,
    site: &mut S,
    selectors: &[Selector],
    now: Stamp,
) -> Result<Vec<u8>, SiteFault>
    ensures lines { ReadsSite S.site_state S.lacks S.crash_states site.old site.new result (λ s lines. lines.items ≡ flat_map (λ line. line) (filter_map (entry_line (visible s now)) (locals selectors.now))) }
{
    let address = address_fields(alloc, &site.front())?;
    let fields = address.as_slice();
    let mut lines = Vec::new(alloc);
    for selector in selectors {
        add_line_at(&mut lines, site, fields, selector, now)?;
    }
    Ok(lines)
}

/// The menu of these entries, behind its head where Gopher+ asked for it.
#[tactic(auto, unfolding(text_writer::specs::Menu::menu))]
pub fn menu_reply<S: SearchKeeper>(
    alloc: Global,
    site: &mut S,
    is_plus: bool,
    entries: &[Entry],
    now: Stamp,
) -> Result<Bytes, SiteFault>
    ensures reply { ReadsSite S.site_state S.lacks S.crash_states site.old site.new result (λ s reply. reply ≡ spec.menu_reply (visible s now) is_plus entries.now) }
{
    let lines = lines_of(alloc, site, entries, now)?;
    Ok(as_text(alloc, is_plus, ended_menu(lines)?)?)
}

/// The menu of the items at these selectors, behind its head where Gopher+ asked for it.
#[tactic(auto, unfolding(text_writer::specs::Menu::menu))]
fn names_reply<S: SearchKeeper>(
    alloc: Global,
    site: &mut S,
    is_plus: bool,
    selectors: &[Selector],
    now: Stamp,
) -> Result<Bytes, SiteFault>
    ensures reply { ReadsSite S.site_state S.lacks S.crash_states site.old site.new result (λ s reply. reply ≡ spec.menu_reply (visible s now) is_plus (locals selectors.now)) }
{
    let lines = lines_at(alloc, site, selectors, now)?;
    Ok(as_text(alloc, is_plus, ended_menu(lines)?)?)
}

/// The menu of a board, by what its card says.
pub fn board_reply<S: SearchKeeper>(
    alloc: Global,
    site: &mut S,
    is_plus: bool,
    board: &Selector,
    cap: u16,
    next: u64,
    now: Stamp,
) -> Result<Bytes, SiteFault>
    ensures reply { ReadsSite S.site_state S.lacks S.crash_states site.old site.new result (λ s reply. reply ≡ spec.menu_reply (visible s now) is_plus (locals (spec.post_names board.now cap next))) }
{
    let names = post_names(alloc, board, cap, next)?;
    names_reply(alloc, site, is_plus, names.as_slice(), now)
}

/// The words that a search is asked for, which may be none.
fn words_asked(search: Option<&[u8]>) -> &[u8]
    ensures { result.now ≡ spec.words_asked (option_copied search.entry) }
{
    match search {
        Some(words) => words,
        None => &[],
    }
}

/// Adds the line of a find, where it has one, by the fields of the site's address.
fn add_find_line(lines: &mut Vec<u8>, fields: &[u8], find: &Find) -> Result<(), AllocError>
    ensures line { (s : Site) → fields.now ≡ address_fields (address s) → IsFindOf s find.now → OnOk result (lines.new.items ≡ lines.old.items ++ line_bytes (entry_line s (Local find.now.selector))) }
{
    add_menu_line(lines, fields, &find.selector, &find.front)
}

/// The lines of finds that have one, in a row.
fn lines_of_finds(alloc: Global, front: &Address<'_>, finds: &[Find]) -> Result<Vec<u8>, AllocError>
    ensures lines { (s : Site) → front.now ≡ address s → All (IsFindOf s) finds.now → IfOk result (λ lines. lines.items ≡ flat_map (λ line. line) (filter_map (entry_line s) (locals (found_names finds.now)))) }
{
    let address = address_fields(alloc, front)?;
    let fields = address.as_slice();
    let mut lines = Vec::new(alloc);
    for find in finds {
        add_find_line(&mut lines, fields, find)?;
    }
    Ok(lines)
}

/// The menu of finds, behind its head where Gopher+ asked for it.
#[tactic(auto, unfolding(text_writer::specs::Menu::menu))]
fn finds_reply(
    alloc: Global,
    front: &Address<'_>,
    is_plus: bool,
    finds: &[Find],
) -> Result<Bytes, AllocError>
    ensures reply { (s : Site) → front.now ≡ address s → All (IsFindOf s) finds.now → IfOk result (λ reply. reply ≡ spec.menu_reply s is_plus (locals (found_names finds.now))) }
{
    let lines = lines_of_finds(alloc, front, finds)?;
    as_text(alloc, is_plus, ended_menu(lines)?)
}

/// The menu of what a search finds.
pub fn search_reply<S: SearchKeeper>(
    alloc: Global,
    site: &mut S,
    is_plus: bool,
    scope: &Selector,
    words: Option<&[u8]>,
    now: Stamp,
) -> Result<Bytes, SiteFault>
    ensures reply { ReadsSite S.site_state S.lacks S.crash_states site.old site.new result (λ s reply. reply ≡ spec.menu_reply (visible s now) is_plus (locals (search_of (visible s now) scope.now (spec.words_asked (option_copied words.entry))))) }
{
    let found = site.search(scope, words_asked(words), now)?;
    Ok(finds_reply(alloc, &site.front(), is_plus, found.as_slice())?)
}
