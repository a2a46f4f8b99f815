// Entries of the menus that a site makes by itself.
ghost use Rattle.std.specs.Prelude.{◌≡◌, ◌∷◌, ◌++◌, [], filter, nat_le, length, OnOk, IfOk};
ghost use Rattle.host_types.specs.Site.{post_selector};
ghost use Rattle.site_replies.specs.Reply.{locals, post_names};

use host_types::{Entry, EntryList, Selector};
use std::alloc::{AllocError, Global};
use word_search::SelectorList;

/// The entries of items of this site.
pub fn locals(alloc: Global, selectors: &[Selector]) -> Result<EntryList, AllocError>
    ensures { IfOk result (λ entries. entries ≡ locals selectors.now) }
{
    let mut entries = EntryList::new(alloc);
    for selector in selectors {
        entries.push(Entry::Local(selector.clone()?))?;
    }
    Ok(entries)
}

/// Adds the selector of a post where it is a name.
fn add_post(
    alloc: Global,
    names: &mut SelectorList,
    board: &Selector,
    number: u64,
) -> Result<(), AllocError>
    ensures { OnOk result (names.new ≡ names.old ++ filter (λ name. nat_le (length name) 255) (post_selector board.now number ∷ [])) }
{
    if let Some(selector) = Selector::of_post(alloc, board, number)? {
        names.push(selector)?;
    }
    Ok(())
}

/// The posts of a board, newest first, whether they are there or not.
pub fn post_names(
    alloc: Global,
    board: &Selector,
    cap: u16,
    next: u64,
) -> Result<SelectorList, AllocError>
    ensures { IfOk result (λ names. names ≡ post_names board.now cap next) }
{
    let mut names = SelectorList::new(alloc);
    let mut number = next;
    for _ in 0..cap {
        if number <= 1 {
            return Ok(names);
        }
        number -= 1;
        add_post(alloc, &mut names, board, number)?;
    }
    Ok(names)
}
