// The posts of a board.
ghost use Rattle.std.specs.Prelude.{◌≡◌, ◌++◌, ◌∷◌, [], flat_map, filter, nat_le, length, OnOk, IfOk};
ghost use Rattle.host_types.specs.Site.{post_selector};
ghost use Rattle.site_replies.specs.Reads.{ReadsSite};
ghost use Rattle.image_items.specs.Documents.{bytes_in};
ghost use Rattle.image_items.specs.Posts as spec;

use crate::ItemFault;
use host_types::{CardBody, Selector, SiteFault, SiteKeeper};
use image_commands::list_item;
use std::alloc::{AllocError, Global};

/// Adds the name of a post, where it is one.
fn add_name(
    alloc: Global,
    names: &mut Vec<Selector>,
    board: &Selector,
    number: u64,
) -> Result<(), AllocError>
    ensures { OnOk result (names.new.items ≡ names.old.items ++ filter (λ name. nat_le (length name) 255) (post_selector board.now number ∷ [])) }
{
    if let Some(name) = Selector::of_post(alloc, board, number)? {
        names.push(name)?;
    }
    Ok(())
}

/// The names of the posts that a board may have, newest last.
fn names_of_posts(
    alloc: Global,
    board: &Selector,
    cap: u16,
    next: u64,
) -> Result<Vec<Selector>, AllocError>
    ensures { IfOk result (λ names. names.items ≡ spec.names_of_posts board.now cap next) }
{
    let mut names = Vec::new(alloc);
    let first = next.saturating_sub(u64::from(cap)).max(1);
    for number in first..next {
        add_name(alloc, &mut names, board, number)?;
    }
    Ok(names)
}

/// Adds the line of what stands at a selector, where something does.
fn add_line<S: SiteKeeper>(
    alloc: Global,
    site: &mut S,
    text: &mut Vec<u8>,
    selector: &Selector,
) -> Result<(), SiteFault>
    ensures { ReadsSite S.site_state S.lacks S.crash_states site.old site.new result (λ s _. text.new.items ≡ text.old.items ++ spec.line_at s selector.now) }
{
    if let Some(card) = site.card(selector)? {
        list_item(alloc, text, selector, &card)?;
    }
    Ok(())
}

/// The lines of what stands at these selectors.
fn lines_of<S: SiteKeeper>(
    alloc: Global,
    site: &mut S,
    selectors: &[Selector],
) -> Result<Vec<u8>, SiteFault>
    ensures { ReadsSite S.site_state S.lacks S.crash_states site.old site.new result (λ s text. text.items ≡ flat_map (spec.line_at s) selectors.now) }
{
    let mut text = Vec::new(alloc);
    for selector in selectors {
        add_line(alloc, site, &mut text, selector)?;
    }
    Ok(text)
}

/// The lines of the posts of a board, of those that are there, newest last; or why there are none.
pub fn board_posts<S: SiteKeeper>(
    alloc: Global,
    site: &mut S,
    board: &Selector,
) -> Result<Result<Vec<u8>, ItemFault>, SiteFault>
    ensures { ReadsSite S.site_state S.lacks S.crash_states site.old site.new result (λ s found. bytes_in (λ text. text.items) found ≡ spec.posts_at s board.now) }
{
    let Some(card) = site.card(board)? else {
        return Ok(Err(ItemFault::NotFound));
    };
    let CardBody::Board { cap, next } = card.body else {
        return Ok(Err(ItemFault::NoBoard));
    };
    let names = names_of_posts(alloc, board, cap, next)?;
    Ok(Ok(lines_of(alloc, site, &names)?))
}
