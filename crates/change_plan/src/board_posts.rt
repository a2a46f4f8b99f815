// Which posts a board has.
ghost use Rattle.std.specs.Prelude.{◌≡◌, is_some};
ghost use Rattle.host_types.specs.Site.{Site, item_at, post_selector, posts_of, has_any, board_at, board_in, has_posts};
ghost use Rattle.change_plan.specs.LookUps.{LooksUp};

use crate::ItemLookup;
use host_types::{Item, Selector, SiteFault};
use std::alloc::Global;

/// Whether the board's post of this number is there.
fn has_post<L: ItemLookup>(
    alloc: Global,
    lookup: &mut L,
    board: &Selector,
    number: u64,
) -> Result<bool, SiteFault>
    ensures there { LooksUp L.shows L.reads_only L.failed lookup.old lookup.new result (λ s there. there ≡ is_some (item_at s (post_selector board.now number))) }
{
    match Selector::of_post(alloc, board, number) {
        Ok(Some(selector)) => lookup.has_item(&selector),
        Ok(None) => Ok(false),
        Err(_) => Err(SiteFault::Memory),
    }
}

/// Whether one of the last `cap` posts below `next` is there.
fn has_some_post<L: ItemLookup>(
    alloc: Global,
    lookup: &mut L,
    board: &Selector,
    cap: u16,
    next: u64,
) -> Result<bool, SiteFault>
    ensures there { LooksUp L.shows L.reads_only L.failed lookup.old lookup.new result (λ s there. there ≡ has_any (posts_of s board.now (cap, next))) }
{
    let mut number = next;
    for _ in 0..cap {
        if number <= 1 {
            return Ok(false);
        }
        number -= 1;
        match has_post(alloc, lookup, board, number) {
            Ok(true) => return Ok(true),
            Ok(false) => {}
            Err(fault) => return Err(fault),
        }
    }
    Ok(false)
}

/// How many posts the board that stands somewhere keeps, and the number of the next.
pub fn board_in(item: &Option<Item>) -> Option<(u16, u64)>
    ensures { result ≡ board_in item.now }
{
    match item {
        Some(item) => item.body.board(),
        None => None,
    }
}

/// Whether a board with posts stands at a selector, of which the board is known.
pub fn has_posts<L: ItemLookup>(
    alloc: Global,
    lookup: &mut L,
    selector: &Selector,
    board: Option<(u16, u64)>,
) -> Result<bool, SiteFault>
    ensures there { LooksUp L.shows L.reads_only L.failed lookup.old lookup.new result (λ s there. board ≡ board_at s selector.now → there ≡ has_posts s selector.now) }
{
    match board {
        Some((cap, next)) => has_some_post(alloc, lookup, selector, cap, next),
        None => Ok(false),
    }
}
