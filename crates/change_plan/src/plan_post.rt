// What a post is to make.
ghost use Rattle.std.specs.Prelude.{◌≡◌, ◌<◌, ◌-◌, ◌^◌, ◌++◌, ◌∷◌, [], ℕ, List, Some, None, IfOk, IfErr, IfSome, length};
ghost use Rattle.host_types.specs.Site.{Site, item_at, board_of};
ghost use Rattle.host_types.specs.Change.{post, oldest_post, touched};
ghost use Rattle.host_types.specs.declared.change.Change.TheVariants.{Post};
ghost use Rattle.change_plan.specs.LookUps.{LooksUp};
ghost use Rattle.change_plan.specs.Plans.{AreMade, IsPosted, IsPlanFault, UnlessFailed};
ghost use Rattle.change_plan.specs.Replacements.{AreFit, removal_of};

use crate::{ItemLookup, Replacement};
use host_types::{Bytes, Item, MOST_POST_BYTES, Refused, Selector, SiteFault, Stamp, Title};
use std::alloc::{AllocError, Global};

/// The selector of the post that is pushed out by the post `next`.
fn oldest_post(
    alloc: Global,
    board: &Selector,
    cap: u16,
    next: u64,
) -> Result<Option<Selector>, SiteFault>
    ensures ok { IfOk result (λ o. o ≡ oldest_post board.now cap next) }
    ensures err { IfErr result (λ e. e ≡ SiteFault.Memory) }
{
    if next <= u64::from(cap) {
        return Ok(None);
    }
    match Selector::of_post(alloc, board, next - u64::from(cap))? {
        Some(selector) => Ok(Some(selector)),
        None => Err(SiteFault::Memory),
    }
}

/// What stands at a selector, if there is one.
fn item_at_any<L: ItemLookup>(
    lookup: &mut L,
    selector: &Option<Selector>,
) -> Result<Option<Item>, SiteFault>
    ensures item { LooksUp L.shows L.reads_only L.failed lookup.old lookup.new result (λ s o. (q : List ℕ) → selector.now ≡ Some q → o ≡ item_at s q) }
    ensures fits { IfOk result (λ o. IfSome o L.fits) }
{
    match selector {
        Some(selector) => lookup.item(selector),
        None => Ok(None),
    }
}

/// The post, its board, and the post that goes.
fn replacements_of(
    alloc: Global,
    first: Replacement,
    second: Replacement,
    oldest: Option<Selector>,
    gone: Option<Item>,
) -> Result<Vec<Replacement>, AllocError>
    ensures replacements { IfOk result (λ l. l.items ≡ (first ∷ second ∷ []) ++ removal_of oldest gone) }
{
    let mut replacements = Vec::new(alloc);
    replacements.push(first)?;
    replacements.push(second)?;
    if let Some(selector) = oldest {
        replacements.push(Replacement {
            selector,
            before: gone,
            after: None,
        })?;
    }
    Ok(replacements)
}

/// Stores a post on a board that stands, and lets the oldest go where the board is full.
fn post_on<L: ItemLookup>(
    alloc: Global,
    lookup: &mut L,
    board: Selector,
    item: Item,
    numbers: (u16, u64),
    posted: Item,
    now: Stamp,
) -> Result<Vec<Replacement>, SiteFault>
    requires numbers { board_of item.body ≡ Some numbers }
    requires next { numbers.1 < 2 ^ 64 - 1 }
    ensures plan { LooksUp L.shows L.reads_only L.failed lookup.old lookup.new result (λ s l. Some item ≡ item_at s board → IsPosted s board item numbers posted now l.items) }
    ensures fit { L.fits item → L.fits posted → IfOk result (λ l. AreFit L.fits l.items) }
{
    let (cap, next) = numbers;
    let Some(selector) = Selector::of_post(alloc, &board, next)? else {
        return Err(SiteFault::Memory);
    };
    let oldest = oldest_post(alloc, &board, cap, next)?;
    let stood = item.after_post(cap, next, now)?;
    let there = match lookup.item(&selector) {
        Ok(there) => there,
        Err(fault) => return Err(fault),
    };
    let gone = match item_at_any(lookup, &oldest) {
        Ok(gone) => gone,
        Err(fault) => return Err(fault),
    };
    let first = Replacement {
        selector,
        before: there,
        after: Some(posted),
    };
    let second = Replacement {
        selector: board,
        before: Some(item),
        after: Some(stood),
    };
    Ok(replacements_of(alloc, first, second, oldest, gone)?)
}

/// Stores a post, and lets the oldest go where the board is full.
#[tactic(auto, unfolding(host_types::specs::Change::post, host_types::specs::Change::most_post_bytes))]
pub fn plan_post<L: ItemLookup>(
    alloc: Global,
    lookup: &mut L,
    board: Selector,
    title: Title,
    text: Bytes,
    now: Stamp,
) -> Result<Vec<Replacement>, SiteFault>
    ensures plan { (s : Site) → L.shows lookup.old s → IfOk result (λ l. AreMade s (post s board title text now) (touched s (Post board title text)) l.items) }
    ensures fit { IfOk result (λ l. AreFit L.fits l.items) }
    ensures reads_only { UnlessFailed result (L.reads_only lookup.old lookup.new) }
    ensures fault { IfErr result (IsPlanFault L.shows L.failed lookup.old lookup.new (λ s. post s board title text now)) }
{
    if text.len() > MOST_POST_BYTES {
        return Err(SiteFault::Refused(Refused::TooLong));
    }
    let item = match lookup.item(&board) {
        Ok(Some(item)) => item,
        Ok(None) => return Err(SiteFault::Refused(Refused::NotABoard)),
        Err(fault) => return Err(fault),
    };
    let Some(numbers) = item.body.board() else {
        return Err(SiteFault::Refused(Refused::NotABoard));
    };
    if numbers.1 == u64::MAX {
        return Err(SiteFault::Refused(Refused::Spent));
    }
    let posted = match Item::text(alloc, title, now, text) {
        Ok(posted) => posted,
        Err(_) => return Err(SiteFault::Memory),
    };
    post_on(alloc, lookup, board, item, numbers, posted, now)
}
