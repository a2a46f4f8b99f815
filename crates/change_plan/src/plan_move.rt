// What a move is to make.
ghost use Rattle.std.specs.Prelude.{◌≡◌, ◌&&◌, ◌||◌, ◌∷◌, [], Some, IfOk, IfErr, is_some, nat_lt, bytes_eq, length};
ghost use Rattle.host_types.specs.Names.{is_reserved};
ghost use Rattle.host_types.specs.Site.{Site, item_at, board_of, has_posts};
ghost use Rattle.host_types.specs.Change.{move_to, moved_item, is_empty, touched};
ghost use Rattle.host_types.specs.declared.change.Change.TheVariants.{Move};
ghost use Rattle.change_plan.specs.LookUps.{LooksUp};
ghost use Rattle.change_plan.specs.Plans.{AreMade, IsPlanFault, UnlessFailed};
ghost use Rattle.change_plan.specs.Replacements.{AreFit};

use crate::board_posts::{board_in, has_posts};
use crate::{ItemLookup, Replacement};
use host_types::{Item, Refused, Selector, SiteFault, Stamp};
use std::alloc::{AllocError, Global};

/// The item stands at the new selector, and a note of where it went at the old one.
fn move_of(
    alloc: Global,
    from: Selector,
    to: Selector,
    item: Item,
    there: Option<Item>,
    now: Stamp,
) -> Result<Vec<Replacement>, AllocError>
    ensures replacements { IfOk result (λ l. l.items ≡ (record { selector = to; before = there; after = Some item }) ∷ (record { selector = from; before = Some item; after = Some (moved_item item to now) }) ∷ []) }
{
    let copy = item.clone()?;
    let note = item.moved(alloc, &to, now)?;
    let mut replacements = Vec::new(alloc);
    replacements.push(Replacement {
        selector: to,
        before: there,
        after: Some(copy),
    })?;
    replacements.push(Replacement {
        selector: from,
        before: Some(item),
        after: Some(note),
    })?;
    Ok(replacements)
}

/// Whether one of them is the top menu's.
fn is_root(from: &Selector, to: &Selector) -> bool
    ensures { result ≡ (is_empty from.now || is_empty to.now) }
{
    from.as_bytes().is_empty() || to.as_bytes().is_empty()
}

fn is_reserved(from: &Selector, to: &Selector) -> bool
    ensures { result ≡ (is_reserved from.now || is_reserved to.now) }
{
    from.is_reserved() || to.is_reserved()
}

fn is_same(from: &Selector, to: &Selector) -> bool
    ensures { result ≡ bytes_eq from.now to.now }
{
    from == to
}

/// Whether a board's posts would have no names at the new selector.
fn is_too_long(item: &Item, to: &Selector) -> bool
    ensures { result ≡ (is_some (board_of item.now.body) && nat_lt 229 (length to.now)) }
{
    item.body.board().is_some() && to.as_bytes().len() > 229
}

/// Whether a board with posts stands at either, of which the items are known.
fn have_posts<L: ItemLookup>(
    alloc: Global,
    lookup: &mut L,
    from: &Selector,
    item: &Item,
    to: &Selector,
    there: &Option<Item>,
) -> Result<bool, SiteFault>
    ensures posts { LooksUp L.shows L.reads_only L.failed lookup.old lookup.new result (λ s posts. Some item.now ≡ item_at s from.now → there.now ≡ item_at s to.now → posts ≡ (has_posts s from.now || has_posts s to.now)) }
{
    match has_posts(alloc, lookup, from, item.body.board()) {
        Ok(true) => Ok(true),
        Ok(false) => has_posts(alloc, lookup, to, board_in(there)),
        Err(fault) => Err(fault),
    }
}

/// Moves an item, and leaves a note of where it went.
#[tactic(auto, unfolding(host_types::specs::Change::move_to))]
pub fn plan_move<L: ItemLookup>(
    alloc: Global,
    lookup: &mut L,
    from: Selector,
    to: Selector,
    now: Stamp,
) -> Result<Vec<Replacement>, SiteFault>
    ensures plan { (s : Site) → L.shows lookup.old s → IfOk result (λ l. AreMade s (move_to s from to now) (touched s (Move from to)) l.items) }
    ensures fit { IfOk result (λ l. AreFit L.fits l.items) }
    ensures reads_only { UnlessFailed result (L.reads_only lookup.old lookup.new) }
    ensures fault { IfErr result (IsPlanFault L.shows L.failed lookup.old lookup.new (λ s. move_to s from to now)) }
{
    if is_root(&from, &to) {
        return Err(SiteFault::Refused(Refused::Root));
    }
    if is_reserved(&from, &to) {
        return Err(SiteFault::Refused(Refused::Reserved));
    }
    if is_same(&from, &to) {
        return Err(SiteFault::Refused(Refused::BadName));
    }
    let item = match lookup.item(&from) {
        Ok(Some(item)) => item,
        Ok(None) => return Err(SiteFault::Refused(Refused::Missing)),
        Err(fault) => return Err(fault),
    };
    if item.body.is_moved() {
        return Err(SiteFault::Refused(Refused::Missing));
    }
    if is_too_long(&item, &to) {
        return Err(SiteFault::Refused(Refused::TooLong));
    }
    let there = match lookup.item(&to) {
        Ok(there) => there,
        Err(fault) => return Err(fault),
    };
    match have_posts(alloc, lookup, &from, &item, &to, &there) {
        Ok(true) => Err(SiteFault::Refused(Refused::NotEmpty)),
        Ok(false) => Ok(move_of(alloc, from, to, item, there, now)?),
        Err(fault) => Err(fault),
    }
}
