// What is to be made where an item is put or goes.
ghost use Rattle.std.specs.Prelude.{◌≡◌, ◌∷◌, [], IfOk, IfErr, ◌&&◌, ◌||◌, not, is_some};
ghost use Rattle.host_types.specs.Site.{Site};
ghost use Rattle.host_types.specs.Change.{put, remove, keeps_cap, is_empty, is_menu, touched};
ghost use Rattle.host_types.specs.declared.change.Change.TheVariants.{Put, Remove};
ghost use Rattle.change_plan.specs.Plans.{AreMade, IsPlanFault, UnlessFailed};
ghost use Rattle.change_plan.specs.Replacements.{AreFit};

use crate::board_posts::{board_in, has_posts};
use crate::{ItemLookup, Replacement};
use host_types::{Item, Refused, Selector, SiteFault, Stamp};
use std::alloc::{AllocError, Global};

/// One replacement alone.
fn one_alone(alloc: Global, replacement: Replacement) -> Result<Vec<Replacement>, AllocError>
    ensures { IfOk result (λ l. l.items ≡ replacement ∷ []) }
{
    let mut replacements = Vec::new(alloc);
    replacements.push(replacement)?;
    Ok(replacements)
}

/// Whether the new board has the cap of the old one.
fn keeps_cap(old: Option<(u16, u64)>, new: Option<(u16, u64)>) -> bool
    ensures { result ≡ keeps_cap old new }
{
    match (old, new) {
        (Some((old, _)), Some((new, _))) => old == new,
        _ => false,
    }
}

/// Whether the top menu would be no menu, or would expire.
fn is_bad_root(selector: &Selector, item: &Item) -> bool
    ensures { result ≡ (is_empty selector.now && (not (is_menu item.now.body) || is_some item.now.until)) }
{
    selector.as_bytes().is_empty() && (!item.body.is_menu() || item.until.is_some())
}

/// Whether a board with posts would go, or get another cap.
fn is_not_kept(has_posts: bool, old: Option<(u16, u64)>, new: Option<(u16, u64)>) -> bool
    ensures { result ≡ (has_posts && not (keeps_cap old new)) }
{
    has_posts && !keeps_cap(old, new)
}

/// Takes an item away.
#[tactic(auto, unfolding(host_types::specs::Change::remove))]
pub fn plan_remove<L: ItemLookup>(
    alloc: Global,
    lookup: &mut L,
    selector: Selector,
) -> Result<Vec<Replacement>, SiteFault>
    ensures plan { (s : Site) → L.shows lookup.old s → IfOk result (λ l. AreMade s (remove s selector) (touched s (Remove selector)) l.items) }
    ensures fit { IfOk result (λ l. AreFit L.fits l.items) }
    ensures reads_only { UnlessFailed result (L.reads_only lookup.old lookup.new) }
    ensures fault { IfErr result (IsPlanFault L.shows L.failed lookup.old lookup.new (λ s. remove s selector)) }
{
    if selector.as_bytes().is_empty() {
        return Err(SiteFault::Refused(Refused::Root));
    }
    let before = match lookup.item(&selector) {
        Ok(Some(before)) => before,
        Ok(None) => return Err(SiteFault::Refused(Refused::Missing)),
        Err(fault) => return Err(fault),
    };
    match has_posts(alloc, lookup, &selector, before.body.board()) {
        Ok(true) => Err(SiteFault::Refused(Refused::NotEmpty)),
        Ok(false) => Ok(one_alone(
            alloc,
            Replacement {
                selector,
                before: Some(before),
                after: None,
            },
        )?),
        Err(fault) => Err(fault),
    }
}

/// Puts an item.
#[tactic(auto, unfolding(host_types::specs::Change::put))]
pub fn plan_put<L: ItemLookup>(
    alloc: Global,
    lookup: &mut L,
    selector: Selector,
    item: Item,
    now: Stamp,
) -> Result<Vec<Replacement>, SiteFault>
    ensures plan { (s : Site) → L.shows lookup.old s → IfOk result (λ l. AreMade s (put s selector item now) (touched s (Put selector item)) l.items) }
    ensures fit { IfOk result (λ l. AreFit L.fits l.items) }
    ensures reads_only { UnlessFailed result (L.reads_only lookup.old lookup.new) }
    ensures fault { IfErr result (IsPlanFault L.shows L.failed lookup.old lookup.new (λ s. put s selector item now)) }
{
    if is_bad_root(&selector, &item) {
        return Err(SiteFault::Refused(Refused::Root));
    }
    if selector.is_reserved() || item.body.is_moved() {
        return Err(SiteFault::Refused(Refused::Reserved));
    }
    if item.body.is_bad() {
        return Err(SiteFault::Refused(Refused::BadName));
    }
    if item.is_long(&selector) {
        return Err(SiteFault::Refused(Refused::TooLong));
    }
    let before = match lookup.item(&selector) {
        Ok(before) => before,
        Err(fault) => return Err(fault),
    };
    let board = board_in(&before);
    let stand = match has_posts(alloc, lookup, &selector, board) {
        Ok(stand) => stand,
        Err(fault) => return Err(fault),
    };
    if is_not_kept(stand, board, item.body.board()) {
        return Err(SiteFault::Refused(Refused::NotEmpty));
    }
    let after = Some(item.put_over(board, now));
    Ok(one_alone(
        alloc,
        Replacement {
            selector,
            before,
            after,
        },
    )?)
}
