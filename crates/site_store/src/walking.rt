// The items of a site, one after another.
ghost use Rattle.std.specs.Prelude.{◌≡◌, Ok, Some, Option, IfOk, IfErr, IsSome, option_map};
ghost use Rattle.host_types.specs.Card.{card_of};
ghost use Rattle.host_types.specs.Site.{Site};
ghost use Rattle.page_store.specs.Work.{ReadsPages, pages_tried};
ghost use Rattle.site_store.specs.Represented.{RepresentedBy};
ghost use Rattle.site_store.specs.StoreReads.{IsQuickFault, StandsAt};
ghost use Rattle.site_store.specs.Reads.{AlwaysReads, AlwaysReadsKnown};
ghost use Rattle.site_store.specs.Walking as spec;
ghost use Rattle.site_store.specs.declared.fault.SiteOpenFault.TheVariants.{BadRecord};

use crate::SiteOpenFault;
use crate::cards::card_in;
use host_types::{Card, Selector};
use page_store::{Keeper, LONGEST_KEY, LONGEST_VALUE};
use site_records::item_key;
use std::alloc::Global;

/// The selector of which a key is that of the record; other keys are of none.
#[tactic(auto, using(crate::proofs::ItemWalks::refused_name))]
fn selector_in(key: &[u8]) -> Result<Option<Selector>, SiteOpenFault>
    ensures selector { IfOk result (λ found. found ≡ spec.recorded_by key.now) }
    ensures fault { IfErr result (λ e. (e ≡ BadRecord) × spec.IsInvalid (spec.recorded_by key.now)) }
{
    match key {
        [b'I', name @ ..] => match Selector::new(name) {
            Ok(selector) => Ok(Some(selector)),
            Err(_) => Err(SiteOpenFault::BadRecord),
        },
        _ => Ok(None),
    }
}

/// The selector of the first item above one.
pub fn selector_after<K: Keeper>(
    keeper: &mut K,
    after: &Selector,
) -> Result<Option<Selector>, SiteOpenFault>
    ensures next { AlwaysReads K.store_state K.may_need K.crash_states keeper.old keeper.new result IsQuickFault (λ h next. (s : Site) → RepresentedBy h s → next ≡ spec.selector_after s after.now) }
    ensures work { ReadsPages (pages_tried (K.store_state keeper.old).height) (K.store_state keeper.old).made (K.store_state keeper.new).made }
{
    let mut key = [0; LONGEST_KEY];
    let mut value = [0; LONGEST_VALUE];
    match keeper.next(item_key(after).as_bytes(), &mut key, &mut value) {
        Ok(Some((length, _))) => selector_in(&key[..length]),
        Ok(None) => Ok(None),
        Err(fault) => Err(SiteOpenFault::Keeper(fault)),
    }
}

/// What stands at a selector, with its card: an item is to stand there.
fn carded<K: Keeper>(
    alloc: Global,
    keeper: &mut K,
    selector: Selector,
) -> Result<Option<(Selector, Card)>, SiteOpenFault>
    ensures card { AlwaysReadsKnown K.store_state K.may_need K.crash_states keeper.old keeper.new result (StandsAt selector) (λ item found. found ≡ Some (selector, card_of item)) }
    ensures some { IfOk result (λ found. IsSome found) }
{
    match card_in(alloc, keeper, &selector) {
        Ok(Some(card)) => Ok(Some((selector, card))),
        Ok(None) => Err(SiteOpenFault::BadRecord),
        Err(fault) => Err(fault),
    }
}

/// The first item above a selector with its card; with no selector, the first of all.
pub fn next_in<K: Keeper>(
    alloc: Global,
    keeper: &mut K,
    after: Option<&Selector>,
) -> Result<Option<(Selector, Card)>, SiteOpenFault>
    ensures next { AlwaysReadsKnown K.store_state K.may_need K.crash_states keeper.old keeper.new result RepresentedBy (λ s next. next ≡ spec.card_after s (option_map (λ selector. selector.now) after.entry)) }
{
    match after {
        None => carded(alloc, keeper, Selector::root()),
        Some(after) => match selector_after(keeper, after) {
            Ok(Some(next)) => carded(alloc, keeper, next),
            Ok(None) => Ok(None),
            Err(fault) => Err(fault),
        },
    }
}
