// Searching a site by looking at each item, one after another.
ghost use Rattle.std.specs.Prelude.{◌≡◌};
ghost use Rattle.site_store.specs.Represented.{RepresentedBy};
ghost use Rattle.site_store.specs.StoreReads.{StandsAt};
ghost use Rattle.site_store.specs.Reads.{ReadsKnown};
ghost use Rattle.site_store.specs.FilterSearch as spec;
ghost use Rattle.word_search.specs.Gathered.{searched_at};
ghost use Rattle.word_search.specs.Finds.{finds_of};
ghost use Rattle.host_types.specs.Visible.{visible};
ghost use Rattle.host_types.specs.Words as words;

use crate::SiteOpenFault;
use crate::items::item_in;
use crate::walking::selector_after;
use host_types::{LineList, Selector, Stamp};
use page_store::Keeper;
use std::alloc::Global;
use word_search::{FindList, MOST_FOUND, look_at, words_in};

/// Looks at the item that is to stand at a selector: it is read where the selector begins with the scope.
#[tactic(auto, using(crate::proofs::FilterSearches::out_of_scope))]
fn look_in<K: Keeper>(
    alloc: Global,
    keeper: &mut K,
    found: &mut FindList,
    scope: &Selector,
    asked: &LineList,
    now: Stamp,
    selector: &Selector,
) -> Result<(), SiteOpenFault>
    ensures found { ReadsKnown K.store_state K.may_need K.crash_states keeper.old keeper.new result (StandsAt selector.now) (λ item _. found.new ≡ searched_at now scope.now asked.now found.old (selector.now, item)) }
{
    if !selector.as_bytes().starts_with(scope.as_bytes()) {
        return Ok(());
    }
    match item_in(alloc, keeper, selector) {
        Ok(Some(item)) => {
            look_at(alloc, found, scope, asked, now, (selector, &item))?;
            Ok(())
        }
        Ok(None) => Err(SiteOpenFault::BadRecord),
        Err(fault) => Err(fault),
    }
}

/// Looks at an item and goes on to the next; false where all that is to be found is found.
fn step<K: Keeper>(
    alloc: Global,
    keeper: &mut K,
    found: &mut FindList,
    scope: &Selector,
    asked: &LineList,
    now: Stamp,
    selector: &mut Selector,
) -> Result<bool, SiteOpenFault>
    ensures further { ReadsKnown K.store_state K.may_need K.crash_states keeper.old keeper.new result (λ h s. RepresentedBy h s × spec.IsLeftToFilter now s scope.now asked.now found.old selector.old) (λ s more. spec.IsFilteredFurther now s scope.now asked.now more found.new selector.new) }
{
    match look_in(alloc, keeper, found, scope, asked, now, selector) {
        Ok(()) => {}
        Err(fault) => return Err(fault),
    }
    if found.as_slice().len() >= MOST_FOUND {
        return Ok(false);
    }
    match selector_after(keeper, selector) {
        Ok(Some(next)) => {
            *selector = next;
            Ok(true)
        }
        Ok(None) => Ok(false),
        Err(fault) => Err(fault),
    }
}

/// Looks at all items from the first on, until enough are found.
fn search_in<K: Keeper>(
    alloc: Global,
    keeper: &mut K,
    scope: &Selector,
    asked: &LineList,
    now: Stamp,
) -> Result<FindList, SiteOpenFault>
    ensures found { ReadsKnown K.store_state K.may_need K.crash_states keeper.old keeper.new result RepresentedBy (λ s found. found ≡ spec.all_found now s scope.now asked.now) }
{
    let mut found = FindList::new(alloc);
    let mut selector = Selector::root();
    for _ in 0..u64::MAX {
        match step(alloc, keeper, &mut found, scope, asked, now, &mut selector) {
            Ok(true) => {}
            Ok(false) => return Ok(found),
            Err(fault) => return Err(fault),
        }
    }
    // No device that can be had holds so many items.
    Err(SiteOpenFault::Memory)
}

/// The first items of a site that are found, by looking at each item within the scope: to compare with the search over the keys of words.
pub fn search_by_filter<K: Keeper>(
    alloc: Global,
    keeper: &mut K,
    scope: &Selector,
    query: &[u8],
    now: Stamp,
) -> Result<FindList, SiteOpenFault>
    ensures found { ReadsKnown K.store_state K.may_need K.crash_states keeper.old keeper.new result RepresentedBy (λ s found. found ≡ finds_of (visible s now) scope.now query.now) }
{
    let asked = words_in(alloc, query)?;
    search_in(alloc, keeper, scope, &asked, now)
}
