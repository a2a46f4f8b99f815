// A site in memory is searched by looking at each item.
ghost use Rattle.std.specs.Prelude.{◌≡◌, IfOk, IsTrue, map, filter, take};
ghost use Rattle.host_types.specs.CrashStates.{no_new_crash_state, nothing};
ghost use Rattle.host_types.specs.Visible.{is_fresh, visible};
ghost use Rattle.word_search.specs.Finds.{find_of, finds_of};
ghost use Rattle.word_search.specs.Search as spec;

use crate::MemSite;
use host_types::{Item, LineList, Selector, SiteFault, Stamp};
use std::alloc::{AllocError, Global};
use word_search::{FindList, SearchKeeper, look_at, words_in};

/// The items of a site, in byte order of their selectors.
fn entries(alloc: Global, site: &MemSite) -> Result<Vec<(&Selector, &Item)>, AllocError>
    ensures { IfOk result (λ all. map (λ e. (e.0.now, e.1.now)) all.items ≡ site.now.items) }
{
    site.items().iter().collect(alloc)
}

/// The first of these items that are found.
#[tactic(auto, using(crate::proofs::FoundEntries::found_all))]
fn search_in(
    alloc: Global,
    entries: &[(&Selector, &Item)],
    scope: &Selector,
    asked: &LineList,
    now: Stamp,
) -> Result<FindList, AllocError>
    ensures { IfOk result (λ found. found ≡ map find_of (take 100 (filter (spec.is_found scope.now asked.now) (filter (is_fresh now) (map (λ e. (e.0.now, e.1.now)) entries.now))))) }
{
    let mut found = FindList::new(alloc);
    for entry in entries {
        look_at(alloc, &mut found, scope, asked, now, *entry)?;
    }
    Ok(found)
}

/// The first items of a site that are found.
#[tactic(auto, using(crate::proofs::FoundEntries::search_at), unfolding(word_search::specs::Search::search_of))]
fn search_all(
    alloc: Global,
    site: &MemSite,
    scope: &Selector,
    query: &[u8],
    now: Stamp,
) -> Result<FindList, AllocError>
    ensures { IfOk result (λ found. found ≡ finds_of (visible site.now now) scope.now query.now) }
{
    let asked = words_in(alloc, query)?;
    let entries = entries(alloc, site)?;
    site.in_order();
    search_in(alloc, &entries, scope, &asked, now)
}

impl SearchKeeper for MemSite {
    fn search(
        &mut self,
        scope: &Selector,
        query: &[u8],
        now: Stamp,
    ) -> Result<FindList, SiteFault> {
        let alloc = self.alloc();
        Ok(search_all(alloc, self, scope, query, now)?)
    }
}
