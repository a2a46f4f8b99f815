// What several changes are to make.
ghost use Rattle.std.specs.Prelude.{◌≡◌, ◌<◌, ◌++◌, [], None, IfOk, IfErr, IfSome};
ghost use Rattle.host_types.specs.Site.{Site};
ghost use Rattle.host_types.specs.Change.{apply};
ghost use Rattle.host_types.specs.ChangesFaults.{as_one};
ghost use Rattle.change_plan.specs.Plans.{planned, IsPlan, IsPlanFault, UnlessFailed, set_last};
ghost use Rattle.change_plan.specs.AllPlans.{ShowsValid, ShowsAhead, IsPlanOfAll, IsPlanOfAllFault};
ghost use Rattle.change_plan.specs.Replacements.{AreFit};

use crate::ahead::Ahead;
use crate::plan::{Plan, plan_change};
use crate::{ItemLookup, Replacement};
use host_types::{Change, ChangesFault, SiteFault, Stamp, changes_keep_sites_valid};
use std::alloc::{AllocError, Global};

/// Nothing is to be made.
fn nothing_planned(alloc: Global) -> Plan
    ensures { (result.replacements.items ≡ []) × (result.host ≡ None) × (result.admin ≡ None) }
{
    Plan {
        replacements: Vec::new(alloc),
        host: None,
        admin: None,
    }
}

/// Some replacements, and others behind them.
fn behind(first: Vec<Replacement>, others: Vec<Replacement>) -> Result<Vec<Replacement>, AllocError>
    ensures { IfOk result (λ all. all.items ≡ first.items ++ others.items) }
{
    let mut all = first;
    let mut rest = others;
    all.append(&mut rest)?;
    Ok(all)
}

/// The value that is set last.
fn set_last<T: Drop>(old: Option<T>, new: Option<T>) -> Option<T>
    ensures { result ≡ set_last old new }
{
    match new {
        Some(new) => Some(new),
        None => old,
    }
}

/// One plan, and then another.
fn both_planned(first: Plan, next: Plan) -> Result<Plan, AllocError>
    ensures replacements { IfOk result (λ p. p.replacements.items ≡ first.replacements.items ++ next.replacements.items) }
    ensures host { IfOk result (λ p. p.host ≡ set_last first.host next.host) }
    ensures admin { IfOk result (λ p. p.admin ≡ set_last first.admin next.admin) }
{
    Ok(Plan {
        replacements: behind(first.replacements, next.replacements)?,
        host: set_last(first.host, next.host),
        admin: set_last(first.admin, next.admin),
    })
}

/// What a change is to make of the site as it will stand once a plan is made.
fn plan_ahead<L: ItemLookup>(
    alloc: Global,
    lookup: &mut L,
    plan: &Plan,
    change: Change,
    now: Stamp,
) -> Result<Plan, SiteFault>
    requires { AreFit L.fits plan.now.replacements.items }
    ensures plan { (t : Site) → ShowsAhead L.shows lookup.old plan.now t → IfOk result (IsPlan t change now) }
    ensures fit { IfOk result (λ p. AreFit L.fits p.replacements.items) }
    ensures port { IfOk result (λ p. IfSome p.host (λ name. 0 < name.1)) }
    ensures reads_only { UnlessFailed result (L.reads_only lookup.old lookup.new) }
    ensures fault { IfErr result (IsPlanFault (λ l t. ShowsAhead L.shows l plan.now t) L.failed lookup.old lookup.new (λ t. apply t change now)) }
{
    let mut ahead = Ahead { lookup, plan };
    plan_change(alloc, &mut ahead, change, now)
}

/// What several changes are to make, each at its own moment on the site with those before it, or the first that is refused.
pub fn plan_all<L: ItemLookup>(
    alloc: Global,
    lookup: &mut L,
    changes: Vec<(Change, Stamp)>,
) -> Result<Plan, ChangesFault>
    ensures plan { (s : Site) → ShowsValid L.shows lookup.old s → IfOk result (IsPlanOfAll s changes.items) }
    ensures fit { IfOk result (λ p. AreFit L.fits p.replacements.items) }
    ensures port { IfOk result (λ p. IfSome p.host (λ name. 0 < name.1)) }
    ensures reads_only { UnlessFailed (as_one result) (L.reads_only lookup.old lookup.new) }
    ensures fault { IfErr result (IsPlanOfAllFault L.shows L.failed lookup.old lookup.new changes.items) }
{
    changes_keep_sites_valid();
    let mut plan = nothing_planned(alloc);
    let mut place = 0;
    let mut rest = changes;
    while !rest.is_empty() {
        let (change, now) = rest.remove(0);
        change.valid_names();
        let _ = now.seconds();
        let next = match plan_ahead(alloc, lookup, &plan, change, now) {
            Ok(next) => next,
            Err(fault) => return Err(ChangesFault::at(place, fault)),
        };
        plan = both_planned(plan, next)?;
        place += 1;
    }
    Ok(plan)
}
