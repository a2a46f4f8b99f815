// What a change is to make.
ghost use Rattle.std.specs.Prelude.{◌≡◌, ◌<◌, [], Some, None, Ok, Err, IfOk, IfErr, IfSome};
ghost use Rattle.host_types.specs.Site.{Site};
ghost use Rattle.host_types.specs.Change.{apply};
ghost use Rattle.common_types.specs.declared.refused.Refused.TheVariants.{BadName};
ghost use Rattle.host_types.specs.declared.site_fault.SiteFault.TheVariants.{Refused as Refusal};
ghost use Rattle.change_plan.specs.Plans.{IsPlan, IsPlanFault, UnlessFailed};
ghost use Rattle.change_plan.specs.Replacements.{AreFit};

use crate::plan_move::plan_move;
use crate::plan_post::plan_post;
use crate::plan_put::{plan_put, plan_remove};
use crate::{ItemLookup, Replacement};
use host_types::{Admin, Change, Host, Refused, SiteFault, Stamp};
use std::alloc::Global;

/// What a change is to make of a site.
#[derive(Debug, Drop)]
pub struct Plan {
    /// One after another. Only the first may put an item where none stands.
    pub replacements: Vec<Replacement>,
    /// The host and the port under which clients find the site from now on, where they are set.
    pub host: Option<(Host, u16)>,
    /// Who keeps the site from now on, where that is set.
    pub admin: Option<Admin>,
}

/// The plan that replaces items and sets no name, where the replacements are found.
fn of_items(found: Result<Vec<Replacement>, SiteFault>) -> Result<Plan, SiteFault>
    ensures items { IfOk result (λ p. found ≡ Ok p.replacements) }
    ensures host { IfOk result (λ p. p.host ≡ None) }
    ensures admin { IfOk result (λ p. p.admin ≡ None) }
    ensures fault { IfErr result (λ fault. found ≡ Err fault) }
{
    match found {
        Ok(replacements) => Ok(Plan {
            replacements,
            host: None,
            admin: None,
        }),
        Err(fault) => Err(fault),
    }
}

/// The plan that sets host and port.
fn plan_host(alloc: Global, host: Host, port: u16) -> Result<Plan, SiteFault>
    ensures plan { IfOk result (λ p. (p.replacements.items ≡ []) × (p.host ≡ Some (host, port)) × (p.admin ≡ None)) }
    ensures port { IfOk result (λ p. 0 < port) }
    ensures fault { IfErr result (λ fault. (fault ≡ Refusal BadName) × (port ≡ 0)) }
{
    if port == 0 {
        return Err(SiteFault::Refused(Refused::BadName));
    }
    Ok(Plan {
        replacements: Vec::new(alloc),
        host: Some((host, port)),
        admin: None,
    })
}

/// The plan that sets who keeps the site.
fn plan_admin(alloc: Global, admin: Admin) -> Plan
    ensures { (result.replacements.items ≡ []) × (result.host ≡ None) × (result.admin ≡ Some admin) }
{
    Plan {
        replacements: Vec::new(alloc),
        host: None,
        admin: Some(admin),
    }
}

/// What a change is to make, or its first refusal.
pub fn plan_change<L: ItemLookup>(
    alloc: Global,
    lookup: &mut L,
    change: Change,
    now: Stamp,
) -> Result<Plan, SiteFault>
    ensures plan { (s : Site) → L.shows lookup.old s → IfOk result (IsPlan s change now) }
    ensures fit { IfOk result (λ p. AreFit L.fits p.replacements.items) }
    ensures port { IfOk result (λ p. IfSome p.host (λ name. 0 < name.1)) }
    ensures reads_only { UnlessFailed result (L.reads_only lookup.old lookup.new) }
    ensures fault { IfErr result (IsPlanFault L.shows L.failed lookup.old lookup.new (λ s. apply s change now)) }
{
    match change {
        Change::Put(selector, item) => of_items(plan_put(alloc, lookup, selector, item, now)),
        Change::Remove(selector) => of_items(plan_remove(alloc, lookup, selector)),
        Change::Move { from, to } => of_items(plan_move(alloc, lookup, from, to, now)),
        Change::Post { board, title, text } => {
            of_items(plan_post(alloc, lookup, board, title, text, now))
        }
        Change::SetHost { host, port } => plan_host(alloc, host, port),
        Change::SetAdmin(admin) => Ok(plan_admin(alloc, admin)),
    }
}
