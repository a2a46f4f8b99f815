// Writing what a change makes.
ghost use Rattle.std.specs.Prelude.{length, ◌≡◌, true, IfOk, IfErr, OnOk};
ghost use Rattle.page_store.specs.CommitCalls.{TakesBanner, CommitsBatch, FailsToCommit, CountsCommit, CommitCrashes};
ghost use Rattle.page_store.specs.StoreState.{last_generation};
ghost use Rattle.site_store.specs.Lacking.{MayNeedForEdits, IsToldSpent};
ghost use Rattle.site_store.specs.Planned.{banner_after, batch_by};
ghost use Rattle.site_pairs.specs.ShortReplacements.{AreShort};

use change_plan::{Plan, Replacement};
use page_store::{Banner, Keeper, KeeperFault};
use site_pairs::batch_of;
use std::alloc::{AllocError, Global};

/// The banner after a plan.
pub fn banner_after(old: &Banner, plan: &Plan) -> Result<Banner, AllocError>
    ensures { IfOk result (λ b. b ≡ banner_after old.now plan.now.host plan.now.admin) }
{
    let Banner {
        version,
        host,
        port,
        admin,
    } = old.clone()?;
    let (host, port) = match &plan.host {
        Some((host, port)) => (host.clone()?, *port),
        None => (host, port),
    };
    let admin = match &plan.admin {
        Some(admin) => admin.clone()?,
        None => admin,
    };
    Ok(Banner {
        version,
        host,
        port,
        admin,
    })
}

/// Makes some replacements, and sets the banner, in one step.
#[tactic(auto, using(crate::proofs::EditsMakeLayouts::is_batch_of))]
pub fn write_replacements<K: Keeper>(
    alloc: Global,
    keeper: &mut K,
    replacements: &[Replacement],
    banner: Banner,
) -> Result<(), KeeperFault>
    requires short { AreShort replacements.now }
    requires banner { TakesBanner K.holds_version banner }
    requires usable { (K.store_state keeper.old).usable ≡ true }
    ensures done { OnOk result (CommitsBatch (K.store_state keeper.old) (K.store_state keeper.new) (batch_by replacements.now) banner (MayNeedForEdits K.may_need keeper.old (batch_by replacements.now))) }
    ensures fault { IfErr result (FailsToCommit (K.store_state keeper.old) (K.store_state keeper.new) (length (batch_by replacements.now)) (MayNeedForEdits K.may_need keeper.old (batch_by replacements.now)) (K.may_need keeper.old) (K.may_need keeper.new)) }
    ensures spent { (K.store_state keeper.old).top ≡ last_generation → IsToldSpent result }
    ensures counts { CountsCommit (K.store_state keeper.old) (K.store_state keeper.new) (length (batch_by replacements.now)) result }
    ensures at_crash { CommitCrashes K.crash_states K.has_content K.store_state keeper.old keeper.new (batch_by replacements.now) banner result }
{
    match batch_of(alloc, replacements) {
        Ok(batch) => keeper.commit(&batch, banner),
        Err(_) => Err(KeeperFault::Memory),
    }
}
