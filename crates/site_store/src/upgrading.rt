// A site of version 1 is written as one of version 2.
ghost use Rattle.std.specs.Prelude.{◌≡◌, ◌<◌, ◌≤◌, ◌++◌, ◌∷◌, [], true, false, length, Ok, Err, IfOk, IfErr, IfSome, OnOk, IsTrue, option_to_list};
ghost use Rattle.std.specs.List.{list_all};
ghost use Rattle.page_store.specs.Sizes.{longest_key, longest_value};
ghost use Rattle.host_types.specs.CrashStates.{AddsOnly, AddsNone};
ghost use Rattle.host_types.specs.Site.{Site};
ghost use Rattle.page_store.specs.StoreState.{numbers_out};
ghost use Rattle.page_store.specs.Batch.{is_edit, is_batch};
ghost use Rattle.page_store.specs.declared.fault.KeeperFault.TheVariants.{Failed};
ghost use Rattle.site_pairs.specs.Edits.{batch_of};
ghost use Rattle.site_records.specs.Layout as layouts;
ghost use Rattle.site_store.specs.Opening.{ValuesFit, KeysFit};
ghost use Rattle.site_store.specs.Reads.{AlwaysReads};
ghost use Rattle.site_store.specs.Upgrading.{IsRaised, IsRaisedPair, AreRaised, IsNotRaised, ShowsFirst, FirstBy, RepresentsEitherVersion, IsUpgradeOf, IsFirstReadFault, IsFirstWhole, IsUpgraded, IsNotUpgraded, UpgradeCrashes, handed_back};
ghost use Rattle.site_store.specs.Upgrading as spec;
ghost use Rattle.site_store.specs.declared.fault.SiteOpenFault.TheVariants.{Keeper as StoreFault};

use crate::opening::{VERSION, check_pairs, pairs_of};
use crate::{DiskSite, SiteOpenFault};
use host_types::Bytes;
use page_store::{Banner, Edit, Keeper, KeeperFault, Pair};
use site_records::{RecordFault, read_record_v1};
use std::alloc::{AllocError, Global};

/// The version of images whose items never expire.
const FIRST_VERSION: u16 = 1;

/// A record of version 1 in the bytes of version 2.
fn raised_record(alloc: Global, bytes: &[u8]) -> Result<Bytes, SiteOpenFault>
    ensures raised { IfOk result (IsRaised bytes.now) }
    ensures fits { IfOk result (λ value. length value ≤ longest_value) }
    ensures fault { IfErr result (IsNotRaised (IsRaised bytes.now)) }
{
    match read_record_v1(alloc, bytes) {
        Ok(record) => Ok(record.to_bytes(alloc)?),
        Err(RecordFault::BadRecord) => Err(SiteOpenFault::BadRecord),
        Err(RecordFault::Memory) => Err(SiteOpenFault::Memory),
    }
}

/// Whether a key is that of a record.
fn is_record_key(key: &[u8]) -> bool
    ensures { result ≡ layouts.is_record_key key.now }
{
    matches!(key, [b'I', ..])
}

/// A pair in version 2: a record is raised, any other value stays.
fn raised_pair(alloc: Global, pair: &Pair) -> Result<Pair, SiteOpenFault>
    requires key { length pair.now.0 ≤ longest_key }
    requires value { length pair.now.1 ≤ longest_value }
    ensures raised { IfOk result (IsRaisedPair pair.now) }
    ensures key { IfOk result (λ p. length p.0 ≤ longest_key) }
    ensures value { IfOk result (λ p. length p.1 ≤ longest_value) }
    ensures fault { IfErr result (IsNotRaised (IsRaisedPair pair.now)) }
{
    if !is_record_key(pair.key()) {
        return Ok(pair.clone()?);
    }
    let value = raised_record(alloc, pair.value())?;
    let key = Bytes::from_slice(alloc, pair.key())?;
    Ok(Pair::new(key, value))
}

/// The pairs of version 2 by those of version 1.
fn raised_pairs(alloc: Global, pairs: &[Pair]) -> Result<Vec<Pair>, SiteOpenFault>
    requires keys { KeysFit pairs.now }
    requires values { ValuesFit pairs.now }
    ensures raised { IfOk result (λ all. AreRaised pairs.now all.items) }
    ensures keys { IfOk result (λ all. KeysFit all.items) }
    ensures values { IfOk result (λ all. ValuesFit all.items) }
    ensures fault { IfErr result (IsNotRaised (AreRaised pairs.now)) }
{
    let mut all = Vec::new(alloc);
    for pair in pairs {
        all.push(raised_pair(alloc, pair)?)?;
    }
    Ok(all)
}

/// The same, once those of version 1 are let go.
fn all_raised(alloc: Global, pairs: Vec<Pair>) -> Result<Vec<Pair>, SiteOpenFault>
    requires keys { KeysFit pairs.items }
    requires values { ValuesFit pairs.items }
    ensures raised { IfOk result (λ all. AreRaised pairs.items all.items) }
    ensures keys { IfOk result (λ all. KeysFit all.items) }
    ensures values { IfOk result (λ all. ValuesFit all.items) }
    ensures fault { IfErr result (IsNotRaised (AreRaised pairs.items)) }
{
    raised_pairs(alloc, &pairs)
}

/// The edit that brings a pair, where it is a record's.
#[tactic(auto, using(crate::proofs::Upgrades::record_key_long), unfolding(page_store::specs::Batch::is_value))]
fn record_edit(alloc: Global, pair: &Pair) -> Result<Option<Edit>, AllocError>
    requires key { length pair.now.0 ≤ longest_key }
    requires value { length pair.now.1 ≤ longest_value }
    ensures edit { IfOk result (λ edit. option_to_list edit ≡ batch_of (spec.record_edits (pair.now ∷ []))) }
    ensures sizes { IfOk result (λ edit. IfSome edit (λ e. IsTrue (is_edit e))) }
{
    if !is_record_key(pair.key()) {
        return Ok(None);
    }
    Ok(Some(Edit {
        key: Bytes::from_slice(alloc, pair.key())?,
        value: Some(Bytes::from_slice(alloc, pair.value())?),
    }))
}

/// Adds an edit, where there is one.
fn add_any(batch: &mut Vec<Edit>, edit: Option<Edit>) -> Result<(), AllocError>
    ensures { OnOk result (batch.new.items ≡ batch.old.items ++ option_to_list edit) }
{
    if let Some(edit) = edit {
        batch.push(edit)?;
    }
    Ok(())
}

/// The edits that bring the records among some pairs.
fn record_edits(alloc: Global, pairs: &[Pair]) -> Result<Vec<Edit>, AllocError>
    requires keys { KeysFit pairs.now }
    requires values { ValuesFit pairs.now }
    ensures edits { IfOk result (λ batch. batch.items ≡ batch_of (spec.record_edits pairs.now)) }
    ensures sizes { IfOk result (λ batch. IsTrue (list_all is_edit batch.items)) }
{
    let mut batch = Vec::new(alloc);
    for pair in pairs {
        let edit = record_edit(alloc, pair)?;
        add_any(&mut batch, edit)?;
    }
    Ok(batch)
}

/// The banner of the same site in version 2.
fn raised_banner(banner: &Banner) -> Result<Banner, AllocError>
    ensures { IfOk result (λ b. b ≡ spec.raised_banner banner.now) }
{
    let mut raised = banner.clone()?;
    raised.version = VERSION;
    Ok(raised)
}

/// The batch that makes the layout of a site of its pairs and its banner in version 1.
fn batch_for(alloc: Global, banner: &Banner, pairs: Vec<Pair>) -> Result<Vec<Edit>, SiteOpenFault>
    requires keys { KeysFit pairs.items }
    requires values { ValuesFit pairs.items }
    requires version { banner.now.version ≡ 1 }
    ensures upgrade { IfOk result (λ batch. IsUpgradeOf pairs.items banner.now batch.items) }
    ensures sizes { IfOk result (λ batch. IsTrue (is_batch batch.items)) }
    ensures port { IfOk result (λ _. 0 < banner.now.port) }
    ensures fault { IfErr result (IsNotRaised (ShowsFirst pairs.items banner.now)) }
{
    let raised = all_raised(alloc, pairs)?;
    let under = raised_banner(banner)?;
    check_pairs(alloc, &under, &raised)?;
    Ok(record_edits(alloc, &raised)?)
}

/// The same of what a keeper holds, which is read whole.
fn upgrade_batch<K: Keeper>(alloc: Global, keeper: &mut K) -> Result<Vec<Edit>, SiteOpenFault>
    requires version { (K.store_state keeper.old).banner.version ≡ 1 }
    ensures batch { AlwaysReads K.store_state K.may_need K.crash_states keeper.old keeper.new result IsFirstReadFault (λ h batch. IsUpgradeOf h.pairs h.banner batch.items) }
    ensures whole { IfOk result (λ batch. IsFirstWhole (K.store_state keeper.old) (length batch.items)) }
    ensures sizes { IfOk result (λ batch. IsTrue (is_batch batch.items)) }
    ensures port { IfOk result (λ _. 0 < (K.store_state keeper.old).banner.port) }
{
    let pairs = pairs_of(alloc, keeper)?;
    batch_for(alloc, keeper.banner(), pairs)
}

/// A fault of a commit.
fn commit_fault(fault: KeeperFault) -> SiteOpenFault
    ensures { result ≡ spec.commit_fault fault }
{
    match fault {
        KeeperFault::Memory => SiteOpenFault::Memory,
        _ => SiteOpenFault::Keeper(fault),
    }
}

/// Writes the site of version 1 that a keeper holds as one of version 2, and says how many records that were.
fn raise<K: Keeper>(alloc: Global, keeper: &mut K) -> Result<u64, SiteOpenFault>
    requires holds { IsTrue (K.holds_version 2) }
    requires version { (K.store_state keeper.old).banner.version ≡ 1 }
    requires usable { (K.store_state keeper.old).usable ≡ true }
    ensures done { IfOk result (IsUpgraded (K.store_state keeper.old) (K.store_state keeper.new)) }
    ensures fault { IfErr result (IsNotUpgraded (K.store_state keeper.old) (K.store_state keeper.new) (K.may_need keeper.old)) }
    ensures at_crash { IsTrue (K.store_state keeper.old).honest → (s : Site) → FirstBy (K.store_state keeper.old) s → AddsOnly (K.crash_states keeper.old) (K.crash_states keeper.new) (λ c. RepresentsEitherVersion K.has_content c s) }
    ensures no_new_crash_state { IsTrue (K.store_state keeper.old).honest → IfErr result (λ e. (K.store_state keeper.new).usable ≡ true → AddsNone (K.crash_states keeper.old) (K.crash_states keeper.new)) }
    ensures no_site { IsTrue (K.store_state keeper.old).honest → ((s : Site) → FirstBy (K.store_state keeper.old) s → ⊥) → AddsNone (K.crash_states keeper.old) (K.crash_states keeper.new) }
{
    let batch = upgrade_batch(alloc, keeper)?;
    let banner = raised_banner(keeper.banner())?;
    match keeper.commit(&batch, banner) {
        Ok(()) => Ok(batch.len() as u64),
        Err(fault) => Err(commit_fault(fault)),
    }
}

impl<K: Keeper> DiskSite<K> {
    /// Writes the site of version 1 that a keeper holds as one of version 2, in one commit, and hands the keeper back with how many records were written: one for each item, or none where it is of version 2 already, of which nothing is read.
    ///
    /// A keeper that isn't usable is `Failed`. `BadRecord` where what is kept is no valid site's layout in version 1, else the keeper's fault, of a read and then of a commit; `Damaged` of page 0 where as many pairs as it counts are not found. `Memory` may stand in place of `BadRecord`, of a fault of the commit, and of success. A refusal hands the keeper back, with nothing written unless it is `Failed`.
    pub fn upgrade(alloc: Global, keeper: K) -> Result<(K, u64), (SiteOpenFault, K)>
        requires holds { IsTrue (K.holds_version 2) }
        ensures already { (K.store_state keeper).usable ≡ true → (K.store_state keeper).banner.version ≡ 2 → result ≡ Ok (keeper, 0) }
        ensures closed { (K.store_state keeper).usable ≡ false → result ≡ Err (StoreFault Failed, keeper) }
        ensures done { ((K.store_state keeper).banner.version ≡ 2 → ⊥) → IfOk result (λ d. IsUpgraded (K.store_state keeper) (K.store_state d.0) d.1) }
        ensures fault { IfErr result (λ e. IsNotUpgraded (K.store_state keeper) (K.store_state e.1) (K.may_need keeper) e.0) }
        ensures out { numbers_out (K.store_state (handed_back result)) ≡ numbers_out (K.store_state keeper) }
        ensures at_crash { UpgradeCrashes K.store_state K.crash_states K.has_content keeper result }
    {
        if !keeper.is_usable() {
            return Err((SiteOpenFault::Keeper(KeeperFault::Failed), keeper));
        }
        if keeper.banner().version == VERSION {
            return Ok((keeper, 0));
        }
        if keeper.banner().version != FIRST_VERSION {
            return Err((SiteOpenFault::BadRecord, keeper));
        }
        let mut keeper = keeper;
        match raise(alloc, &mut keeper) {
            Ok(count) => Ok((keeper, count)),
            Err(fault) => Err((fault, keeper)),
        }
    }
}
