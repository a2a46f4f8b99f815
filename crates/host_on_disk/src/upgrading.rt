// Upgrading the image on a device.
ghost use Rattle.std.specs.Prelude.{◌≡◌, ◌⊎◌, ◌<◌, IfOk, IfErr, IsErrAnd, IsTrue};
ghost use Rattle.host_types.specs.CrashStates.{AddsNone};
ghost use Rattle.sector_device.specs.Device.{NothingCounted};
ghost use Rattle.page_store.specs.Steps.{crash_states_of};
ghost use Rattle.page_store.specs.declared.fault.KeeperFault.TheVariants.{Small, Failed};
ghost use Rattle.host_on_disk.specs.Upgrades.{UpgradesDevice, IsNewAlready, KeepsEither, IsUpgradeRefusal};
ghost use Rattle.host_on_disk.specs.declared.open_fault.OpenFault.TheVariants.{Keeper};

use crate::open_fault::OpenFault;
use cow_tree::TreeKeeper;
use sector_device::Device;
use site_store::DiskSite;
use std::alloc::Global;

/// Opens the image on a device, writes its site as one of version 2 where it is of version 1, in one commit, and hands the device back with how many records were written: one for each item, or none where the image is of version 2 already.
///
/// A crash at any moment leaves the same site, in version 1 or 2; once it is done, in version 2. Refusals in order: those of `TreeKeeper::open`; `BadRecord` where the image represents no site of version 1; the faults of a commit. `Memory` may stand in place of `Damaged` and all that comes behind it, and of success. A refusal writes nothing, unless it is `Failed`.
pub fn upgrade_on<D: Device>(alloc: Global, device: D) -> Result<(u64, D), (OpenFault, D)>
    ensures upgraded { IsTrue (D.state device).honest → IfOk result (λ r. UpgradesDevice D.state (crash_states_of D.moment D.possible_since) device r.1 r.0 ⊎ IsNewAlready D.state (crash_states_of D.moment D.possible_since) device r.1 r.0) }
    ensures counts { IfOk result (λ r. NothingCounted (D.state device) (D.state r.1)) }
    ensures refused { IfErr result (λ e. IsUpgradeRefusal (D.state device) (D.state e.1) e.0) }
    ensures kept { IsTrue (D.state device).honest → IfErr result (λ e. AddsNone (crash_states_of D.moment D.possible_since device) (crash_states_of D.moment D.possible_since e.1) ⊎ KeepsEither D.state (crash_states_of D.moment D.possible_since) device e.1) }
    ensures no_new_crash_state { IsTrue (D.state device).honest → IfErr result (λ e. (e.0 ≡ Keeper Failed) ⊎ AddsNone (crash_states_of D.moment D.possible_since device) (crash_states_of D.moment D.possible_since e.1)) }
    ensures small { (D.state device).size < 128 → IsErrAnd result (λ e. (e.0 ≡ Keeper Small) × (e.1 ≡ device)) }
    ensures honest { IfOk result (λ r. (D.state r.1).honest ≡ (D.state device).honest) }
    ensures honest_on_fault { IfErr result (λ e. (D.state e.1).honest ≡ (D.state device).honest) }
{
    let keeper = match TreeKeeper::open(alloc, device) {
        Ok(keeper) => keeper,
        Err((fault, device)) => return Err((OpenFault::of_keeper(fault), device)),
    };
    match DiskSite::upgrade(alloc, keeper) {
        Ok((keeper, count)) => Ok((count, keeper.into_device())),
        Err((fault, keeper)) => Err((OpenFault::of_site(fault), keeper.into_device())),
    }
}
