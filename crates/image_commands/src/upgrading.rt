// Upgrading an image of version 1.
ghost use Rattle.std.specs.Prelude.{◌≡◌, ◌⊎◌, ◌<◌, IfOk, IfErr, IsErrAnd, IsTrue};
ghost use Rattle.std.specs.String.{string_bytes};
ghost use Rattle.host_types.specs.CrashStates.{AddsNone};
ghost use Rattle.sector_device.specs.Device.{NothingCounted};
ghost use Rattle.page_store.specs.Steps.{crash_states_of};
ghost use Rattle.page_store.specs.declared.fault.KeeperFault.TheVariants.{Small};
ghost use Rattle.host_on_disk.specs.Upgrades.{KeepsEither};
ghost use Rattle.image_commands.specs.Compacted.{MayHaveWritten};
ghost use Rattle.image_commands.specs.Upgraded as spec;
ghost use Rattle.image_commands.specs.Upgraded.{IsUpgradedImage, IsUpgradingFault};
ghost use Rattle.image_commands.specs.declared.fault.ImageFault.TheVariants.{Store};

use crate::ImageFault;
use host_on_disk::upgrade_on;
use sector_device::Device;
use std::alloc::{AllocError, Global};

/// The line of how many records were written, without its LF.
pub fn upgraded_line(alloc: Global, count: u64) -> Result<String, AllocError>
    ensures { IfOk result (λ t. string_bytes t ≡ spec.upgraded_line count) }
{
    format!(in alloc; "upgraded {count}")
}

/// Opens the image on a device, writes its site in version 2 where it is of version 1, gives the line of how many records were written, and hands the device back.
///
/// A crash at any moment leaves the same site, in version 1 or 2. Of an image of version 2 nothing is read but its tree, and nothing is written.
pub fn upgrade_image<D: Device>(alloc: Global, device: D) -> Result<(String, D), (ImageFault, D)>
    ensures upgraded { IsTrue (D.state device).honest → IfOk result (λ r. IsUpgradedImage D.state (crash_states_of D.moment D.possible_since) device r.1 (string_bytes r.0)) }
    ensures counts { IfOk result (λ r. NothingCounted (D.state device) (D.state r.1)) }
    ensures refused { IfErr result (λ e. IsUpgradingFault (D.state device) (D.state e.1) e.0) }
    ensures kept_on_fault { IsTrue (D.state device).honest → IfErr result (λ e. AddsNone (crash_states_of D.moment D.possible_since device) (crash_states_of D.moment D.possible_since e.1) ⊎ KeepsEither D.state (crash_states_of D.moment D.possible_since) device e.1) }
    ensures no_new_crash_state { IsTrue (D.state device).honest → IfErr result (λ e. MayHaveWritten e.0 ⊎ AddsNone (crash_states_of D.moment D.possible_since device) (crash_states_of D.moment D.possible_since e.1)) }
    ensures small { (D.state device).size < 128 → IsErrAnd result (λ e. (e.0 ≡ Store Small) × (e.1 ≡ device)) }
    ensures honest { IfOk result (λ r. (D.state r.1).honest ≡ (D.state device).honest) }
    ensures honest_on_fault { IfErr result (λ e. (D.state e.1).honest ≡ (D.state device).honest) }
{
    let (count, device) = match upgrade_on(alloc, device) {
        Ok(done) => done,
        Err((fault, device)) => return Err((ImageFault::from(fault), device)),
    };
    match upgraded_line(alloc, count) {
        Ok(line) => Ok((line, device)),
        Err(_) => Err((ImageFault::Memory, device)),
    }
}
