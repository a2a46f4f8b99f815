// The site of one device, written on another one.
ghost use Rattle.std.specs.Prelude.{◌≡◌, ◌≢◌, ◌<◌, IsTrue, IfOk, IfErr};
ghost use Rattle.std.specs.String.{string_bytes};
ghost use Rattle.common_types.specs.CrashStates.{AddsNone};
ghost use Rattle.sector_device.specs.Device.{NothingCounted};
ghost use Rattle.sector_device.specs.Effects.{IsSameDevice};
ghost use Rattle.page_store.specs.Steps.{crash_states_of};
ghost use Rattle.image_copies.specs.Copies.{Copies};
ghost use Rattle.image_copies.specs.CopyFaults.{IsNotCopied};
ghost use Rattle.image_copies.specs.declared.fault.CopyFault.TheVariants.{Failed};

use crate::{CopyFault, plan_copy};
use sector_device::Device;
use std::alloc::Global;

/// Writes the site of the image on one device as a new image on another one, gives the line to print, and hands both back. Nothing is written on the first; what was on the second is gone.
///
/// Refusals in order: those of `plan_copy`, then those of `SiteCopy::write`. All but `Failed` leave the second device as it is; after that one it may have anything.
pub fn copy_image<D: Device, E: Device>(
    alloc: Global,
    old: D,
    new: E,
    pages: Option<u32>,
) -> Result<(String, D, E), (CopyFault, D, E)>
    ensures copied { IsTrue (D.state old).honest → IsTrue (E.state new).honest → IfOk result (λ r. Copies D.state E.state (crash_states_of E.moment E.possible_since) pages old r.1 r.2 (string_bytes r.0)) }
    ensures untouched { IsTrue (D.state old).honest → IfOk result (λ r. AddsNone (crash_states_of D.moment D.possible_since old) (crash_states_of D.moment D.possible_since r.1)) }
    ensures untouched_on_fault { IsTrue (D.state old).honest → IfErr result (λ e. AddsNone (crash_states_of D.moment D.possible_since old) (crash_states_of D.moment D.possible_since e.1)) }
    ensures counts { IfOk result (λ r. NothingCounted (D.state old) (D.state r.1) × NothingCounted (E.state new) (E.state r.2)) }
    ensures refused { IsTrue (D.state old).honest → IfErr result (λ e. IsNotCopied pages (D.state old) (D.state e.1) (E.state new) (E.state e.2) e.0) }
    ensures unwritten { IfErr result (λ e. e.0 ≢ Failed → e.2 ≡ new) }
    ensures same { IfOk result (λ r. ((D.state r.1).honest ≡ (D.state old).honest) × IsSameDevice (E.state new) (E.state r.2)) }
    ensures same_on_fault { IfErr result (λ e. ((D.state e.1).honest ≡ (D.state old).honest) × IsSameDevice (E.state new) (E.state e.2)) }
{
    let (copy, old) = match plan_copy(alloc, old, pages) {
        Ok(planned) => planned,
        Err((fault, old)) => return Err((fault, old, new)),
    };
    let mut new = new;
    match copy.write(alloc, &mut new) {
        Ok(line) => Ok((line, old, new)),
        Err(fault) => Err((fault, old, new)),
    }
}
