// Writing an image anew.
ghost use Rattle.std.specs.Prelude.{◌≡◌, ◌⊎◌, ◌<◌, IfOk, IfErr, IsErrAnd, IsTrue};
ghost use Rattle.std.specs.String.{string_bytes};
ghost use Rattle.host_types.specs.CrashStates.{AddsNone};
ghost use Rattle.page_store.specs.Steps.{crash_states_of};
ghost use Rattle.page_store.specs.declared.fault.KeeperFault.TheVariants.{Small};
ghost use Rattle.image_commands.specs.Compacted as spec;
ghost use Rattle.image_commands.specs.Compacted.{KeepsOneSite, ShowsSite, IsWrittenAnew, MayHaveWritten, IsCompactingFault, LeavesDevice};
ghost use Rattle.image_commands.specs.declared.fault.ImageFault.TheVariants.{Store};

use crate::ImageFault;
use host_on_disk::open_site;
use page_store::Keeper;
use sector_device::Device;
use std::alloc::{AllocError, Global};

/// The line of how many pages a commit may write, without its LF.
pub fn free_line(alloc: Global, free: u64) -> Result<String, AllocError>
    ensures { IfOk result (λ t. string_bytes t ≡ spec.free_line free) }
{
    format!(in alloc; "free {free}")
}

/// Opens the image on a device, writes its site anew in as few pages as hold its pairs in order, gives the line of the pages that are free then, and hands the device back.
///
/// A crash at any moment leaves on the device what represents the same site. There has to be room for all of it beside what is there: else it is `Full`, and nothing is written.
pub fn compact_image<D: Device>(alloc: Global, device: D) -> Result<(String, D), (ImageFault, D)>
    ensures kept { IsTrue (D.state device).honest → IfOk result (λ r. KeepsOneSite D.state (crash_states_of D.moment D.possible_since) device r.1) }
    ensures shows { IsTrue (D.state device).honest → IfOk result (λ r. ShowsSite D.state device r.1) }
    ensures anew { IsTrue (D.state device).honest → IfOk result (λ r. IsWrittenAnew (D.state r.1).disk.view (string_bytes r.0)) }
    ensures device { LeavesDevice D.state device result }
    ensures refused { IfErr result (λ e. IsCompactingFault (D.state device) (D.state e.1) e.0) }
    ensures kept_on_fault { IsTrue (D.state device).honest → IfErr result (λ e. AddsNone (crash_states_of D.moment D.possible_since device) (crash_states_of D.moment D.possible_since e.1) ⊎ KeepsOneSite D.state (crash_states_of D.moment D.possible_since) device e.1) }
    ensures no_new_crash_state { IsTrue (D.state device).honest → IfErr result (λ e. MayHaveWritten e.0 ⊎ AddsNone (crash_states_of D.moment D.possible_since device) (crash_states_of D.moment D.possible_since e.1)) }
    ensures small { (D.state device).size < 128 → IsErrAnd result (λ e. (e.0 ≡ Store Small) × (e.1 ≡ device)) }
{
    let mut site = match open_site(alloc, device) {
        Ok(site) => site,
        Err((fault, device)) => return Err((ImageFault::from(fault), device)),
    };
    let compacted = site.compact();
    let keeper = site.into_keeper();
    let free = keeper.figures().free;
    let device = keeper.into_device();
    match compacted {
        Ok(()) => match free_line(alloc, free) {
            Ok(line) => Ok((line, device)),
            Err(_) => Err((ImageFault::Memory, device)),
        },
        Err(fault) => Err((ImageFault::from(fault), device)),
    }
}
