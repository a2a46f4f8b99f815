// Checking an image.
ghost use Rattle.std.specs.Prelude.{◌≡◌, ◌<◌, false, IfOk, OnOk, IfErr, IsErrOf, IsErrAnd, IsTrue};
ghost use Rattle.host_types.specs.CrashStates.{AddsNone};
ghost use Rattle.sector_device.specs.Device.{NothingCounted};
ghost use Rattle.page_store.specs.Steps.{crash_states_of};
ghost use Rattle.page_store.specs.Work.{WritesNothing, SyncsOnce, SyncsOnceAtMost};
ghost use Rattle.page_store.specs.declared.fault.KeeperFault.TheVariants.{Small};
ghost use Rattle.host_on_disk.specs.OpenFaults.{HandsBack};
ghost use Rattle.image_commands.specs.Faults.{IsReadingFault};
ghost use Rattle.image_commands.specs.declared.fault.ImageFault.TheVariants.{Store};
ghost use Rattle.std.specs.String.{string_bytes};
ghost use Rattle.host_types.specs.declared.site_fault.SiteFault.TheVariants.{Failed};
ghost use Rattle.site_store.specs.Seen.{keeper_of};
ghost use Rattle.site_replies.specs.Reads.{ReadsSite};
ghost use Rattle.image_commands.specs.Lines as spec;
ghost use Rattle.image_commands.specs.Lines.{IsChecked};

use crate::ImageFault;
use host_on_disk::open_site;
use host_types::{SiteFault, SiteKeeper};
use page_store::{Figures, PinKeeper};
use sector_device::Device;
use site_store::{DiskSite, SiteFigures};
use std::alloc::{AllocError, Global};

/// The line of a site's figures, without its LF.
pub fn figures_line(alloc: Global, figures: SiteFigures) -> Result<String, AllocError>
    ensures { IfOk result (λ t. string_bytes t ≡ spec.figures_line figures.items figures.store.keys figures.store.free figures.store.generation) }
{
    let SiteFigures { items, store } = figures;
    let Figures {
        keys,
        free,
        generation,
    } = store;
    let mut line = format!(in alloc; "items {items}")?;
    line.push_str(&format!(in alloc; " keys {keys}")?)?;
    line.push_str(&format!(in alloc; " free {free}")?)?;
    line.push_str(&format!(in alloc; " generation {generation}")?)?;
    Ok(line)
}

/// The line of an open site's figures: how many items and pairs it has, how many pages a commit may write, and the current generation.
pub fn check_site<K: PinKeeper>(alloc: Global, site: &mut DiskSite<K>) -> Result<String, SiteFault>
    ensures line { let k = ⟦<DiskSite<K> as SiteKeeper>⟧ in ReadsSite k.site_state k.lacks k.crash_states site.old site.new result (λ s line. string_bytes line ≡ spec.checked_line s (k.site_state site.old).free (K.store_state (keeper_of site.old)).generation) }
    ensures counts { OnOk result ((⟦<DiskSite<K> as SiteKeeper>⟧.site_state site.new).failed_reads ≡ (⟦<DiskSite<K> as SiteKeeper>⟧.site_state site.old).failed_reads) }
    ensures closed { (⟦<DiskSite<K> as SiteKeeper>⟧.site_state site.old).usable ≡ false → IsErrOf result Failed }
    ensures work { WritesNothing (K.store_state (keeper_of site.old)).made (K.store_state (keeper_of site.new)).made }
{
    let figures = site.figures()?;
    let line = figures_line(alloc, figures)?;
    Ok(line)
}

/// Opens the image on a device, gives the line of its figures, and hands the device back. Nothing is written.
pub fn check_image<D: Device>(alloc: Global, device: D) -> Result<(String, D), (ImageFault, D)>
    ensures checked { IsTrue (D.state device).honest → IfOk result (λ r. IsChecked D.state (crash_states_of D.moment D.possible_since) device (string_bytes r.0)) }
    ensures refused { IfErr result (λ e. HandsBack IsReadingFault D.state (crash_states_of D.moment D.possible_since) device e.1 e.0) }
    ensures small { (D.state device).size < 128 → IsErrAnd result (λ e. (e.0 ≡ Store Small) × (e.1 ≡ device)) }
    ensures counts { IfOk result (λ r. NothingCounted (D.state device) (D.state r.1)) }
    // The image is opened once, so that all is made sure of once.
    ensures work { IfOk result (λ r. SyncsOnce (D.state device).made (D.state r.1).made) }
    ensures work_on_fault { IfErr result (λ e. SyncsOnceAtMost (D.state device).made (D.state e.1).made) }
    ensures at_crash { IsTrue (D.state device).honest → IfOk result (λ r. AddsNone (crash_states_of D.moment D.possible_since device) (crash_states_of D.moment D.possible_since r.1)) }
    ensures honest { IfOk result (λ r. (D.state r.1).honest ≡ (D.state device).honest) }
{
    let mut site = match open_site(alloc, device) {
        Ok(site) => site,
        Err((fault, device)) => return Err((ImageFault::from(fault), device)),
    };
    let checked = check_site(alloc, &mut site);
    let device = site.into_keeper().into_device();
    match checked {
        Ok(line) => Ok((line, device)),
        Err(fault) => Err((ImageFault::from(fault), device)),
    }
}
