// Showing the items of a site.
ghost use Rattle.std.specs.Prelude.{◌≡◌, ◌<◌, false, IfOk, OnOk, IfErr, IsErrOf, IsErrAnd, IsTrue, option_map};
ghost use Rattle.host_types.specs.CrashStates.{AddsNone};
ghost use Rattle.sector_device.specs.Device.{NothingCounted};
ghost use Rattle.page_store.specs.Steps.{crash_states_of};
ghost use Rattle.page_store.specs.declared.fault.KeeperFault.TheVariants.{Small};
ghost use Rattle.host_on_disk.specs.OpenFaults.{HandsBack};
ghost use Rattle.image_commands.specs.Faults.{IsReadingFault};
ghost use Rattle.image_commands.specs.declared.fault.ImageFault.TheVariants.{Store};
ghost use Rattle.host_types.specs.declared.site_fault.SiteFault.TheVariants.{Failed};
ghost use Rattle.site_replies.specs.Reads.{ReadsSite};
ghost use Rattle.image_commands.specs.Listing.{listing_in, IsListedNext, IsListing};

use crate::ImageFault;
use crate::listing::{ListForm, list_in};
use host_on_disk::open_site;
use host_types::{Selector, SiteFault, SiteKeeper};
use page_store::PinKeeper;
use sector_device::Device;
use site_store::DiskSite;
use std::alloc::Global;

/// Adds the line of the first item above a selector, and answers its selector; with no selector, of the first item of all.
fn list_next<K: PinKeeper>(
    alloc: Global,
    form: ListForm,
    site: &mut DiskSite<K>,
    text: &mut Vec<u8>,
    after: Option<&Selector>,
) -> Result<Option<Selector>, SiteFault>
    ensures next { let k = ⟦<DiskSite<K> as SiteKeeper>⟧ in ReadsSite k.site_state k.lacks k.crash_states site.old site.new result (λ s next. IsListedNext form s (option_map (λ selector. selector.now) after.entry) text.old.items text.new.items next) }
    ensures counts { OnOk result ((⟦<DiskSite<K> as SiteKeeper>⟧.site_state site.new).failed_reads ≡ (⟦<DiskSite<K> as SiteKeeper>⟧.site_state site.old).failed_reads) }
    ensures closed { (⟦<DiskSite<K> as SiteKeeper>⟧.site_state site.old).usable ≡ false → IsErrOf result Failed }
{
    match site.next_card(after) {
        Ok(Some((selector, card))) => {
            list_in(alloc, form, text, &selector, &card)?;
            Ok(Some(selector))
        }
        Ok(None) => Ok(None),
        Err(fault) => Err(fault),
    }
}

/// The lines of all items in a form, in the order of their selectors: letter (`>` of an item that has moved), in the long one date and size, then selector and title, escaped.
pub fn show_site<K: PinKeeper>(
    alloc: Global,
    site: &mut DiskSite<K>,
    form: ListForm,
) -> Result<Vec<u8>, SiteFault>
    ensures listing { let k = ⟦<DiskSite<K> as SiteKeeper>⟧ in ReadsSite k.site_state k.lacks k.crash_states site.old site.new result (λ s text. text.items ≡ listing_in form s) }
    ensures counts { OnOk result ((⟦<DiskSite<K> as SiteKeeper>⟧.site_state site.new).failed_reads ≡ (⟦<DiskSite<K> as SiteKeeper>⟧.site_state site.old).failed_reads) }
    ensures closed { (⟦<DiskSite<K> as SiteKeeper>⟧.site_state site.old).usable ≡ false → IsErrOf result Failed }
{
    if !site.is_usable() {
        return Err(SiteFault::Failed);
    }
    let mut text = Vec::new(alloc);
    let mut after = None;
    for _ in 0..u64::MAX {
        match list_next(alloc, form, site, &mut text, after.as_ref()) {
            Ok(Some(next)) => after = Some(next),
            Ok(None) => return Ok(text),
            Err(fault) => return Err(fault),
        }
    }
    // No device that can be had holds so many items.
    Err(SiteFault::Memory)
}

/// Opens the image on a device, gives the lines of its items in a form, and hands the device back. Nothing is written.
pub fn show_image<D: Device>(
    alloc: Global,
    device: D,
    form: ListForm,
) -> Result<(Vec<u8>, D), (ImageFault, D)>
    ensures shown { IsTrue (D.state device).honest → IfOk result (λ r. IsListing form (D.state device).disk.view r.0.items) }
    ensures refused { IfErr result (λ e. HandsBack IsReadingFault D.state (crash_states_of D.moment D.possible_since) device e.1 e.0) }
    ensures small { (D.state device).size < 128 → IsErrAnd result (λ e. (e.0 ≡ Store Small) × (e.1 ≡ device)) }
    ensures counts { IfOk result (λ r. NothingCounted (D.state device) (D.state r.1)) }
    ensures at_crash { IsTrue (D.state device).honest → IfOk result (λ r. AddsNone (crash_states_of D.moment D.possible_since device) (crash_states_of D.moment D.possible_since r.1)) }
    ensures honest { IfOk result (λ r. (D.state r.1).honest ≡ (D.state device).honest) }
{
    let mut site = match open_site(alloc, device) {
        Ok(site) => site,
        Err((fault, device)) => return Err((ImageFault::from(fault), device)),
    };
    let shown = show_site(alloc, &mut site, form);
    let device = site.into_keeper().into_device();
    match shown {
        Ok(text) => Ok((text, device)),
        Err(fault) => Err((ImageFault::from(fault), device)),
    }
}
