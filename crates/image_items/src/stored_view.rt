// All bytes of a view, as they are stored.
ghost use Rattle.std.specs.Prelude.{◌≡◌, [], true, IsTrue, IfOk, OnOk, IfErr, length};
ghost use Rattle.host_types.specs.Card.{viewed_at};
ghost use Rattle.host_types.specs.CrashStates.{AddsNone};
ghost use Rattle.host_types.specs.SiteState.{IsReadFault};
ghost use Rattle.image_items.specs.Looks.{HasLooked};

use host_types::{Bytes, Selector, SiteFault, SiteKeeper, SitePinFault};
use std::alloc::Global;
use view_draws::ViewDraw;

/// All bytes of a view that has so many, of the site as it stands. The site is pinned meanwhile.
pub fn view_bytes<S: SiteKeeper>(
    alloc: Global,
    site: &mut S,
    selector: &Selector,
    view: usize,
    size: u32,
) -> Result<Vec<u8>, SiteFault>
    requires unpinned { (S.site_state site.old).pins ≡ [] }
    ensures bytes { let h = S.site_state site.old in IsTrue h.honest → length (viewed_at h.site selector.now view) ≡ size → IfOk result (λ bytes. bytes.items ≡ viewed_at h.site selector.now view) }
    ensures looked { HasLooked (S.site_state site.old) (S.site_state site.new) }
    ensures at_crash { IsTrue (S.site_state site.old).honest → AddsNone (S.crash_states site.old) (S.crash_states site.new) }
    ensures fault { let h = S.site_state site.old in (IsTrue h.honest → length (viewed_at h.site selector.now view) ≡ size) → IfErr result (IsReadFault true h (S.site_state site.new)) }
    ensures counts { OnOk result ((S.site_state site.new).failed_reads ≡ (S.site_state site.old).failed_reads) }
{
    let mut bytes = vec![in alloc; 0; size as usize]?;
    let head = Bytes::new(alloc);
    let mut draw = ViewDraw::new(head, selector.clone()?, view, size, false);
    let pin = match site.pin_site() {
        Ok(pin) => pin,
        Err(SitePinFault::Failed) => return Err(SiteFault::Failed),
        Err(SitePinFault::Memory) => return Err(SiteFault::Memory),
        // None is out.
        Err(SitePinFault::Crowded) => unreachable!(),
    };
    let drawn = draw.draw(site, &pin, &mut bytes);
    site.unpin_site(pin);
    match drawn {
        Ok(_) => Ok(bytes),
        Err(fault) => Err(fault),
    }
}
