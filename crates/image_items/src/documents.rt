// The bytes of a document of a site.
ghost use Rattle.std.specs.Prelude.{◌≡◌, [], true, IsTrue, IfOk, OnOk, IfErr};
ghost use Rattle.std.specs.Option.{option_copied};
ghost use Rattle.host_types.specs.CrashStates.{AddsNone};
ghost use Rattle.host_types.specs.SiteState.{IsReadFault};
ghost use Rattle.image_items.specs.Documents as spec;
ghost use Rattle.image_items.specs.Looks.{HasLooked};

use crate::ItemFault;
use crate::stored_view::view_bytes;
use crate::views::chosen;
use host_types::{Selector, SiteFault, SiteKeeper};
use std::alloc::Global;

/// The bytes of the view that is named of a document, or of its first view, as they are stored; or why there are none.
pub fn document<S: SiteKeeper>(
    alloc: Global,
    site: &mut S,
    selector: &Selector,
    view: Option<&[u8]>,
) -> Result<Result<Vec<u8>, ItemFault>, SiteFault>
    requires unpinned { (S.site_state site.old).pins ≡ [] }
    ensures found { IsTrue (S.site_state site.old).honest → IfOk result (λ found. spec.bytes_in (λ v. v.items) found ≡ spec.document_at (S.site_state site.old).site selector.now (option_copied view.entry)) }
    ensures looked { HasLooked (S.site_state site.old) (S.site_state site.new) }
    ensures at_crash { IsTrue (S.site_state site.old).honest → AddsNone (S.crash_states site.old) (S.crash_states site.new) }
    ensures fault { IfErr result (IsReadFault true (S.site_state site.old) (S.site_state site.new)) }
    ensures counts { OnOk result ((S.site_state site.new).failed_reads ≡ (S.site_state site.old).failed_reads) }
{
    let Some(card) = site.card(selector)? else {
        return Ok(Err(ItemFault::NotFound));
    };
    let (place, size) = match chosen(&card.body, view) {
        Ok(chosen) => chosen,
        Err(fault) => return Ok(Err(fault)),
    };
    let bytes = view_bytes(alloc, site, selector, place, size)?;
    Ok(Ok(bytes))
}
