// Looking up the items of a site in memory.
ghost use Rattle.std.proofs.Common.{refl, sym, subst, ◌∙◌};
ghost use Rattle.change_plan.specs.LookUps.{HasNoLongNames};
ghost use Rattle.mem_site.specs.ShortEntries.{HasShortViews};
ghost use Rattle.mem_site.specs.MemoryReads.{Shows, IsUnchanged, IsShort, fits_or_not, never_refused, short_fits};

use crate::MemSite;
use change_plan::ItemLookup;
use host_types::{Item, Selector, SiteFault};

impl ItemLookup for MemSite {
    ghost shows = { Shows };

    ghost fits = { HasShortViews };

    ghost reads_only = { IsUnchanged };

    ghost failed = { IsShort };

    ghost fits_or_not = { fits_or_not };

    ghost nothing_read = { λ l. refl };

    ghost reads_again = { λ a b c first second. second ∙ first };

    ghost failed_later = { λ a b c fault first h. (h.0, h.1 ∙ first) };

    ghost may_be_out_of_memory = { λ a b same. (refl, same) };

    ghost never_refused = { never_refused };

    ghost shows_still = { λ a b s same shown. (shown.0 ∙ sym same, subst HasNoLongNames (sym same) shown.1) };

    ghost short_names = { λ l s shown. subst HasNoLongNames (sym shown.0) shown.1 };

    ghost short_fits = { short_fits };

    ghost board_fits = { λ item cap next now is fit. refl };

    fn item(&mut self, selector: &Selector) -> Result<Option<Item>, SiteFault> {
        match self.item_at(selector) {
            Some(item) => Ok(Some(item.clone()?)),
            None => Ok(None),
        }
    }

    fn has_item(&mut self, selector: &Selector) -> Result<bool, SiteFault> {
        Ok(self.item_at(selector).is_some())
    }
}
