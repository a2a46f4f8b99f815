// Looking up the items of a site over a key-value store, while a change of it is planned.
ghost use Rattle.site_store.specs.LookUps.{IsShown, HasFound, HasNotFound};
ghost use Rattle.site_store.specs.LookUpLaws.{fits_or_not, nothing_read, reads_again, failed_later, may_be_out_of_memory, never_refused, shows_still, short_names, short_fits, board_fits};
ghost use Rattle.site_pairs.specs.ShortReplacements.{IsShortItem};

use crate::DiskSite;
use crate::items::{has_item, item_in};
use crate::to_site_fault::to_site_fault;
use change_plan::ItemLookup;
use host_types::{Item, Selector, SiteFault};
use page_store::Keeper;

impl<K: Keeper> ItemLookup for DiskSite<K> {
    ghost shows = { λ d. IsShown K.store_state d.keeper };

    ghost fits = { IsShortItem };

    ghost reads_only = { λ a b. HasFound K.store_state K.may_need K.crash_states a.keeper b.keeper };

    ghost failed = { λ a b. HasNotFound K.store_state K.may_need K.crash_states a.keeper b.keeper };

    ghost fits_or_not = { fits_or_not };

    ghost nothing_read = { λ d. nothing_read K.store_state K.may_need K.crash_states d.keeper };

    ghost reads_again = { λ a b c. reads_again K.store_state K.may_need K.crash_states a.keeper b.keeper c.keeper };

    ghost failed_later = { λ a b c. failed_later K.store_state K.may_need K.crash_states a.keeper b.keeper c.keeper };

    ghost may_be_out_of_memory = { λ a b. may_be_out_of_memory K.store_state K.may_need K.crash_states a.keeper b.keeper };

    ghost never_refused = { λ a b. never_refused K.store_state K.may_need K.crash_states a.keeper b.keeper };

    ghost shows_still = { λ a b. shows_still K.store_state K.may_need K.crash_states a.keeper b.keeper };

    ghost short_names = { λ d. short_names K.store_state d.keeper };

    ghost short_fits = { short_fits };

    ghost board_fits = { board_fits };

    fn item(&mut self, selector: &Selector) -> Result<Option<Item>, SiteFault> {
        match item_in(self.alloc, &mut self.keeper, selector) {
            Ok(item) => Ok(item),
            Err(fault) => Err(to_site_fault(fault)),
        }
    }

    fn has_item(&mut self, selector: &Selector) -> Result<bool, SiteFault> {
        match has_item(&mut self.keeper, selector) {
            Ok(there) => Ok(there),
            Err(fault) => Err(to_site_fault(fault)),
        }
    }
}
