// Looking up the items of a site as it will stand once a plan is made.
ghost use Rattle.std.specs.Prelude.{◌≡◌, IfOk, option_copied};
ghost use Rattle.std.proofs.Common.{refl, ◌∙◌};
ghost use Rattle.change_plan.specs.Replacements.{AreFit};
ghost use Rattle.change_plan.specs.AllPlans.{last_at, ShowsAhead};
ghost use Rattle.change_plan.specs.AheadLaws.{shows_still, short_names};

use crate::{ItemLookup, Plan, Replacement};
use host_types::{Item, Selector, SiteFault};
use std::alloc::AllocError;

/// The last of some replacements at a selector.
fn last_at<'a>(replacements: &'a [Replacement], selector: &Selector) -> Option<&'a Replacement>
    ensures { option_copied result ≡ last_at replacements.now selector.now }
{
    let mut found = None;
    for replacement in replacements {
        if *selector == replacement.selector {
            found = Some(replacement);
        }
    }
    found
}

/// A copy of what is to stand somewhere.
fn copy_of(item: &Option<Item>) -> Result<Option<Item>, AllocError>
    ensures { IfOk result (λ copy. copy ≡ item.now) }
{
    match item {
        Some(item) => Ok(Some(item.clone()?)),
        None => Ok(None),
    }
}

/// The look-ups of a site as it will stand once a plan is made: what is planned at a selector, or else what stands there.
#[derive(Drop)]
pub struct Ahead<'a, 'b, L: ItemLookup> {
    pub lookup: &'a mut L,
    pub plan: &'b Plan,
    ghost fit: { ∥ AreFit L.fits plan.now.replacements.items ∥₁ },
}

impl<'a, 'b, L: ItemLookup> ItemLookup for Ahead<'a, 'b, L> {
    ghost shows = { λ a s. ShowsAhead L.shows a.lookup.now a.plan.now s };

    ghost fits = { L.fits };

    ghost reads_only = { λ a b. (b.lookup.ghost_name ≡ a.lookup.ghost_name) × (b.plan.now ≡ a.plan.now) × L.reads_only a.lookup.now b.lookup.now };

    ghost failed = { λ a b fault. (b.lookup.ghost_name ≡ a.lookup.ghost_name) × (b.plan.now ≡ a.plan.now) × L.failed a.lookup.now b.lookup.now fault };

    ghost fits_or_not = { L.fits_or_not };

    ghost nothing_read = { λ a. (refl, refl, L.nothing_read a.lookup.now) };

    ghost reads_again = { λ a b c first second. (second.0 ∙ first.0, second.1 ∙ first.1, L.reads_again a.lookup.now b.lookup.now c.lookup.now first.2 second.2) };

    ghost failed_later = { λ a b c fault first h. (h.0 ∙ first.0, h.1 ∙ first.1, L.failed_later a.lookup.now b.lookup.now c.lookup.now fault first.2 h.2) };

    ghost may_be_out_of_memory = { λ a b read. (read.0, read.1, L.may_be_out_of_memory a.lookup.now b.lookup.now read.2) };

    ghost never_refused = { λ a b refused h. L.never_refused a.lookup.now b.lookup.now refused h.2 };

    ghost shows_still = { λ a b s read shown. shows_still L.shows L.reads_only L.shows_still a.lookup.now b.lookup.now a.plan.now b.plan.now s read.1 read.2 shown };

    ghost short_names = { λ a s shown. short_names s shown.3 };

    ghost short_fits = { L.short_fits };

    ghost board_fits = { L.board_fits };

    fn item(&mut self, selector: &Selector) -> Result<Option<Item>, SiteFault> {
        match last_at(&self.plan.replacements, selector) {
            Some(replacement) => Ok(copy_of(&replacement.after)?),
            None => self.lookup.item(selector),
        }
    }

    fn has_item(&mut self, selector: &Selector) -> Result<bool, SiteFault> {
        match last_at(&self.plan.replacements, selector) {
            Some(replacement) => Ok(replacement.after.is_some()),
            None => self.lookup.has_item(selector),
        }
    }
}
