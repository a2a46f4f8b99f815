// Looking up the items of a site that is to be changed.
ghost use Rattle.std.specs.Prelude.{◌≡◌, ℕ, List, false, Some, is_some, IfOk, OnOk, IfErr, IfSome};
ghost use Rattle.host_types.specs.Site.{Site, item_at, board_of};
ghost use Rattle.host_types.specs.Items.{is_long_item};
ghost use Rattle.host_types.specs.Change.{board_after};
ghost use Rattle.host_types.specs.declared.item.Item.{Item as ItemValue};
ghost use Rattle.common_types.specs.declared.refused.Refused.{Refused as RefusedValue};
ghost use Rattle.host_types.specs.declared.site_fault.SiteFault.{SiteFault as SiteFaultValue};
ghost use Rattle.host_types.specs.declared.site_fault.SiteFault.TheVariants.{Refused as Refusal, Memory};
ghost use Rattle.change_plan.specs.LookUps.{HasNoLongNames};

use host_types::{Item, Selector, SiteFault};

/// A site whose items can be found while a change of it is planned. A look-up changes nothing of the site, and may fail.
pub trait ItemLookup {
    /// This site is shown. One that is kept on something dishonest is not.
    ghost shows: { Self → Site → Type 0 };

    /// What is known of each item that is found.
    ghost fits: { ItemValue → Type 0 };

    /// What look-ups leave that don't fail.
    ghost reads_only: { Self → Self → Type 0 };

    /// What look-ups leave of which the last fails with this fault.
    ghost failed: { Self → Self → SiteFaultValue → Type 0 };

    /// What stands at a selector.
    fn item(&mut self, selector: &Selector) -> Result<Option<Item>, SiteFault>
        ensures item { (s : Site) → shows self.old s → IfOk result (λ item. item ≡ item_at s selector.now) }
        ensures fits { IfOk result (λ item. IfSome item fits) }
        ensures reads_only { OnOk result (reads_only self.old self.new) }
        ensures failed { IfErr result (failed self.old self.new) };

    /// Whether something stands at a selector.
    fn has_item(&mut self, selector: &Selector) -> Result<bool, SiteFault>
        ensures there { (s : Site) → shows self.old s → IfOk result (λ there. there ≡ is_some (item_at s selector.now)) }
        ensures reads_only { OnOk result (reads_only self.old self.new) }
        ensures failed { IfErr result (failed self.old self.new) };

    /// It is known or not that an item is fit.
    ghost fits_or_not: { (item : ItemValue) → IsProp (fits item) };

    /// No look-up leaves all as it is.
    ghost nothing_read: { (l : Self) → reads_only l l };

    /// One look-up after another.
    ghost reads_again: { (a b c : Self) → reads_only a b → reads_only b c → reads_only a c };

    /// A look-up that fails after others.
    ghost failed_later: { (a b c : Self) (fault : SiteFaultValue) → reads_only a b → failed b c fault → failed a c fault };

    /// Where memory is lacking beside the look-ups, none has failed.
    ghost may_be_out_of_memory: { (a b : Self) → reads_only a b → failed a b Memory };

    /// No look-up is refused.
    ghost never_refused: { (a b : Self) (refused : RefusedValue) → failed a b (Refusal refused) → ⊥ };

    /// The same site is shown as before.
    ghost shows_still: { (a b : Self) (s : Site) → reads_only a b → shows a s → shows b s };

    /// Each item of the site shown has a name of the program.
    ghost short_names: { (l : Self) (s : Site) → shows l s → HasNoLongNames s };

    /// An item that keeps the greatest sizes is fit.
    ghost short_fits: { (selector : List ℕ) (item : ItemValue) → is_long_item selector item ≡ false → fits item };

    /// So is a board after a post, if it was before.
    ghost board_fits: { (item : ItemValue) (cap next now : ℕ) → board_of item.body ≡ Some (cap, next) → fits item → fits (board_after item cap next now) };
}
