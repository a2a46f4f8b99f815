// A site that is searched.
ghost use Rattle.std.specs.Prelude.{◌≡◌, true, false, IfOk, IfErr, IsErrOf, IsTrue};
ghost use Rattle.host_types.specs.Counting.{CountsReads};
ghost use Rattle.host_types.specs.Visible.{visible};
ghost use Rattle.host_types.specs.SiteState.{HasRead, LacksTheSame, IsReadFault};
ghost use Rattle.host_types.specs.CrashStates.{AddsNone};
ghost use Rattle.host_types.specs.declared.site_fault.SiteFault.TheVariants.{Failed};
ghost use Rattle.word_search.specs.Finds.{finds_of};

use crate::FindList;
use host_types::{Selector, SiteFault, SiteKeeper, Stamp};

/// A keeper of a site that finds items by their words.
pub trait SearchKeeper: SiteKeeper {
    /// The first 100 items that have not expired, whose selectors begin with the scope and whose words hold all words of the query, at least one, in byte order of their selectors, each with what the line of a menu says of it.
    fn search(&mut self, scope: &Selector, query: &[u8], now: Stamp) -> Result<FindList, SiteFault>
        ensures found { IsTrue (Self.site_state self.old).honest → IfOk result (λ found. found ≡ finds_of (visible (Self.site_state self.old).site now) scope.now query.now) }
        ensures kept { HasRead (Self.site_state self.old) (Self.site_state self.new) }
        ensures fault { IfErr result (IsReadFault true (Self.site_state self.old) (Self.site_state self.new)) }
        ensures reads { CountsReads result (Self.site_state self.old) (Self.site_state self.new) }
        ensures closed { (Self.site_state self.old).usable ≡ false → IsErrOf result Failed }
        ensures lacking { LacksTheSame (Self.lacks self.old) (Self.lacks self.new) }
        ensures at_crash { IsTrue (Self.site_state self.old).honest → AddsNone (Self.crash_states self.old) (Self.crash_states self.new) };
}
