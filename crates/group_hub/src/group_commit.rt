// The changes of a group in one step.
ghost use Rattle.std.specs.Prelude.{◌≡◌, true, Some, IsTrue};
ghost use Rattle.host_types.specs.Site.{Site};
ghost use Rattle.group_world.specs.Laws.{all_made};
ghost use Rattle.group_hub.specs.Flushing.{ChangesAreTyped, MakesGroup};

use group_world::HubFault;
use host_types::{Change, ChangesFault, SiteKeeper, Stamp, changes_keep_sites_valid};

/// How the changes of a group went.
#[derive(Clone, Copy, Debug, PartialEq, Eq)]
pub enum GroupCommit {
    /// All are made, in one step.
    Whole,
    /// They need more than is free, or might grow too many levels: none is made.
    TooLarge,
}

/// Each change is a value of the program.
fn valid_changes(changes: &[(Change, Stamp)])
    ensures { ChangesAreTyped changes.now }
{
    for (change, now) in changes {
        change.valid_names();
        let _ = now.seconds();
    }
}

/// Makes the changes of a group in one step, which are right one after another on the site as it stands. Where there are none it does nothing.
pub fn commit_group<S: SiteKeeper>(
    site: &mut S,
    changes: Vec<(Change, Stamp)>,
) -> Result<GroupCommit, HubFault>
    requires usable { (S.site_state site.old).usable ≡ true }
    requires right { IsTrue (S.site_state site.old).honest → (t : Site) × (all_made (S.site_state site.old).site changes.items ≡ Some t) }
    ensures { MakesGroup S.site_state S.lacks S.crash_states S.represents changes.items site.old site.new result }
{
    if changes.is_empty() {
        return Ok(GroupCommit::Whole);
    }
    changes_keep_sites_valid();
    valid_changes(&changes);
    match site.change_all(changes) {
        Ok(()) => Ok(GroupCommit::Whole),
        Err(ChangesFault::Full { need, free }) => {
            let _ = (need, free);
            Ok(GroupCommit::TooLarge)
        }
        Err(ChangesFault::Deep) => Ok(GroupCommit::TooLarge),
        // What was read before is no more there.
        Err(ChangesFault::RefusedAt { .. }) => Err(HubFault::Broken),
        Err(ChangesFault::Read) => Err(HubFault::Broken),
        Err(ChangesFault::Spent) => Err(HubFault::Spent),
        Err(ChangesFault::Failed) => Err(HubFault::Failed),
        Err(ChangesFault::Memory) => Err(HubFault::Memory),
    }
}
