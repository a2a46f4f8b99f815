// Makes the changes of a file on a site.
ghost use Rattle.std.specs.Prelude.{◌≡◌, true, Ok, OnOk, IfErr, IsTrue};
ghost use Rattle.common_types.specs.CrashStates.{AddsOnly, AddsNone};
ghost use Rattle.host_types.specs.Counting.{CountsFault, CountsNothing};
ghost use Rattle.change_file.specs.Applied.{apply_one, IsStop, RepresentsEither, Tries, MakesAll, StopsAt, HasSeen, CrashesOnFront};

use crate::fault::{ApplyFault, FileChange};
use crate::progress::Progress;
use host_types::{SiteFault, SiteKeeper, Stamp};

/// Makes one change of a file. A name that its type refuses is refused here.
fn apply_one<S: SiteKeeper>(site: &mut S, change: FileChange, now: Stamp) -> Result<(), SiteFault>
    ensures done { IsTrue (S.site_state site.old).honest → OnOk result (apply_one (S.site_state site.old).site change now ≡ Ok (S.site_state site.new).site) }
    ensures usable { OnOk result ((S.site_state site.new).usable ≡ (S.site_state site.old).usable) }
    ensures stop { IfErr result (IsStop S.site_state S.lacks change now site.old site.new) }
    ensures tried { Tries S.site_state S.crash_states site.old site.new }
    ensures counts { OnOk result (CountsNothing (S.site_state site.old) (S.site_state site.new)) }
    ensures counts_fault { IfErr result (λ e. CountsFault e (S.site_state site.old) (S.site_state site.new)) }
    ensures at_crash { IsTrue (S.site_state site.old).honest → (S.site_state site.old).usable ≡ true →
        AddsOnly (S.crash_states site.old) (S.crash_states site.new) (RepresentsEither S.represents (S.site_state site.old).site change now) }
    ensures no_new_crash_state { IsTrue (S.site_state site.old).honest → IfErr result (λ e. (S.site_state site.new).usable ≡ true → AddsNone (S.crash_states site.old) (S.crash_states site.new)) }
{
    match change {
        FileChange::Change(change) => site.change(change, now),
        FileChange::Refused(refused) => Err(SiteFault::Refused(refused)),
    }
}

/// Makes the changes of a file, one after another, and answers how many they are. The first that is refused, or that the keeper cannot make, ends it, by its number
/// from 1: those before it stay, and none behind it is tried. The progress sees each that is made, in order.
pub fn apply_changes<S: SiteKeeper, P: Progress>(
    site: &mut S,
    changes: Vec<FileChange>,
    now: Stamp,
    progress: &mut P,
) -> Result<u64, ApplyFault>
    ensures done { MakesAll S.site_state site.old site.new changes.items now result }
    ensures stopped { StopsAt S.site_state S.lacks site.old site.new changes.items now result }
    ensures tried { Tries S.site_state S.crash_states site.old site.new }
    ensures seen { HasSeen P.seen changes.items progress.old progress.new result }
    ensures at_crash { CrashesOnFront S.site_state S.crash_states S.represents site.old site.new changes.items now result }
{
    let count = changes.len() as u64;
    let mut number = 0;
    for change in changes {
        number += 1;
        if let Err(fault) = apply_one(site, change, now) {
            return Err(ApplyFault { number, fault });
        }
        progress.made(number, count);
    }
    Ok(count)
}
