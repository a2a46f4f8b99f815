// What accepted changes are, as laws of the definitions.
ghost use Rattle.page_store.specs.Steps.{crash_states_of};
ghost use Rattle.accepted_changes.specs.Examples.{AcceptedExamples};
ghost use Rattle.accepted_changes.specs.UpgradedStarts.{UpgradedImagesAreStarts};
ghost use Rattle.accepted_changes.specs.Laws.{AcceptedAreValid, AcceptedAreInOrder, EachIsOneChange, CrashesLeaveAPrefix, ImagesHoldTheAcknowledged, NextOpeningsFindThem};

use host_types::SiteKeeper;
use sector_device::Device;

/// The accepted changes of a run are valid in turn, and make the sites that it leaves. Commits that were acknowledged come first, in their order. Where posts don't wait each commit is one change.
pub fn accepted_are_valid<D: Device>()
    ensures valid { AcceptedAreValid D }
    ensures in_order { AcceptedAreInOrder D }
    ensures one_each { EachIsOneChange D }
{}

/// What a crash at any moment of a run leaves represents the site of the first so many accepted commits, with each one that was acknowledged by then.
pub fn crashes_leave_a_prefix<S: SiteKeeper>()
    ensures { CrashesLeaveAPrefix S.crash_states S.represents }
{}

/// The same of the images that a crash leaves of a device which was opened as a site and run over.
pub fn images_hold_the_acknowledged<D: Device>()
    ensures { ImagesHoldTheAcknowledged D.state (crash_states_of D.moment D.possible_since) }
{}

/// The same of a file: the next opening after a crash finds each change that was acknowledged.
pub fn next_openings_find_them()
    ensures { NextOpeningsFindThem }
{}

/// What a crash since an upgrade left is one from which a hub may start: any number of runs and crashes from there find sites that the runs allow, from the upgraded site on.
pub fn upgraded_images_are_starts<D: Device>()
    ensures { UpgradedImagesAreStarts D.state (crash_states_of D.moment D.possible_since) }
{}

/// Worked examples of what a hub accepts.
pub fn worked_examples()
    ensures { AcceptedExamples }
{}
