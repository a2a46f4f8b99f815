// What a host on a disk rests on, as laws of the definitions.
ghost use Rattle.std.specs.Prelude.{◌≡◌, ℕ, List, IsTrue};
ghost use Rattle.host_types.specs.Site.{Site};
ghost use Rattle.page_store.specs.Sectors.{Image};
ghost use Rattle.page_store.specs.Steps.{crash_states_of};
ghost use Rattle.group_world.specs.CrashStates.{CommitOfChanges, HoldsCommits};
ghost use Rattle.host_on_disk.specs.ImageSites.{ImageRepresents};
ghost use Rattle.host_on_disk.specs.Headline.{IsFound, RunInTurn, InTurn, FoundInTurn};
ghost use Rattle.host_on_disk.specs.Tightness.{IsTightWhereFull};
ghost use Rattle.cow_tree.specs.TreeSeen.{device_of, held};
ghost use Rattle.site_store.specs.Seen.{keeper_of, seen_site};

use crate::opening::SiteOn;
use host_types::SiteKeeper;
use sector_device::Device;

/// An image represents at most one site.
pub fn an_image_represents_one_site()
    ensures { (image : Image) (s t : Site) → ImageRepresents image s → ImageRepresents image t → s ≡ t }
{}

/// The site that is found in an image which a crash of a run left is the one after the first so many of its accepted commits, with each that was
/// acknowledged by then.
pub fn what_a_crash_left_is_found_again()
    ensures { (first : Site) (commits : List CommitOfChanges) (least : ℕ) (image : Image) (s : Site) → HoldsCommits ImageRepresents first commits least image → ImageRepresents image s → IsFound first commits least s }
{}

/// Any number of crashes in turn: where each run is on a device that shows what a crash of the run before left, the last image represents a site,
/// and that one is found by way of sites that the runs allow.
pub fn any_number_of_crashes<D: Device>()
    ensures { (first last : Image) (s : Site) (turns : List (RunInTurn D)) → InTurn D.state (crash_states_of D.moment D.possible_since) first turns last → ImageRepresents first s → (t : Site) × ImageRepresents last t × FoundInTurn s turns t }
{}

/// `Full` of changes on a site over a tree means that they are tight: fewer pages are free than a commit of all their keys may need in a tree of so many levels.
pub fn full_is_tight<D: Device>(site: &SiteOn<D>)
    ensures { IsTrue (D.state (device_of (keeper_of site.now))).honest → IsTightWhereFull (⟦<SiteOn<D> as SiteKeeper>⟧.lacks site.now) (seen_site site.now) (held D.state (keeper_of site.now)).height }
{}
