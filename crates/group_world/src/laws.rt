// What groups of posts rest on, as laws of the definitions.
ghost use Rattle.host_types.specs.AllChanges.{Changes};
ghost use Rattle.group_world.specs.Calls.{MaySplit};
ghost use Rattle.group_world.specs.GroupExamples.{GroupExamples};
ghost use Rattle.group_world.specs.Run.{changes_in};
ghost use Rattle.group_world.specs.declared.event.Event.{Event};
ghost use Rattle.group_world.specs.World.{World};
ghost use Rattle.group_world.specs.CrashStates.{CallsLeave, WhatIsStoredIsRight};
ghost use Rattle.group_world.specs.Continuing.{Continues, ContinuesFromItsPlace, ContinuesWhatWasFound, DrawsWereAskedFor, PostsWait};
ghost use Rattle.group_world.specs.PlainHubs.{PlainHubsStay};
ghost use Rattle.group_world.specs.Laws.{FindsItsPlace, GroupsAreRight, LaterRepliesAreRight, OnlyFormsPost, PostsCountOn, RepliesStay};

use host_types::SiteKeeper;

/// Worked examples of what sessions are answered whose posts wait.
pub fn worked_examples()
    ensures { GroupExamples }
{}

/// Whatever is taken of a group, its changes are all valid one after another, and make its site.
pub fn groups_are_right()
    ensures { GroupsAreRight }
{}

/// A flush leaves each reply as it is.
pub fn replies_stay()
    ensures { RepliesStay }
{}

/// Posts change nothing of what stands at selectors that are not those of posts, but that each counts on its board.
pub fn posts_count_on()
    ensures { PostsCountOn }
{}

/// A post that is answered gets the reply of the site after those that were taken before it.
pub fn finds_its_place()
    ensures { FindsItsPlace }
{}

/// Where posts don't wait none ever does, and each event has at most one change.
pub fn plain_hubs_stay()
    ensures { PlainHubsStay }
{}

/// The reply to a later post of a group is known before those before it are made: it is the reply behind those posts.
pub fn later_replies_are_known()
    ensures { LaterRepliesAreRight }
{}

/// A request that finds no form stores no post.
pub fn only_forms_post()
    ensures { OnlyFormsPost }
{}

/// A post waits until a flush, or until its session leaves.
pub fn posts_wait()
    ensures { PostsWait }
{}

/// What a session draws goes on from where it stood. From the request on it is the text of the site which that found; of a post that has waited it is the text of the site at its place in the group.
/// And whatever is drawn was asked for so.
pub fn continues()
    ensures rest { Continues }
    ensures found { ContinuesWhatWasFound }
    ensures place { ContinuesFromItsPlace }
    ensures asked_for { DrawsWereAskedFor }
{}

/// What an event stores makes the site behind it; one commit is in flight only where the hub has failed by then. And what a crash at any moment of a run leaves, by what its calls leave, is the site of the first so many commits, at
/// least all that were acknowledged by then: a commit is there whole or not at all.
pub fn calls_leave<S: SiteKeeper>()
    ensures stored { (k : S) (w : World) (e : Event) → WhatIsStoredIsRight (MaySplit (S.lacks k) (S.site_state k) (changes_in w e)) }
    ensures at_crash { CallsLeave S.crash_states S.represents (λ k w e. MaySplit (S.lacks k) (S.site_state k) (changes_in w e)) }
{}
