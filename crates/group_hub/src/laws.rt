// What whole runs come to, as laws of the definitions.
ghost use Rattle.group_hub.specs.Runs.{CallsJoin, CallsPart, CallsRun, CallsCrash, CallsMoments, CallsCountReads, CallsCountWrites, FaultsKeepTheWorld};

use word_search::SearchKeeper;

/// Runs over any site join and part, and over an honest one each is a run of the world. What a crash leaves of one has each commit that was acknowledged by then.
pub fn runs_join<S: SearchKeeper>()
    ensures join { CallsJoin S.site_state S.lacks S.crash_states S.represents }
    ensures part { CallsPart S.site_state S.lacks S.crash_states S.represents }
    ensures run { CallsRun S.site_state S.lacks S.crash_states S.represents }
    ensures at_crash { CallsCrash S.site_state S.lacks S.crash_states S.represents }
    ensures since { CallsMoments S.site_state S.lacks S.crash_states S.represents }
{}

/// The outcomes of a run over any site tell how many writes and syncs of it have failed, and how many reads: at least so many, and, where flushes leave posts waiting, at most so many.
pub fn runs_count<S: SearchKeeper>()
    ensures reads { CallsCountReads S.site_state S.lacks S.crash_states S.represents }
    ensures writes { CallsCountWrites S.site_state S.lacks S.crash_states S.represents }
{}

/// After a fault the world is as before, but for the mark of a first failure; only a flush that fails may have answered some sessions.
pub fn faults_keep_the_world()
    ensures { FaultsKeepTheWorld }
{}
