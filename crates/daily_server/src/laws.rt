// Laws of the definitions, and worked examples.
ghost use Rattle.std.specs.Prelude.{◌≡◌, ℕ, Bool, List, ◌++◌, take};
ghost use Rattle.mio.specs.declared.event.event.Event.{Event as SocketEvent};
ghost use Rattle.daily_server.specs.Due.{GivesWhatIsDue};
ghost use Rattle.daily_server.specs.Examples.{ClientExamples};
ghost use Rattle.daily_server.specs.Logged.{TakesAFront};
ghost use Rattle.daily_server.specs.Posts.{StaysSparing};
ghost use Rattle.daily_server.specs.Rounds.{StaysSpread};
ghost use Rattle.daily_server.specs.Told.{TellsWhatIsSent};
ghost use Rattle.daily_server.specs.DailyClients.{woken_by, IsSameClient};
ghost use Rattle.daily_server.specs.declared.daily_client.DailyClient.{DailyClient};

use crate::Office;
use std::io::Write;

/// The head of all that was sent is the head of its pieces, one after another.
pub fn head_of_pieces()
    ensures { (before piece later : List ℕ) → take 256 (take 256 (before ++ piece) ++ later) ≡ take 256 (before ++ piece ++ later) }
{}

/// A wait takes nobody's turn, and changes nothing of a client but that it rests no more.
pub fn wait_keeps_clients()
    ensures { (all : Bool) (events : List SocketEvent) (client : DailyClient) → IsSameClient client (woken_by all events client) }
{}

/// What a client is given is what was drawn for its session, in order and adapted where its request was rewritten, or that it is to try again later, and nothing else.
pub fn gives_what_is_due()
    ensures { GivesWhatIsDue }
{}

/// What the hub is told of a client is what it sends, in order, rewritten where an old client wrote it, and nothing else.
pub fn tells_what_is_sent()
    ensures { TellsWhatIsSent }
{}

/// Of no origin more clients are in than may be, through all rounds.
pub fn stays_spread<L: Write, O: Office>()
    ensures { StaysSpread L.contents O.lets_wait O.works }
{}

/// Of no origin more posts come to wait in a minute than may be.
pub fn stays_sparing()
    ensures { StaysSparing }
{}

/// A log has a front of each line that is written to it, and all of it where the writes say so.
pub fn takes_a_front()
    ensures { TakesAFront }
{}

/// Worked examples.
pub fn worked_examples()
    ensures { ClientExamples }
{}
