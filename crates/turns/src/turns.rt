// Sessions over wires, which are served in turns.
ghost use Rattle.std.specs.Prelude.{◌≡◌, [], length, filter, true};
ghost use Rattle.group_hub.specs.Calls.{RunsHub};
ghost use Rattle.turns.specs.Runs.{HasRun};
ghost use Rattle.turns.specs.Turns.{For, Joins, Turn, Learns, EndsConnection, StepsInOrder, Pass, MakesPasses, Serves, AreClosed, is_served};

use crate::connection::Connection;
use crate::turn::{end, join, learn, take_turn};
use crate::{Clock, Wire};
use group_hub::Hub;
use word_search::SearchKeeper;

/// How many passes are made over the connections, at most.
pub const MOST_PASSES: u32 = 1_000_000;

/// A session joins on each connection that is new.
fn join_all<S: SearchKeeper, W: Wire>(hub: &mut Hub<S>, connections: &mut [Connection<W>])
    ensures { HasRun RunsHub hub.old hub.new [] [] (λ es os. StepsInOrder (For W.calls Joins) connections.old es os connections.new) }
{
    for connection in connections.iter_mut() {
        join(hub, connection);
    }
}

/// One turn for each connection, in order.
fn give_turns<S: SearchKeeper, W: Wire, C: Clock>(
    hub: &mut Hub<S>,
    connections: &mut [Connection<W>],
    clock: &mut C,
)
    ensures { HasRun RunsHub hub.old hub.new (C.given clock.old) (C.given clock.new) (λ es os. StepsInOrder (For W.calls Turn) connections.old es os connections.new) }
{
    for connection in connections.iter_mut() {
        take_turn(hub, connection, clock);
    }
}

/// Each session whose post waited learns what came of it, in order.
fn learn_all<S: SearchKeeper, W: Wire>(hub: &mut Hub<S>, connections: &mut [Connection<W>])
    ensures { HasRun RunsHub hub.old hub.new [] [] (λ es os. StepsInOrder (For W.calls Learns) connections.old es os connections.new) }
{
    for connection in connections.iter_mut() {
        learn(hub, connection);
    }
}

/// One turn for each connection, in order. Then the posts that wait are made, and their sessions learn what came of them.
fn pass<S: SearchKeeper, W: Wire, C: Clock>(
    hub: &mut Hub<S>,
    connections: &mut [Connection<W>],
    clock: &mut C,
)
    ensures { HasRun RunsHub hub.old hub.new (C.given clock.old) (C.given clock.new) (λ es os. Pass W.calls connections.old es os connections.new) }
{
    give_turns(hub, connections, clock);
    let _ = hub.flush();
    learn_all(hub, connections);
}

/// Whether all are closed.
fn are_closed<W>(connections: &[Connection<W>]) -> bool
    ensures { result ≡ true → AreClosed connections.now }
{
    connections.iter().all(|c| c.stage.is_closed())
}

/// Passes over the connections, until all are closed.
fn pass_on<S: SearchKeeper, W: Wire, C: Clock>(
    hub: &mut Hub<S>,
    connections: &mut [Connection<W>],
    clock: &mut C,
)
    ensures { HasRun RunsHub hub.old hub.new (C.given clock.old) (C.given clock.new) (λ es os. MakesPasses W.calls connections.old es os connections.new) }
{
    for _pass in 0..MOST_PASSES {
        if are_closed(connections) {
            return;
        }
        pass(hub, connections, clock);
    }
}

/// Who is still open leaves.
fn end_all<S: SearchKeeper, W: Wire>(hub: &mut Hub<S>, connections: &mut [Connection<W>])
    ensures { HasRun RunsHub hub.old hub.new [] [] (λ es os. StepsInOrder (For W.calls EndsConnection) connections.old es os connections.new) }
{
    for connection in connections.iter_mut() {
        end(hub, connection);
    }
}

/// A session joins on each connection that is new, and each open one gets one read or one draw in its turn, until all are closed. Behind each pass over them the posts that wait are made; who still waits
/// then is asked to try again later, and leaves.
/// It answers how many replies were written whole. It takes no memory but what the hub takes.
pub fn take_turns<S: SearchKeeper, W: Wire, C: Clock>(
    hub: &mut Hub<S>,
    connections: &mut [Connection<W>],
    clock: &mut C,
) -> u64
    ensures serves { HasRun RunsHub hub.old hub.new (C.given clock.old) (C.given clock.new) (λ es os. Serves W.calls connections.old es os connections.new) }
    ensures closed { AreClosed connections.new }
    ensures count { result ≡ length (filter (λ c. is_served c.stage) connections.new) }
{
    join_all(hub, connections);
    pass_on(hub, connections, clock);
    end_all(hub, connections);
    connections.iter().filter(|c| c.stage.is_served()).count() as u64
}
