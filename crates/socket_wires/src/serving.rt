// Rounds of connections.
ghost use Rattle.std.specs.Prelude.{◌≡◌, List, ◌++◌, map, IfOk, IfErr};
ghost use Rattle.socket_wires.specs.Rounds.{IsFresh, ServesRounds};
ghost use Rattle.socket_wires.specs.Taking.{had, TooFewCame};
ghost use Rattle.socket_wires.specs.declared.gate.Taken.{Taken};

use crate::{Gate, SocketWire};
use group_hub::Hub;
use std::alloc::Global;
use thiserror::Error;
use turns::{Clock, Connection, take_turns};
use word_search::SearchKeeper;

/// Why serving ends early.
#[derive(Clone, Copy, Debug, PartialEq, Eq, Error)]
pub enum ServeFault {
    /// A connection could not be accepted or set up.
    #[error("net")]
    Net,
    /// A write or a sync of what the site is kept on has failed.
    #[error("failed")]
    Failed,
    #[error("memory")]
    Memory,
}

/// So many connections, and no other is taken.
fn accept(
    alloc: Global,
    gate: &mut Gate,
    together: u32,
) -> Result<Vec<Connection<SocketWire>>, ServeFault>
    ensures fresh { IfOk result (λ connections. IsFresh together connections.items) }
    ensures taken { IfOk result (λ connections. gate.new.taken.calls ≡ gate.old.taken.calls ++ map had connections.items) }
    ensures fault { IfErr result (λ fault. (rest : List Taken) × (gate.new.taken.calls ≡ gate.old.taken.calls ++ rest) × TooFewCame together fault rest) }
{
    let mut connections = Vec::new(alloc);
    for _ in 0..together {
        let Ok(wire) = gate.next() else {
            return Err(ServeFault::Net);
        };
        if connections.push(Connection::new(wire)).is_err() {
            return Err(ServeFault::Memory);
        }
    }
    Ok(connections)
}

/// Accepts so many connections in each round and serves them in turns. It answers how many replies were written whole, over all rounds, at most the
/// greatest u64; or `Failed`, and no round more, once a write or a sync of what the site is kept on has failed.
pub fn serve_on<S: SearchKeeper, C: Clock>(
    alloc: Global,
    gate: &mut Gate,
    hub: &mut Hub<S>,
    clock: &mut C,
    together: u32,
    rounds: u32,
) -> Result<u64, ServeFault>
    ensures { ServesRounds S.site_state S.lacks S.crash_states S.represents together rounds result gate.old.taken.calls gate.new.taken.calls hub.old hub.new (C.given clock.old) (C.given clock.new) }
{
    let mut served = 0u64;
    for _round in 0..rounds {
        if !hub.is_usable() {
            return Err(ServeFault::Failed);
        }
        let mut connections = accept(alloc, gate, together)?;
        served = served.saturating_add(take_turns(hub, &mut connections, clock));
    }
    if hub.is_usable() {
        Ok(served)
    } else {
        Err(ServeFault::Failed)
    }
}
