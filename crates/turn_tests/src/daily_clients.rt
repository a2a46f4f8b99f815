// Sessions over wires that never wait.
use crate::memory_wire::{MemoryWire, StandingClock};
use crate::place::Place;
use crate::shy_wire::ShyWire;
use crate::site::{NotReady, memory_hub};
use crate::tree::tree_hub;
use daily_server::{Head, LogForm, LogRecord, log_line};
use daily_turns::{Ending, ReadyConnection, Unsent, dismiss, join, learn, take_turn};
use group_hub::Hub;
use host_types::Stamp;
use std::alloc::Global;
use std::io;
use word_search::SearchKeeper;

/// How many passes are made, at most.
const MOST_PASSES: u32 = 1000;

/// Serves wires together over a hub: all have a turn, then the posts that wait are made, and then all are ready again. Whoever is still in after so many passes goes.
fn serve_round<S: SearchKeeper>(
    alloc: Global,
    hub: &mut Hub<S>,
    wires: Vec<MemoryWire>,
    passes: u32,
    place: Place,
) -> Result<Vec<ReadyConnection<ShyWire>>, NotReady> {
    let mut clock = StandingClock::new();
    let mut connections = Vec::new(alloc);
    let mut is_full = false;
    for wire in wires {
        let unsent = Unsent::new(alloc)?;
        let connection = join(hub, ShyWire::new(wire), place.old_clients, unsent);
        is_full |= connections.push(connection).is_err();
    }
    for _pass in 0..passes {
        for connection in connections.iter_mut() {
            take_turn(hub, connection, &mut clock);
            connection.wake();
        }
        let _ = hub.flush();
        for connection in connections.iter_mut() {
            learn(hub, connection);
        }
    }
    for connection in connections.iter_mut() {
        dismiss(hub, connection);
    }
    if is_full {
        Err(NotReady)
    } else {
        Ok(connections)
    }
}

/// Serves rounds of wires, one behind the other.
fn serve_rounds<S: SearchKeeper>(
    alloc: Global,
    hub: &mut Hub<S>,
    rounds: Vec<Vec<MemoryWire>>,
    passes: u32,
    place: Place,
) -> Result<Vec<ReadyConnection<ShyWire>>, NotReady> {
    let mut served = Vec::new(alloc);
    for wires in rounds {
        for connection in serve_round(alloc, hub, wires, passes, place)? {
            served.push(connection)?;
        }
    }
    Ok(served)
}

/// The same over a hub that ends then.
fn serve_over<S: SearchKeeper + Drop>(
    alloc: Global,
    hub: Hub<S>,
    rounds: Vec<Vec<MemoryWire>>,
    passes: u32,
    place: Place,
) -> Result<Vec<ReadyConnection<ShyWire>>, NotReady> {
    let mut hub = hub;
    let served = serve_rounds(alloc, &mut hub, rounds, passes, place);
    let _ = hub.close();
    served
}

/// Serves rounds of wires over the site of the tests, in memory or on a disk.
fn serve(
    alloc: Global,
    rounds: Vec<Vec<MemoryWire>>,
    passes: u32,
    place: Place,
) -> Result<Vec<ReadyConnection<ShyWire>>, NotReady> {
    if place.is_on_disk {
        return serve_over(
            alloc,
            tree_hub(alloc, place.is_grouped)?,
            rounds,
            passes,
            place,
        );
    }
    serve_over(
        alloc,
        memory_hub(alloc, place.is_grouped)?,
        rounds,
        passes,
        place,
    )
}

/// Prints how each session ended, and what its wire was given.
pub fn show_clients(
    rt: &HostRuntime,
    name: &str,
    rounds: Result<Vec<Vec<MemoryWire>>, NotReady>,
    passes: u32,
    place: Place,
) -> io::Result<()> {
    println!(rt; "{name}{}, where nobody waits", place.words())?;
    let served = match rounds {
        Ok(rounds) => serve(rt.alloc(), rounds, passes, place),
        Err(fault) => Err(fault),
    };
    let Ok(connections) = served else {
        return Err(io::ErrorKind::OutOfMemory.into());
    };
    for connection in connections.iter() {
        let wire = connection.wire().wire();
        let ending = connection.stage().ending();
        let closed = wire.closed();
        match std::str::from_utf8(wire.written()) {
            Ok(text) => println!(rt; "{text:?} {ending:?} closed {closed}")?,
            Err(_) => println!(rt; "no text")?,
        }
    }
    Ok(())
}

/// As many passes as all need.
pub fn all_passes() -> u32 {
    MOST_PASSES
}

/// Prints a line of the log in each form.
pub fn show_log_line(rt: &HostRuntime) -> io::Result<()> {
    let mut head = Head::new();
    head.hear(b"/bo");
    head.hear(b"ok page\tgopher\r\n");
    let gone = LogRecord {
        moment: Stamp::start(),
        from: "127.0.0.1",
        selector: head.selector(),
        ending: Ending::Served,
        taken: 42,
        stored: Some(b"post//book/1"),
    };
    for form in [LogForm::Own, LogForm::Common] {
        let Ok(line) = log_line(rt.alloc(), form, &gone) else {
            return Err(io::ErrorKind::OutOfMemory.into());
        };
        match std::str::from_utf8(&line) {
            Ok(text) => println!(rt; "{text}")?,
            Err(_) => println!(rt; "no text")?,
        }
    }
    Ok(())
}
