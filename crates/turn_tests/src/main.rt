//! Tests of sessions over wires: wires in memory that are served together, by calls that wait over a site in memory and over one on a disk, and by calls that don't; and a connection over the loopback. Each test
//! prints how many replies were written whole, or how each session ended, and what each wire was given.
#![tactic(auto)]

mod crowd;
mod daily_clients;
mod groups;
mod memory_wire;
mod old_wires;
mod place;
mod shy_wire;
mod site;
mod tree;

use crowd::CROWD;
use daily_clients::{all_passes, show_clients, show_log_line};
use group_hub::Hub;
use groups::{GROUP, show_no_room};
use memory_wire::{MemoryWire, StandingClock};
use old_wires::show_old_clients;
use place::Place;
use site::{NotReady, memory_hub};
use socket_wires::{Gate, SystemClock, serve_on};
use std::alloc::Global;
use std::io;
use std::io::{Read, Write};
use std::net::{OpenListener, OpenStream, TcpListener, TcpStream};
use tree::tree_hub;
use turns::{Connection, take_turns};
use word_search::SearchKeeper;

/// A wire on which a post comes.
fn poster(alloc: Global) -> Result<MemoryWire, NotReady> {
    Ok(MemoryWire::new(alloc, b"/sign\t+\t1\r\n+-1\r\nAnn\r\n1\r\nHi\r\n.\r\n")?)
}

/// A wire on which the board is asked for.
fn reader(alloc: Global) -> Result<MemoryWire, NotReady> {
    Ok(MemoryWire::new(alloc, b"/book\r\n")?)
}

/// A wire on which the text is asked for.
fn asker(alloc: Global) -> Result<MemoryWire, NotReady> {
    Ok(MemoryWire::new(alloc, b"/about\r\n")?)
}

/// A test by its name: wires that are served together.
fn wires_of(alloc: Global, name: &str) -> Result<Vec<MemoryWire>, NotReady> {
    let mut wires = Vec::new(alloc);
    match name {
        "post in three reads" => {
            wires.push(poster(alloc)?.in_pieces(11))?;
            wires.push(reader(alloc)?)?;
        }
        "post in one read" => {
            wires.push(poster(alloc)?)?;
            wires.push(reader(alloc)?)?;
        }
        "post on the second wire" => {
            wires.push(reader(alloc)?)?;
            wires.push(poster(alloc)?)?;
        }
        "failed write" => {
            wires.push(asker(alloc)?.cut(5))?;
            wires.push(asker(alloc)?)?;
        }
        "stalled read" => {
            wires.push(MemoryWire::new(alloc, b"/abo")?.stalled())?;
            wires.push(asker(alloc)?)?;
        }
        "early end" => wires.push(MemoryWire::new(alloc, b"/abo")?)?,
        "writes in part" => wires.push(asker(alloc)?.slow(3))?,
        _ => {
            for _ in 0..33 {
                wires.push(MemoryWire::new(alloc, b"/none\r\n")?)?;
            }
        }
    }
    Ok(wires)
}

/// The rounds of a test by its name. The wires of each are served together, and those of the next once all are closed.
fn rounds_of(alloc: Global, name: &str) -> Result<Vec<Vec<MemoryWire>>, NotReady> {
    if name == CROWD {
        return crowd::rounds(alloc);
    }
    if name == GROUP {
        return groups::rounds(alloc);
    }
    let mut rounds = Vec::new(alloc);
    rounds.push(wires_of(alloc, name)?)?;
    Ok(rounds)
}

/// The tests in which posts wait for one another.
const GROUPED: [&str; 5] = [
    "post in three reads",
    "post in one read",
    "post on the second wire",
    "failed write",
    GROUP,
];

const NAMES: [&str; 9] = [
    "post in three reads",
    "post in one read",
    "post on the second wire",
    "failed write",
    "stalled read",
    "early end",
    "writes in part",
    "one wire too many",
    CROWD,
];

/// Wires that are served together, and how many replies were written whole.
#[derive(Drop)]
struct Round {
    connections: Vec<Connection<MemoryWire>>,
    served: u64,
}

/// Rounds that are not served yet.
fn ready_rounds(alloc: Global, rounds: Vec<Vec<MemoryWire>>) -> Result<Vec<Round>, NotReady> {
    let mut ready = Vec::new(alloc);
    for wires in rounds {
        let mut connections = Vec::new(alloc);
        for wire in wires {
            connections.push(Connection::new(wire))?;
        }
        ready.push(Round {
            connections,
            served: 0,
        })?;
    }
    Ok(ready)
}

/// Serves rounds of wires over a hub, which ends then.
fn serve_over<S: SearchKeeper + Drop>(hub: Hub<S>, rounds: &mut [Round]) {
    let mut hub = hub;
    for round in rounds.iter_mut() {
        let mut clock = StandingClock::new();
        round.served = take_turns(&mut hub, &mut round.connections, &mut clock);
    }
    let _ = hub.close();
}

/// Serves rounds of wires over the site of the tests, in memory or on a disk.
fn serve(alloc: Global, wires: Vec<Vec<MemoryWire>>, place: Place) -> Result<Vec<Round>, NotReady> {
    let mut rounds = ready_rounds(alloc, wires)?;
    if place.is_on_disk {
        serve_over(tree_hub(alloc, place.is_grouped)?, &mut rounds);
    } else {
        serve_over(memory_hub(alloc, place.is_grouped)?, &mut rounds);
    }
    Ok(rounds)
}

/// Prints how many replies of a round were written whole, and what each wire was given.
fn show_round(rt: &HostRuntime, round: &Round) -> io::Result<()> {
    println!(rt; "served {}", round.served)?;
    for connection in round.connections.iter() {
        let wire = connection.wire();
        let closed = wire.closed();
        match std::str::from_utf8(wire.written()) {
            Ok(text) => println!(rt; "{text:?} closed {closed}")?,
            Err(_) => println!(rt; "no text")?,
        }
    }
    Ok(())
}

fn show(rt: &HostRuntime, name: &str, place: Place) -> io::Result<()> {
    println!(rt; "{name}{}", place.words())?;
    let answered = match rounds_of(rt.alloc(), name) {
        Ok(wires) => serve(rt.alloc(), wires, place),
        Err(fault) => Err(fault),
    };
    let Ok(rounds) = answered else {
        return Err(io::ErrorKind::OutOfMemory.into());
    };
    for round in rounds.iter() {
        show_round(rt, round)?;
    }
    Ok(())
}

/// One client over the loopback asks for `/about`, and is served in one round of one.
fn show_loopback(rt: &HostRuntime) -> io::Result<()> {
    let listener = TcpListener::bind(rt, "127.0.0.1:0")?;
    let port = listener.local_addr()?.port();
    let mut client = TcpStream::connect(rt, ("127.0.0.1", port))?;
    client.write_all(b"/about\r\n")?;
    let Ok(mut hub) = memory_hub(rt.alloc(), false) else {
        return Err(io::ErrorKind::OutOfMemory.into());
    };
    let mut clock = SystemClock::new(rt);
    let mut gate = Gate::new(listener);
    let served = serve_on(rt.alloc(), &mut gate, &mut hub, &mut clock, 1, 1);
    let _ = hub.close();
    let mut reply = Vec::new(rt.alloc());
    let _ = client.read_to_end(&mut reply)?;
    println!(rt; "loopback")?;
    match served {
        Ok(count) => println!(rt; "served {count}")?,
        Err(fault) => println!(rt; "fault {fault}")?,
    }
    match std::str::from_utf8(&reply) {
        Ok(text) => println!(rt; "{text:?}"),
        Err(_) => println!(rt; "no text"),
    }
}

/// The tests of each kind of hub.
fn show_turns(rt: &HostRuntime) -> io::Result<()> {
    for name in NAMES {
        show(rt, name, Place::MEMORY)?;
    }
    for name in NAMES {
        show(rt, name, Place::DISK)?;
    }
    for name in GROUPED {
        show(rt, name, Place::MEMORY.grouped())?;
    }
    for name in GROUPED {
        show(rt, name, Place::DISK.grouped())?;
    }
    Ok(())
}

/// The same over wires that never wait.
fn show_all_clients(rt: &HostRuntime) -> io::Result<()> {
    let alloc = rt.alloc();
    for name in NAMES {
        show_clients(
            rt,
            name,
            rounds_of(alloc, name),
            all_passes(),
            Place::MEMORY,
        )?;
    }
    show_clients(
        rt,
        "time over",
        rounds_of(alloc, "writes in part"),
        4,
        Place::MEMORY,
    )?;
    show_clients(
        rt,
        CROWD,
        rounds_of(alloc, CROWD),
        all_passes(),
        Place::DISK,
    )?;
    for name in GROUPED {
        show_clients(
            rt,
            name,
            rounds_of(alloc, name),
            all_passes(),
            Place::MEMORY.grouped(),
        )?;
    }
    for name in GROUPED {
        show_clients(
            rt,
            name,
            rounds_of(alloc, name),
            all_passes(),
            Place::DISK.grouped(),
        )?;
    }
    Ok(())
}

fn main(rt: HostRuntime) -> io::Result<()> {
    show_turns(&rt)?;
    show_all_clients(&rt)?;
    show_old_clients(&rt)?;
    show_no_room(&rt)?;
    show_log_line(&rt)?;
    show_loopback(&rt)
}
