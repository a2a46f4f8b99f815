// Wires on which the University of Minnesota's client asks.
use crate::daily_clients::{all_passes, show_clients};
use crate::memory_wire::MemoryWire;
use crate::place::Place;
use crate::site::NotReady;
use std::alloc::Global;
use std::io;

const OLD: [&str; 3] = [
    "old clients",
    "old clients by few bytes",
    "old clients cut off",
];

/// A post by a form and a search, as that client asks for them.
const POST: &[u8] = b"/sign\t$\t1\r\n+-1\r\nAnn\r\n1\r\n..Hi\r\n.\r\n";

const SEARCH: &[u8] = b"/find\thi\t$\r\n";

/// Rounds of one wire each.
fn rounds(alloc: Global, name: &str) -> Result<Vec<Vec<MemoryWire>>, NotReady> {
    let mut rounds = Vec::new(alloc);
    for bytes in [POST, SEARCH, b"/book\t$\r\n", b"/about\r\n"] {
        let wire = MemoryWire::new(alloc, bytes)?;
        let mut wires = Vec::new(alloc);
        wires.push(match name {
            "old clients" => wire,
            "old clients by few bytes" => wire.in_pieces(3).slow(2),
            _ => wire.in_pieces(3).cut(9),
        })?;
        rounds.push(wires)?;
    }
    Ok(rounds)
}

/// The same wires over a host that serves old clients, and over one that doesn't.
pub fn show_old_clients(rt: &HostRuntime) -> io::Result<()> {
    for name in OLD {
        show_clients(
            rt,
            name,
            rounds(rt.alloc(), name),
            all_passes(),
            Place::MEMORY.of_old_clients(),
        )?;
    }
    show_clients(
        rt,
        OLD[0],
        rounds(rt.alloc(), OLD[0]),
        all_passes(),
        Place::MEMORY,
    )
}
