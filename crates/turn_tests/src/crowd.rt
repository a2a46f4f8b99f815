// As many sessions as a hub has, whose bytes come and go one by one, and then those that read what they posted.
use crate::memory_wire::MemoryWire;
use crate::site::NotReady;
use std::alloc::Global;

/// The name of the test.
pub const CROWD: &str = "32 sessions by turns of one byte";

/// What they ask, over and over: the menu, the text, three posts and three searches.
const REQUESTS: [&[u8]; 8] = [
    b"\r\n",
    b"/about\r\n",
    b"/sign\t+\t1\r\n+-1\r\nAnn\r\n2\r\nHi\r\n..x\r\n.\r\n",
    b"/sign\t+\t1\r\n+16\r\nAnn\r\n2\r\nHi\r\n.x\r\n",
    b"/sign\t+\t1\r\n+-2\r\nBob\r\n0\r\n",
    b"/find\tHELLO last\r\n",
    b"/find\thello none\r\n",
    b"/find\r\n",
];

const SESSIONS: usize = 32;

/// How many of them post.
const POSTS: u32 = 12;

/// A wire whose reads give one byte, and whose writes take one.
fn thin_wire(alloc: Global, request: &[u8]) -> Result<MemoryWire, NotReady> {
    Ok(MemoryWire::new(alloc, request)?.in_pieces(1).slow(1))
}

/// The wires of all of them.
fn askers(alloc: Global) -> Result<Vec<MemoryWire>, NotReady> {
    let mut wires = Vec::new(alloc);
    for request in REQUESTS.iter().cycle().take(SESSIONS) {
        wires.push(thin_wire(alloc, request)?)?;
    }
    Ok(wires)
}

/// The wires of those that come once all are gone: each asks for one of the posts, and the last one for the board.
fn readers(alloc: Global) -> Result<Vec<MemoryWire>, NotReady> {
    let mut wires = Vec::new(alloc);
    for number in 1..=POSTS {
        let request = format!(in alloc; "post//book/{number}\r\n")?;
        wires.push(thin_wire(alloc, request.as_bytes())?)?;
    }
    wires.push(thin_wire(alloc, b"/book\r\n")?)?;
    Ok(wires)
}

/// The wires of those that ask, and behind them of those that read.
pub fn rounds(alloc: Global) -> Result<Vec<Vec<MemoryWire>>, NotReady> {
    let mut rounds = Vec::new(alloc);
    rounds.push(askers(alloc)?)?;
    rounds.push(readers(alloc)?)?;
    Ok(rounds)
}
