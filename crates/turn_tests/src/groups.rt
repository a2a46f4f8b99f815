// More posts than wait at one time, and posts for which there is no room.
use crate::memory_wire::{MemoryWire, StandingClock};
use crate::site::{NotReady, put};
use crate::tree::tree_hub;
use group_hub::Hub;
use host_types::{Body, Bytes, Item, Stamp, Title};
use std::alloc::Global;
use std::io;
use turns::{Connection, take_turns, try_again_later};
use word_search::SearchKeeper;

/// The name of the test.
pub const GROUP: &str = "17 posts in one pass";

/// One more than wait at one time.
const POSTERS: u32 = 17;

/// How many bytes a document has that takes room away.
const DOCUMENT: usize = 12_000;

/// How long the text of a post is that needs room.
const TEXT: usize = 1_500;

/// How many posts come where there is no room for all.
const MANY: u32 = 32;

/// A wire on which somebody posts.
fn poster(alloc: Global, name: &str, text: usize) -> Result<MemoryWire, NotReady> {
    let mut request = format!(in alloc; "/sign\t+\t1\r\n+-1\r\n{name}\r\n1\r\n")?;
    for _ in 0..text {
        request.push('x')?;
    }
    request.push_str("\r\n.\r\n")?;
    Ok(MemoryWire::new(alloc, request.as_bytes())?)
}

/// The wires of those that post, and behind them of one that reads.
pub fn rounds(alloc: Global) -> Result<Vec<Vec<MemoryWire>>, NotReady> {
    let mut posters = Vec::new(alloc);
    for number in 1..=POSTERS {
        let name = format!(in alloc; "Ann{number}")?;
        posters.push(poster(alloc, &name, 2)?)?;
    }
    let mut readers = Vec::new(alloc);
    readers.push(MemoryWire::new(alloc, b"/book\r\n")?)?;
    let mut rounds = Vec::new(alloc);
    rounds.push(posters)?;
    rounds.push(readers)?;
    Ok(rounds)
}

/// A text of so many bytes.
fn text(alloc: Global, length: usize) -> Result<Body, NotReady> {
    let mut text = Vec::with_capacity(alloc, length)?;
    for _ in 0..length {
        text.push(b'x')?;
    }
    let bytes = Bytes::from_slice(alloc, &text)?;
    Ok(Item::text(alloc, Title::new(b"")?, Stamp::start(), bytes)?.body)
}

/// Puts documents until no more has room.
fn fill_up<S: SearchKeeper>(alloc: Global, hub: &mut Hub<S>) -> Result<(), NotReady> {
    for number in 0..64u32 {
        let selector = format!(in alloc; "/d{number}")?;
        let change = put(
            alloc,
            selector.as_bytes(),
            b"Document",
            text(alloc, DOCUMENT)?,
        )?;
        if hub.admin(change, Stamp::start()).is_err() {
            return Ok(());
        }
    }
    Err(NotReady)
}

/// What each of some wires was given once all were served together.
fn serve_all<S: SearchKeeper>(
    alloc: Global,
    hub: &mut Hub<S>,
    wires: Vec<MemoryWire>,
) -> Result<Vec<Connection<MemoryWire>>, NotReady> {
    let mut connections = Vec::new(alloc);
    for wire in wires {
        connections.push(Connection::new(wire))?;
    }
    let _ = take_turns(hub, &mut connections, &mut StandingClock::new());
    Ok(connections)
}

/// What some wires were given: so many their reply, so many that they are to try again later, and so many something else.
#[derive(Clone, Copy)]
struct Given {
    replies: usize,
    later: usize,
    others: usize,
}

/// Whether a wire was given that its client is to try again later.
fn is_later(connection: &Connection<MemoryWire>) -> bool {
    connection.wire().written() == try_again_later()
}

/// Whether it was given the line of its post.
fn is_reply(connection: &Connection<MemoryWire>) -> bool {
    let given = connection.wire().written();
    given.starts_with(b"+-1\r\n0Ann") && given.ends_with(b"\r\n.\r\n")
}

fn told(connections: &[Connection<MemoryWire>]) -> Given {
    let replies = connections.iter().filter(|c| is_reply(c)).count();
    let later = connections.iter().filter(|c| is_later(c)).count();
    Given {
        replies,
        later,
        others: connections
            .len()
            .saturating_sub(replies)
            .saturating_sub(later),
    }
}

/// How many posts the board lists.
fn count_posts<S: SearchKeeper>(alloc: Global, hub: &mut Hub<S>) -> Result<usize, NotReady> {
    let mut wires = Vec::new(alloc);
    wires.push(MemoryWire::new(alloc, b"/book\r\n")?)?;
    let connections = serve_all(alloc, hub, wires)?;
    let mut lines = 0usize;
    for connection in connections.iter() {
        let given = connection.wire().written();
        lines = lines.saturating_add(given.iter().filter(|b| **b == b'\n').count());
    }
    Ok(lines.saturating_sub(1))
}

/// Many post at once where there is room for some of them.
fn post_without_room<S: SearchKeeper>(
    alloc: Global,
    hub: &mut Hub<S>,
) -> Result<(Given, usize), NotReady> {
    fill_up(alloc, hub)?;
    let mut wires = Vec::new(alloc);
    for _ in 0..MANY {
        wires.push(poster(alloc, "Ann", TEXT)?)?;
    }
    let connections = serve_all(alloc, hub, wires)?;
    Ok((told(&connections), count_posts(alloc, hub)?))
}

/// Each of many that post at once is given its reply or is to try again later, and as many posts are stored as were given a reply.
pub fn show_no_room(rt: &HostRuntime) -> io::Result<()> {
    let alloc = rt.alloc();
    let Ok(mut hub) = tree_hub(alloc, true) else {
        return Err(io::ErrorKind::OutOfMemory.into());
    };
    let posted = post_without_room(alloc, &mut hub);
    let _ = hub.close();
    let Ok(
        (
            Given {
                replies,
                later,
                others,
            },
            stored,
        ),
    ) = posted
    else {
        return Err(io::ErrorKind::OutOfMemory.into());
    };
    println!(rt;
        "no room for all: some are to try again later {}, others {others}, as many stored as answered {}",
        later > 0,
        stored == replies
    )
}
