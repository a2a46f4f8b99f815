// The calls of the run, each made at most twice.
use crate::site::{CHANGES, Ended, change, small_site};
use group_hub::{Hub, OutcomeList};
use group_world::{Drawn, Event, InputStatus, Outcome};
use host_types::{Bytes, Stamp};
use mem_site::MemSite;
use std::alloc::Global;

/// How much of a reply is kept.
pub const ROOM: usize = 128;

/// How many replies are kept: those to the requests, and the first one as a run gives it.
pub const PLACES: usize = 7;

/// A document, a post, the post, the board with it, a search, and the attributes of the form.
const REQUESTS: [&[u8]; 6] = [
    b"/about\r\n",
    b"/sign\t+\t1\r\n+-1\r\nAnn\r\n.\r\n",
    b"post//book/1\r\n",
    b"/book\r\n",
    b"/find\thello\r\n",
    b"/sign\t!+ASK\r\n",
];

/// The replies.
#[derive(Drop)]
pub(crate) struct Trial {
    pub replies: [[u8; ROOM]; PLACES],
}

/// A hub over the small site. Where a hub finds no memory it hands the site back.
fn new_hub(alloc: Global) -> Result<Hub<MemSite>, Ended> {
    let site = match small_site(alloc) {
        Ok(site) => site,
        Err(_) => small_site(alloc)?,
    };
    let site = match Hub::new(alloc, site, 1) {
        Ok(hub) => return Ok(hub),
        Err((_, site)) => site,
    };
    match Hub::new(alloc, site, 1) {
        Ok(hub) => Ok(hub),
        Err(_) => Err(Ended::Memory),
    }
}

fn fill(alloc: Global, hub: &mut Hub<MemSite>, place: usize) -> Result<(), Ended> {
    Ok(hub.admin(change(alloc, place)?, Stamp::start())?)
}

/// Asks in a session of its own, and keeps what is drawn.
fn ask(hub: &mut Hub<MemSite>, request: &[u8], reply: &mut [u8]) -> Result<(), Ended> {
    let id = hub.join()?;
    let heard = match hub.bytes(id, request, Stamp::start()) {
        Ok(heard) => heard,
        Err(_) => hub.bytes(id, request, Stamp::start())?,
    };
    if heard != InputStatus::Ready {
        return Err(Ended::Other);
    }
    match hub.draw(id, reply)? {
        Drawn::Bytes(_) => Ok(hub.leave(id)?),
        Drawn::Finished => Err(Ended::Other),
    }
}

/// A piece and a draw of a session, as a run. A refusal may come of the run, or of the piece alone.
fn ask_in_a_run(
    alloc: Global,
    hub: &mut Hub<MemSite>,
    id: u64,
    request: &[u8],
) -> Result<OutcomeList, Ended> {
    let piece = Bytes::from_slice(alloc, request)?;
    let now = Stamp::start();
    let events = [
        Event::Bytes { id, piece, now },
        Event::Draw { id, room: ROOM },
    ];
    let outcomes = hub.run(&events)?;
    match outcomes.as_slice() {
        [Outcome::Ready, Outcome::Drawn(_)] => Ok(outcomes),
        [Outcome::Fault(fault), _] => Err(Ended::from(*fault)),
        _ => Err(Ended::Other),
    }
}

/// Asks as a run, and keeps what is drawn.
fn ask_again(
    alloc: Global,
    hub: &mut Hub<MemSite>,
    request: &[u8],
    reply: &mut [u8],
) -> Result<(), Ended> {
    let id = hub.join()?;
    let outcomes = match ask_in_a_run(alloc, hub, id, request) {
        Ok(outcomes) => outcomes,
        Err(_) => ask_in_a_run(alloc, hub, id, request)?,
    };
    if let [_, Outcome::Drawn(bytes)] = outcomes.as_slice() {
        for (to, from) in reply.iter_mut().zip(bytes.as_slice()) {
            *to = *from;
        }
    }
    Ok(())
}

impl Trial {
    pub fn new() -> Self {
        Trial {
            replies: [[0; ROOM]; PLACES],
        }
    }

    /// All calls over a hub.
    fn run_over(&mut self, alloc: Global, hub: &mut Hub<MemSite>) -> Result<(), Ended> {
        for place in 0..CHANGES {
            if fill(alloc, hub, place).is_err() {
                fill(alloc, hub, place)?;
            }
        }
        for place in 0..REQUESTS.len() {
            ask(hub, REQUESTS[place], &mut self.replies[place])?;
        }
        ask_again(alloc, hub, REQUESTS[0], &mut self.replies[6])
    }

    /// Makes all calls.
    pub fn run(&mut self, alloc: Global) -> Result<(), Ended> {
        let mut hub = new_hub(alloc)?;
        let ended = self.run_over(alloc, &mut hub);
        let _ = hub.close();
        ended
    }
}

/// The bytes before the first 0.
pub fn drawn(bytes: &[u8; ROOM]) -> &[u8] {
    match bytes.iter().position(|byte| *byte == 0) {
        Some(end) => &bytes[..end],
        None => bytes,
    }
}
