// Sessions that ask by turns.
use crate::asking::reply_text;
use crate::fault::RowFault;
use crate::fields::bytes;
use group_hub::Hub;
use group_world::Drawn;
use host_types::{Bytes, Stamp};
use std::alloc::Global;
use word_search::SearchKeeper;

/// How many turns a request or a reply takes at most.
const MOST_TURNS: usize = 4096;

/// A session, what it asks, and what it was given so far.
#[derive(Drop)]
struct Asker {
    id: u64,
    request: Bytes,
    reply: Vec<u8>,
}

/// Sessions that join, and ask these requests over and over.
fn askers<S: SearchKeeper>(
    alloc: Global,
    hub: &mut Hub<S>,
    count: usize,
    requests: &[&str],
) -> Result<Vec<Asker>, RowFault> {
    let mut askers = Vec::new(alloc);
    for request in requests.iter().cycle().take(count) {
        askers.push(Asker {
            id: hub.join()?,
            request: bytes(alloc, &[request])?,
            reply: Vec::new(alloc),
        })?;
    }
    Ok(askers)
}

/// Each session sends the byte at a place of its request, where there is one, or behind the last one the end of input.
fn send<S: SearchKeeper>(
    hub: &mut Hub<S>,
    askers: &[Asker],
    at: usize,
    now: Stamp,
) -> Result<(), RowFault> {
    for asker in askers {
        let request = asker.request.as_slice();
        if let Some(byte) = request.get(at) {
            let _ = hub.bytes(asker.id, &[*byte], now)?;
        } else if at == request.len() {
            let _ = hub.end(asker.id, now)?;
        }
    }
    Ok(())
}

/// Each session draws one byte, where one is left; whether there was any.
fn draw<S: SearchKeeper>(hub: &mut Hub<S>, askers: &mut [Asker]) -> Result<bool, RowFault> {
    let mut out = [0];
    let mut any = false;
    for asker in askers.iter_mut() {
        if hub.draw(asker.id, &mut out)? != Drawn::Finished {
            asker.reply.push(out[0])?;
            any = true;
        }
    }
    Ok(any)
}

/// The sessions leave; their replies, one line each.
fn text_of_all<S: SearchKeeper>(
    alloc: Global,
    hub: &mut Hub<S>,
    askers: &[Asker],
) -> Result<String, RowFault> {
    let mut lines = String::new(alloc);
    for asker in askers {
        hub.leave(asker.id)?;
        if !lines.is_empty() {
            lines.push('\n')?;
        }
        lines.push_str(&reply_text(alloc, &asker.reply)?)?;
    }
    Ok(lines)
}

/// So many sessions send their requests and draw their replies by turns of one byte.
pub fn by_turns<S: SearchKeeper>(
    alloc: Global,
    hub: &mut Hub<S>,
    count: usize,
    requests: &[&str],
    now: Stamp,
) -> Result<String, RowFault> {
    let mut askers = askers(alloc, hub, count, requests)?;
    for at in 0..MOST_TURNS {
        send(hub, &askers, at, now)?;
    }
    for _ in 0..MOST_TURNS {
        if !draw(hub, &mut askers)? {
            break;
        }
    }
    text_of_all(alloc, hub, &askers)
}
