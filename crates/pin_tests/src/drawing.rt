// Sessions that ask and draw.
use crate::trouble::Trouble;
use group_hub::Hub;
use group_world::{Drawn, InputStatus};
use host_types::Stamp;
use std::alloc::Global;
use word_search::SearchKeeper;

/// A new session with a whole request.
pub fn ask<S: SearchKeeper>(hub: &mut Hub<S>, request: &[u8]) -> Result<u64, Trouble> {
    let id = hub.join()?;
    match hub.bytes(id, request, Stamp::start())? {
        InputStatus::Ready => Ok(id),
        _ => Err(Trouble::Wrong("a request that isn't whole")),
    }
}

/// What so many draws of this room give a session, or less where that is all.
pub fn draw<S: SearchKeeper>(
    alloc: Global,
    hub: &mut Hub<S>,
    id: u64,
    room: usize,
    draws: usize,
) -> Result<Vec<u8>, Trouble> {
    let mut out = vec![in alloc; 0u8; room]?;
    let mut drawn = Vec::new(alloc);
    for _ in 0..draws {
        match hub.draw(id, &mut out)? {
            Drawn::Bytes(count) => drawn.extend_from_slice(out.get(..count).unwrap_or(&[]))?,
            Drawn::Finished => return Ok(drawn),
        }
    }
    Ok(drawn)
}
