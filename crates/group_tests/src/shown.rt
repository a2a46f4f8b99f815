// Outcomes as they are printed.
use crate::trouble::Trouble;
use group_world::Outcome;
use std::alloc::{AllocError, Global};

/// The most bytes of a draw that are printed; of a longer one the count is.
const MOST_SHOWN: usize = 600;

/// The bytes of a draw.
fn drawn(alloc: Global, bytes: &[u8]) -> Result<String, AllocError> {
    if bytes.len() > MOST_SHOWN {
        return format!(in alloc; "{} bytes", bytes.len());
    }
    match std::str::from_utf8(bytes) {
        Ok(text) => format!(in alloc; "{text:?}"),
        Err(_) => String::from_str(alloc, "no text"),
    }
}

/// An outcome. A session that joins has the next number.
fn shown(alloc: Global, outcome: &Outcome, next: u64) -> Result<String, AllocError> {
    match outcome {
        Outcome::Joined(id) if *id == next => String::from_str(alloc, "joined"),
        Outcome::Joined(id) => format!(in alloc; "joined {id}"),
        Outcome::More => String::from_str(alloc, "more"),
        Outcome::Ready => String::from_str(alloc, "ready"),
        Outcome::Finished => String::from_str(alloc, "finished"),
        Outcome::Waiting => String::from_str(alloc, "waiting"),
        Outcome::Drawn(bytes) => drawn(alloc, bytes.as_slice()),
        Outcome::Gone => String::from_str(alloc, "gone"),
        Outcome::Done => String::from_str(alloc, "done"),
        Outcome::Flushed { answered, left } => {
            format!(in alloc; "flushed {answered} left {left}")
        }
        Outcome::Fault(fault) => format!(in alloc; "{fault}"),
    }
}

/// Adds what stands so many times in a row.
fn add(alloc: Global, all: &mut String, text: &str, times: u32) -> Result<(), AllocError> {
    if times == 0 {
        return Ok(());
    }
    if !all.is_empty() {
        all.push_str("; ")?;
    }
    all.push_str(text)?;
    if times > 1 {
        all.push_str(&format!(in alloc; " x{times}")?)?;
    }
    Ok(())
}

/// All outcomes in order. What stands several times in a row is printed once, with how often.
pub fn shown_all(alloc: Global, outcomes: &[Outcome]) -> Result<String, Trouble> {
    let mut all = String::new(alloc);
    let mut before = String::new(alloc);
    let (mut times, mut next) = (0u32, 1u64);
    for outcome in outcomes {
        let text = shown(alloc, outcome, next)?;
        if let Outcome::Joined(id) = outcome {
            next = id.saturating_add(1);
        }
        if text.as_str() != before.as_str() {
            add(alloc, &mut all, &before, times)?;
            before = text;
            times = 0;
        }
        times = times.saturating_add(1);
    }
    add(alloc, &mut all, &before, times)?;
    Ok(all)
}
