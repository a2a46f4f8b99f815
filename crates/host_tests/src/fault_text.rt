// What is printed of faults and of posts that wait, and a site that refuses what its own reads allow.
use crate::bench::Bench;
use crate::failing_site::FailingSite;
use crate::line::Line;
use crate::requests;
use crate::trouble::Trouble;
use group_hub::{Hub, OutcomeList};
use group_world::{Event, HubFault, Outcome};
use host_script::{ReplayFault, fault_line, fault_text, line_of, small_site};
use host_types::{Bytes, Refused};
use std::alloc::Global;

/// Whether the line of a fault is `fault` and its text.
fn agrees(alloc: Global, fault: HubFault) -> Result<(), Trouble> {
    if fault_line(alloc, fault)? == format!(in alloc; "fault {fault}")? {
        Ok(())
    } else {
        Err(Trouble::Differs)
    }
}

/// `refusals`: the name of each refusal, where the two ways to print it agree.
fn refusals(alloc: Global, line: &mut Line) -> Result<(), Trouble> {
    for refused in [
        Refused::BadName,
        Refused::TooLong,
        Refused::Reserved,
        Refused::Missing,
        Refused::NotEmpty,
        Refused::Root,
        Refused::NotABoard,
        Refused::WrongAnswers,
        Refused::WrongWord,
        Refused::Spent,
    ] {
        agrees(alloc, HubFault::Refused(refused))?;
        line.word(&refused.to_string(alloc)?)?;
    }
    Ok(())
}

/// `hub_faults`: the same of the other faults of a hub.
fn hub_faults(alloc: Global, line: &mut Line) -> Result<(), Trouble> {
    for fault in [
        HubFault::Unknown,
        HubFault::Crowded,
        HubFault::Spent,
        HubFault::Full { need: 9, free: 7 },
        HubFault::Broken,
        HubFault::Failed,
        HubFault::Memory,
        HubFault::NotReady,
        HubFault::Deep,
    ] {
        agrees(alloc, fault)?;
        line.bytes(fault.to_string(alloc)?.as_bytes())?;
    }
    Ok(())
}

/// `run_faults`: the same of what ends a run.
fn run_faults(alloc: Global, line: &mut Line) -> Result<(), Trouble> {
    for fault in [
        ReplayFault::Script(1),
        ReplayFault::Script(u64::MAX),
        ReplayFault::Memory,
        ReplayFault::Output,
    ] {
        let text = fault_text(alloc, &fault)?;
        if text != fault.to_string(alloc)? {
            return Err(Trouble::Differs);
        }
        line.bytes(text.as_bytes())?;
    }
    Ok(())
}

/// `waiting`: the lines of a post that waits, and of flushes.
fn waiting(alloc: Global, line: &mut Line) -> Result<(), Trouble> {
    for outcome in [
        Outcome::Waiting,
        Outcome::Flushed {
            answered: 15,
            left: 1,
        },
        Outcome::Flushed {
            answered: 0,
            left: 0,
        },
    ] {
        line.bytes(line_of(alloc, &outcome)?.as_bytes())?;
    }
    Ok(())
}

fn show_outcomes(alloc: Global, line: &mut Line, outcomes: &OutcomeList) -> Result<(), Trouble> {
    for outcome in outcomes.as_slice() {
        line.bytes(line_of(alloc, outcome)?.as_bytes())?;
    }
    Ok(())
}

/// `refusing REQUEST`: what a session is answered where the site refuses the post that its reads allow. The site is gone then.
fn refusing(bench: &mut Bench, line: &mut Line, request: &[u8]) -> Result<(), Trouble> {
    let alloc = bench.alloc;
    let piece = Bytes::from_slice(alloc, request)?;
    let now = bench.now;
    let events = [
        Event::Join,
        Event::Bytes { id: 1, piece, now },
        Event::Draw { id: 1, room: 8 },
    ];
    let site = std::mem::replace(&mut bench.site, small_site(alloc)?);
    let Ok(mut hub) = Hub::new(alloc, FailingSite::refusing(site), 1) else {
        return Err(Trouble::Line);
    };
    let answered = hub.run(&events);
    let _ = hub.close();
    show_outcomes(alloc, line, &answered?)
}

pub fn call(
    bench: &mut Bench,
    line: &mut Line,
    word: &str,
    fields: &[Vec<u8>],
) -> Result<(), Trouble> {
    match (word, fields) {
        ("refusals", []) => refusals(bench.alloc, line),
        ("hub_faults", []) => hub_faults(bench.alloc, line),
        ("run_faults", []) => run_faults(bench.alloc, line),
        ("waiting", []) => waiting(bench.alloc, line),
        ("refusing", [request]) => refusing(bench, line, request),
        _ => requests::call(bench, line, word, fields),
    }
}
