//! Calls of what the protocol is made of, one for each line of standard input: `WORD FIELD FIELD ..`. Each line prints one: `ok` and what the
//! call gave, or `fault` and why it gave nothing. Lines that begin with `#` are printed as they are.
//! Each module makes the calls of its own words, and hands other words to the next: names, links, replays, texts of faults, requests, sites,
//! forms, replies.
#![tactic(auto)]

mod bench;
mod failing_site;
mod fault_text;
mod forms;
mod items;
mod line;
mod links;
mod names;
mod pipes;
mod replays;
mod replies;
mod requests;
mod sites;
mod trouble;

use bench::Bench;
use line::{Line, fields_of};
use std::alloc::{AllocError, Global};
use std::io;
use trouble::Trouble;

/// Makes the call of a line.
fn call(bench: &mut Bench, line: &mut Line, text: &str) -> Result<(), Trouble> {
    let Some((word, rest)) = text.split_once(' ') else {
        return names::call(bench, line, text, &[]);
    };
    let fields = fields_of(bench.alloc, rest)?;
    names::call(bench, line, word, &fields)
}

/// What is printed for a line.
fn answer(bench: &mut Bench, text: &str) -> Result<String, AllocError> {
    let alloc = bench.alloc;
    if text.starts_with('#') {
        return String::from_str(alloc, text);
    }
    let mut line = Line::new(alloc)?;
    match call(bench, &mut line, text) {
        Ok(()) => String::from_str(alloc, line.as_str()),
        Err(trouble) => format!(in alloc; "fault {trouble}"),
    }
}

fn main(rt: HostRuntime) -> io::Result<()> {
    let alloc = rt.alloc();
    let mut bench = Bench::new(alloc)?;
    for text in rt.lines(alloc) {
        let printed = answer(&mut bench, &text?)?;
        println!(rt; "{printed}")?;
    }
    Ok(())
}
