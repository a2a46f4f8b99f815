//! Tests of the keeper of a tree. The program makes a commit again that found no memory: with each allocation refused in turn it prints the same.
//!
//! Then it makes the calls of standard input, `WORD FIELD ..`, each over images in memory. A call prints `ok` and what it gave, or why it gave nothing. Empty
//! lines and those that begin with `#` stand for themselves.
//!
//! - `random SEED BATCHES` commits batches to a tree and to flat pages, and compares them.
//! - `crashes HEIGHT BATCH` ends the commit of a batch, `new`, `over`, `delete` or `split`, at each call of the device, and opens what may be left.
//! - `switched` commits over root slots of generations 98 and 99; `torn HALF` opens an image whose newer root slot has lost that half, 0 or 1, and `both_torn HALF` one with
//!   two such slots; `spent SECTORS` commits where so many sectors of the second slot are of the last generation.
//! - `opening HEIGHT` counts the calls of an opening.
//! - `room` fills an image of 16 pages; `one_more PAIRS` puts another pair into one with so many; `emptied PAIRS` takes all from it.
#![tactic(auto)]

mod batches;
mod bench;
mod crashes;
mod full;
mod made;
mod opening;
mod pairs;
mod random;
mod roots;
mod trial;
mod trouble;

use bench::call;
use std::alloc::Global;
use std::io;
use trial::trial;
use trouble::Trouble;

/// What is printed for a line: an empty one and a comment stand for themselves.
fn answer(alloc: Global, text: &str) -> Result<String, Trouble> {
    if text.is_empty() || text.starts_with('#') {
        return Ok(String::from_str(alloc, text)?);
    }
    match call(alloc, text) {
        Ok(shown) => Ok(format!(in alloc; "ok{shown}")?),
        Err(trouble) => Ok(format!(in alloc; "{trouble}")?),
    }
}

fn main(rt: HostRuntime) -> io::Result<()> {
    let alloc = rt.alloc();
    match trial(alloc) {
        Ok((pairs, free)) => println!(rt; "{pairs} pairs, {free} pages free")?,
        Err(trouble) => println!(rt; "{trouble}")?,
    }
    for text in rt.lines(alloc) {
        match answer(alloc, text?.as_str()) {
            Ok(shown) => println!(rt; "{}", shown.as_str())?,
            Err(trouble) => println!(rt; "{trouble}")?,
        }
    }
    Ok(())
}
