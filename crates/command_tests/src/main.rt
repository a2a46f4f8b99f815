//! Tests of the commands on an image, over a disk in memory. Each line of standard input is a call, `WORD FIELD ..`, and what it printed is printed, or the
//! line of its fault, and what that advises. Empty lines and those that begin with `#` stand for themselves.
//!
//! - `disk SECTORS` puts a new disk of zeros in the place of the one before.
//! - `format PAGES HOST PORT ADMIN TITLE`, `show` and `check` are the commands; `size PAGES` says how many sectors such an image has.
//! - `text SELECTOR TITLE BODY`, `menu TITLE LOCAL INFO`, `move FROM TO` change the site.
//! - `seal N` makes the second root slot one like the first, of generation N.
//! - `faults` prints the lines of all faults.
//!
//! Fields are unescaped. All moments are 743878921.
#![tactic(auto)]

mod bench;
mod changes;
mod faults;
mod trouble;

use bench::Bench;
use std::io;

fn main(rt: HostRuntime) -> io::Result<()> {
    let mut bench = Bench::new(rt.alloc())?;
    for text in rt.lines(rt.alloc()) {
        let text = text?;
        if text.is_empty() || text.starts_with('#') {
            println!(rt; "{}", text.as_str())?;
            continue;
        }
        let shown = bench.answer(text.as_str())?;
        println!(rt; "{}", shown.as_str())?;
    }
    Ok(())
}
