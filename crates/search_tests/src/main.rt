//! Tests of searches over the keys of words. The program makes the calls of standard input, `WORD FIELD ..`, on a site that it has twice: over a tree on a disk in memory, and in memory. A call prints `ok` and what
//! it gave, or why it gave nothing. Empty lines and those that begin with `#` stand for themselves.
//!
//! - `new` begins with a new site of a top menu.
//! - `put SELECTOR TITLE TEXT` puts a text whose title is one word, `fill FIRST LAST FRONT WORD` a text of that word at the front and each number, in three digits; `remove SELECTOR`, `move FROM TO`.
//! - `until SECONDS SELECTOR TITLE TEXT` puts a text that is found before that moment alone. `now SECONDS`: the moment of searches, 0 before.
//! - `search SCOPE WORDS` prints how many items are found, and which. They are searched over the keys of words, by a look at each item on the disk, and in memory: all three have to find the same.
//! - `pages TIMES SCOPE WORDS` searches the disk so often, and prints how many items are found in all, and how many pages were read. `image PATH` puts the site of an image in the place of the one on the disk alone:
//!   `bench/items` gives it large ones.
//! - `random SEED SITES` makes random changes of so many sites, compares the three searches after each, and prints how many queries found how much; `random_ends SEED SITES` the same of items of which half have an end, and queries
//!   at any moment.
#![tactic(auto)]

mod batches;
mod counting;
mod made;
mod random;
mod rows;
mod sites;
mod trouble;

use rows::call;
use sites::Sites;
use std::io;
use trouble::Trouble;

/// What is printed for a row: an empty one and a comment stand for themselves.
fn answer(rt: &HostRuntime, sites: &mut Sites, text: &str) -> Result<String, Trouble> {
    let alloc = rt.alloc();
    if text.is_empty() || text.starts_with('#') {
        return Ok(String::from_str(alloc, text)?);
    }
    match call(rt, sites, text) {
        Ok(shown) => Ok(format!(in alloc; "ok{shown}")?),
        Err(trouble) => Ok(format!(in alloc; "{trouble}")?),
    }
}

fn main(rt: HostRuntime) -> io::Result<()> {
    let alloc = rt.alloc();
    let Ok(mut sites) = Sites::new(alloc) else {
        println!(rt; "memory")?;
        return Ok(());
    };
    for text in rt.lines(alloc) {
        match answer(&rt, &mut sites, text?.as_str()) {
            Ok(shown) => println!(rt; "{}", shown.as_str())?,
            Err(trouble) => println!(rt; "{trouble}")?,
        }
    }
    Ok(())
}
