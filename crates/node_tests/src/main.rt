//! Tests of nodes and of the ledger. The program makes a commit again that found no memory: with each allocation refused in turn it prints the same.
//!
//! Then it makes the calls of standard input, `WORD FIELD ..`, over a tree and an image in memory. A call prints `ok` and what it gave, or why it gave nothing. Empty
//! lines and those that begin with `#` stand for themselves. Bytes are written by their digits: `6b*299+01` is 299 times the byte 6b, and 01.
//!
//! - `new` begins anew. `put KEY VALUE`, `delete KEY`, `needed KEY` and `supply KEY PAGE` are the calls of the tree; `commit` writes it, and `abandon` goes back to what the
//!   last commit wrote. `shape` prints its height, its nodes, and how many pages are free: a leaf by the count of its pairs, a page by `#` and its number, a branch by its
//!   children.
//! - `encode PAGE GENERATION` is the tree's one leaf as a page. `read PAGE LEVEL` is the node that a page of the image says; `get PAGE KEY`, `after PAGE KEY` and `page_of PAGE
//!   KEY` look into a page; `between PAGE LEVEL LOW HIGH` counts its entries, where its keys lie between two.
//! - `random SEED CHANGES` runs puts and deletes beside a sorted map, compares after each, and takes all keys away in the end. `ledger` makes the calls of a ledger. Both print
//!   the numbers that `Run::figures` and `free_counts` name. `laws` calls the laws.
//! - What `bench/nodes` times: `puts FIRST MANY` and `deletes FIRST MANY` change the pairs of so many numbers, and print how many changes were made; `pairs` prints the height of the tree, and
//!   how many pairs are in memory. `reads PAGE MANY` reads a leaf, and prints how often, and the pairs of all readings. `takes PAGES STEP MANY` makes commits of a ledger, and prints what
//!   `take_many` gives.
#![tactic(auto)]

mod bench;
mod commits;
mod fields;
mod image;
mod laws;
mod ledger;
mod random;
mod shown;
mod store;
mod timed;
mod trial;
mod trouble;
mod walk;

use bench::Bench;
use shown::Shown;
use std::alloc::Global;
use std::io;
use trial::trial;
use trouble::Trouble;

/// What is printed for a line: an empty one and a comment stand for themselves.
fn answer(bench: &mut Bench, alloc: Global, text: &str) -> Result<String, Trouble> {
    if text.is_empty() || text.starts_with('#') {
        return Ok(String::from_str(alloc, text)?);
    }
    let mut shown = Shown::new(alloc);
    match bench.call(text, &mut shown) {
        Ok(()) => Ok(format!(in alloc; "ok{}", shown.text)?),
        Err(trouble) => Ok(format!(in alloc; "{trouble}")?),
    }
}

fn main(rt: HostRuntime) -> io::Result<()> {
    let alloc = rt.alloc();
    match trial(alloc) {
        Ok((height, pairs, pages)) => println!(rt;
            "height {height}, {pairs} pairs, {pages} pages"
        )?,
        Err(trouble) => println!(rt; "{trouble}")?,
    }
    let Ok(mut bench) = Bench::new(alloc) else {
        return Ok(());
    };
    for text in rt.lines(alloc) {
        match answer(&mut bench, alloc, text?.as_str()) {
            Ok(shown) => println!(rt; "{}", shown.as_str())?,
            Err(trouble) => println!(rt; "{trouble}")?,
        }
    }
    Ok(())
}
