//! Tests of files of changes. Standard input has such files, each ended by a line that begins with `%`, which is printed again:
//!
//! - `% read` prints what the file says, a line for each change, or why it says nothing.
//! - `% apply SECONDS` makes its changes on a new site in memory at that moment, and prints how many they were, or the one that was not made; the change that was seen last, and of how many; then each item
//!   of the site.
//! - `% bytes DIGITS` reads the bytes of these hexadecimal digits as a file.
//!
//! Empty lines and those that begin with `#` are lines of the file too, as TOML has them.
#![tactic(auto)]

mod bench;
mod shown;

use bench::Bench;
use std::io;

fn main(rt: HostRuntime) -> io::Result<()> {
    let mut bench = Bench::new(rt.alloc());
    for line in rt.lines(rt.alloc()) {
        let line = line?;
        let text = line.as_str();
        match text.strip_prefix("% ") {
            Some(call) => {
                println!(rt; "{text}")?;
                println!(rt; "{}", bench.call(call)?.as_str())?;
            }
            None => bench.add(text)?,
        }
    }
    Ok(())
}
