//! One run of what takes memory: changes, requests, a post and a search. It makes each call again that found no memory, and prints the same
//! lines whichever allocation is refused.
#![tactic(auto)]

mod site;
mod trial;

use std::io;
use std::process::ExitCode;
use trial::{PLACES, Trial, drawn};

fn main(rt: HostRuntime) -> io::Result<ExitCode> {
    let mut trial = Trial::new();
    let ended = trial.run(rt.alloc());
    for place in 0..PLACES {
        match std::str::from_utf8(drawn(&trial.replies[place])) {
            Ok(text) => println!(rt; "{text:?}")?,
            Err(_) => println!(rt; "no text")?,
        }
    }
    Ok(match ended {
        Ok(()) => ExitCode::SUCCESS,
        Err(_) => ExitCode::FAILURE,
    })
}
