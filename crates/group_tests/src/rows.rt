// Events over a site in memory and over one on a disk.
use crate::script::Script;
use crate::shown::shown_all;
use crate::sites::{Image, in_memory, ran_on, run_events};
use crate::trouble::Trouble;
use std::alloc::Global;

/// What is answered in memory.
fn in_memory_shown(alloc: Global, script: &Script) -> Result<String, Trouble> {
    let (outcomes, _) = run_events(alloc, in_memory(alloc)?, true, script.all())?;
    let filled = script.filling().len();
    shown_all(alloc, outcomes.as_slice().get(filled..).unwrap_or(&[]))
}

/// What is answered in an image of so many pages, behind how many commits that took.
pub fn on_disk(alloc: Global, pages: u32, script: &Script) -> Result<String, Trouble> {
    let image = Image::new(alloc, pages, script.filling())?;
    let ran = ran_on(alloc, image.disk(alloc)?, u64::MAX, true, script.events())?;
    let commits = ran.generation.saturating_sub(image.generation);
    let shown = shown_all(alloc, ran.outcomes.as_slice())?;
    Ok(format!(in alloc; "commits {commits}: {shown}")?)
}

/// The same on both; what is answered in memory too where that is something else.
pub fn on_both(alloc: Global, pages: u32, script: &Script) -> Result<String, Trouble> {
    let on_disk = on_disk(alloc, pages, script)?;
    let in_memory = in_memory_shown(alloc, script)?;
    match on_disk.ends_with(&format!(in alloc; ": {in_memory}")?) {
        true => Ok(on_disk),
        false => Ok(format!(in alloc; "{on_disk}; but in memory: {in_memory}")?),
    }
}
