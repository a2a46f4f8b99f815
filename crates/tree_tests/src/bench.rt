// Which call a word names.
use crate::trouble::Trouble;
use crate::{crashes, full, opening, random, roots};
use std::alloc::Global;

/// The number that decimal digits write.
fn number(field: &str) -> Result<u16, Trouble> {
    field.parse::<u16>().or(Err(Trouble::Line))
}

/// Two fields with a space between them.
fn two_of(fields: &str) -> Result<(&str, &str), Trouble> {
    match fields.split_once(' ') {
        Some(two) => Ok(two),
        None => Err(Trouble::Line),
    }
}

/// `random SEED BATCHES`
fn random(alloc: Global, fields: &str) -> Result<String, Trouble> {
    let (seed, batches) = two_of(fields)?;
    let run = random::Run::new(alloc, number(seed)?.into())?;
    let seen = run.run(number(batches)?.into())?;
    let (commits, edits, full) = (seen.commits, seen.edits, seen.full);
    let (pairs, free, height) = (seen.pairs, seen.free, seen.height);
    Ok(format!(in alloc;
        " {commits} commits of {edits} edits, {full} full; at most {pairs} pairs and height {height}, at least {free} pages free"
    )?)
}

/// `crashes HEIGHT BATCH`
fn crashes(alloc: Global, fields: &str) -> Result<String, Trouble> {
    let (height, word) = two_of(fields)?;
    let height = number(height)?;
    let image = crashes::used_image(alloc, height)?;
    let seen = crashes::survives(alloc, &image, &crashes::batch_of(alloc, height, word)?)?;
    let (crashes, images, new) = (seen.crashes, seen.images, seen.new);
    Ok(format!(in alloc; " {crashes} crashes, {images} images, {new} of them new")?)
}

/// `opening HEIGHT`
fn opening(alloc: Global, height: &str) -> Result<String, Trouble> {
    let opening::Seen { calls, held } = opening::opening(alloc, number(height)?)?;
    Ok(format!(in alloc; " {calls} calls for the root slots and {held} pages")?)
}

/// `switched`
fn switched(alloc: Global) -> Result<String, Trouble> {
    let seen = roots::switched(alloc)?;
    let (before, after, slot) = (seen.before, seen.after, seen.slot);
    Ok(format!(in alloc; " {before} and then {after} in slot {slot}")?)
}

/// `torn HALF`
fn torn(alloc: Global, half: &str) -> Result<String, Trouble> {
    let (opened, next) = roots::torn(alloc, number(half)?.into())?;
    Ok(format!(in alloc; " {opened} and then {next}")?)
}

/// `room`
fn room(alloc: Global) -> Result<String, Trouble> {
    let pairs = full::room(alloc)?;
    Ok(format!(in alloc; " {pairs} pairs")?)
}

/// `emptied PAIRS`
fn emptied(alloc: Global, pairs: &str) -> Result<String, Trouble> {
    let [filled, one_less, none] = full::emptied(alloc, pairs_of(pairs)?)?;
    Ok(format!(in alloc; " {filled} free, {one_less} and then {none}")?)
}

/// A count of pairs.
fn pairs_of(field: &str) -> Result<u8, Trouble> {
    field.parse::<u8>().or(Err(Trouble::Line))
}

/// What a call gives where it gives nothing else.
fn nothing(alloc: Global, answer: Result<(), Trouble>) -> Result<String, Trouble> {
    answer?;
    Ok(String::new(alloc))
}

/// Makes the call of a line.
pub fn call(alloc: Global, text: &str) -> Result<String, Trouble> {
    let (word, fields) = text.split_once(' ').unwrap_or((text, ""));
    match word {
        "random" => random(alloc, fields),
        "crashes" => crashes(alloc, fields),
        "opening" => opening(alloc, fields),
        "switched" => switched(alloc),
        "torn" => torn(alloc, fields),
        "both_torn" => nothing(alloc, roots::both_torn(alloc, number(fields)?.into())),
        "spent" => nothing(alloc, roots::spent(alloc, number(fields)?.into())),
        "room" => room(alloc),
        "one_more" => nothing(alloc, full::one_more(alloc, pairs_of(fields)?)),
        "emptied" => emptied(alloc, fields),
        _ => Err(Trouble::Line),
    }
}
