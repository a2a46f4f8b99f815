// Keys, records and parts.
use crate::bench::{Bench, on_held};
use crate::items::{entries, item};
use crate::line::{Line, number, small_number};
use crate::trouble::Trouble;
use host_types::{Bytes, Item, MOST_VIEW_BYTES, Selector, Stamp};
use site_records::{
    Key, LONGEST_KEY, LONGEST_RECORD, LONGEST_RECORD_V1, Record, RecordBody, chunk_count,
    chunk_key, entries_bytes, item_key, questions_bytes, read_entries, read_questions, read_record,
    read_record_v1, record_of, record_of_v1, word_key,
};
use std::alloc::Global;

/// `word_key WORD SELECTOR`: the key, which is above the item's and the same each time.
fn show_word_key(line: &mut Line, word: &[u8], selector: &[u8]) -> Result<(), Trouble> {
    if word.len() > 32 {
        return Err(Trouble::Line);
    }
    let selector = Selector::new(selector)?;
    let key = word_key(word, &selector);
    line.bytes(key.as_bytes())?;
    match key > item_key(&selector) && key == word_key(word, &selector) {
        true => Ok(()),
        false => Err(Trouble::Wrong("its place")),
    }
}

/// `item_key SELECTOR`
fn show_item_key(line: &mut Line, selector: &[u8]) -> Result<(), Trouble> {
    line.bytes(item_key(&Selector::new(selector)?).as_bytes())
}

/// `chunk_key SELECTOR PART PLACE`
fn show_chunk_key(
    line: &mut Line,
    selector: &[u8],
    part: &[u8],
    place: &[u8],
) -> Result<(), Trouble> {
    let selector = Selector::new(selector)?;
    let Ok(part) = u8::try_from(small_number(part)?) else {
        return Err(Trouble::Line);
    };
    line.bytes(chunk_key(&selector, part, small_number(place)?).as_bytes())
}

/// `chunk_count SIZE`
fn show_chunk_count(line: &mut Line, size: &[u8]) -> Result<(), Trouble> {
    let size = number(size)?;
    if size > MOST_VIEW_BYTES as u64 {
        return Err(Trouble::Line);
    }
    line.number(chunk_count(size as usize) as u64)
}

/// `longest`: the length of the longest key, of the longest record, and of the longest of version 1.
fn show_longest(line: &mut Line) -> Result<(), Trouble> {
    line.number(LONGEST_KEY as u64)?;
    line.number(LONGEST_RECORD as u64)?;
    line.number(LONGEST_RECORD_V1 as u64)
}

/// `read_entries BYTES`: how many they are; they are written with the same bytes.
fn show_entries(alloc: Global, line: &mut Line, bytes: &[u8]) -> Result<(), Trouble> {
    let entries = read_entries(alloc, bytes)?;
    if entries_bytes(alloc, &entries)?.as_slice() != bytes {
        return Err(Trouble::Wrong("other bytes"));
    }
    line.number(entries.as_slice().len() as u64)
}

/// `read_questions BYTES`: how many they are; they are written with the same bytes.
fn show_questions(alloc: Global, line: &mut Line, bytes: &[u8]) -> Result<(), Trouble> {
    let questions = read_questions(alloc, bytes)?;
    if questions_bytes(alloc, &questions)?.as_slice() != bytes {
        return Err(Trouble::Wrong("other bytes"));
    }
    line.number(questions.as_slice().len() as u64)
}

/// The moment of expiry of a record, where it has one, and of a board its numbers.
fn show_numbers(line: &mut Line, record: &Record) -> Result<(), Trouble> {
    if let Some(until) = record.until {
        line.number(until.seconds())?;
    }
    if let RecordBody::Board { cap, next } = record.body {
        line.number(u64::from(cap))?;
        line.number(next)?;
    }
    Ok(())
}

/// `read_record BYTES`: what it says in numbers; it is written with the same bytes.
fn show_record(alloc: Global, line: &mut Line, bytes: &[u8]) -> Result<(), Trouble> {
    let record = read_record(alloc, bytes)?;
    if record.to_bytes(alloc)?.as_slice() != bytes {
        return Err(Trouble::Wrong("other bytes"));
    }
    show_numbers(line, &record)
}

/// `read_record_v1 BYTES`: the same of version 1.
fn show_record_v1(alloc: Global, line: &mut Line, bytes: &[u8]) -> Result<(), Trouble> {
    let record = read_record_v1(alloc, bytes)?;
    if record.to_bytes_v1(alloc)?.as_slice() != bytes {
        return Err(Trouble::Wrong("other bytes"));
    }
    show_numbers(line, &record)
}

/// The record of an item.
fn written(alloc: Global, item: &Item) -> Result<Bytes, Trouble> {
    if item.is_long(&Selector::root()) {
        return Err(Trouble::Line);
    }
    Ok(record_of(alloc, item)?)
}

/// `record ITEM`: the bytes that are written.
fn write_record(
    alloc: Global,
    now: Stamp,
    line: &mut Line,
    fields: &[Vec<u8>],
) -> Result<(), Trouble> {
    let item = item(alloc, now, fields)?;
    line.bytes(written(alloc, &item)?.as_slice())
}

/// `record_until SECONDS ITEM`: the bytes of an item that is found until then.
fn write_until(
    alloc: Global,
    now: Stamp,
    line: &mut Line,
    seconds: &[u8],
    fields: &[Vec<u8>],
) -> Result<(), Trouble> {
    let mut item = item(alloc, now, fields)?;
    item.until = Some(Stamp::new(number(seconds)?)?);
    line.bytes(written(alloc, &item)?.as_slice())
}

/// `record_v1 ITEM`: the bytes of version 1.
fn write_record_v1(
    alloc: Global,
    now: Stamp,
    line: &mut Line,
    fields: &[Vec<u8>],
) -> Result<(), Trouble> {
    let item = item(alloc, now, fields)?;
    if item.is_long(&Selector::root()) {
        return Err(Trouble::Line);
    }
    line.bytes(record_of_v1(alloc, &item)?.as_slice())
}

/// `entries ENTRY ..`: the bytes that are written.
fn write_entries(alloc: Global, line: &mut Line, fields: &[Vec<u8>]) -> Result<(), Trouble> {
    let entries = entries(alloc, fields)?;
    line.bytes(entries_bytes(alloc, &entries)?.as_slice())
}

/// The words of moments of expiry, and of records of version 1.
fn of_versions(
    bench: &mut Bench,
    line: &mut Line,
    word: &str,
    fields: &[Vec<u8>],
) -> Result<(), Trouble> {
    match (word, fields) {
        ("record_until", [seconds, rest @ ..]) => {
            write_until(bench.alloc, bench.now, line, seconds, rest)
        }
        ("record_v1", all) => write_record_v1(bench.alloc, bench.now, line, all),
        ("read_record_v1", [bytes]) => show_record_v1(bench.alloc, line, bytes),
        _ => on_held(bench, line, word, fields),
    }
}

/// The words of keys.
fn of_keys(
    bench: &mut Bench,
    line: &mut Line,
    word: &str,
    fields: &[Vec<u8>],
) -> Result<(), Trouble> {
    match (word, fields) {
        ("item_key", [selector]) => show_item_key(line, selector),
        ("chunk_key", [selector, part, place]) => show_chunk_key(line, selector, part, place),
        ("word_key", [word, selector]) => show_word_key(line, word, selector),
        ("chunk_count", [size]) => show_chunk_count(line, size),
        ("longest", []) => show_longest(line),
        _ => of_versions(bench, line, word, fields),
    }
}

/// The words of keys, records and parts, and those of what is held.
pub fn call(
    bench: &mut Bench,
    line: &mut Line,
    word: &str,
    fields: &[Vec<u8>],
) -> Result<(), Trouble> {
    match (word, fields) {
        ("entries", all) => write_entries(bench.alloc, line, all),
        ("record", all) => write_record(bench.alloc, bench.now, line, all),
        ("read_entries", [bytes]) => show_entries(bench.alloc, line, bytes),
        ("read_questions", [bytes]) => show_questions(bench.alloc, line, bytes),
        ("read_record", [bytes]) => show_record(bench.alloc, line, bytes),
        _ => of_keys(bench, line, word, fields),
    }
}
