// Reading the entries of a menu.
ghost use Rattle.std.specs.Prelude.{◌≡◌, ◌∷◌, ◌++◌, [], IfOk, IfErr, IsTrue, List, Some, None};
ghost use Rattle.site_records.specs.declared.record.RecordFault.TheVariants.{BadRecord};
ghost use Rattle.host_types.specs.declared.menu.Entry.{Entry};
ghost use Rattle.site_records.specs.Records.{entries_bytes};
ghost use Rattle.site_records.specs.Limits.{are_entries};
ghost use Rattle.site_records.specs.Field.{until_end};
ghost use Rattle.site_records.specs.Reading.{Reads, Gives, ReadingFails, MemoryOnlyFor, entry_behind, entry_at, entries_at, remote_entry};

use crate::RecordFault;
use crate::fields::{byte_of, host_of, link_of, port_of, selector_of, title_of};
use crate::letters::link_kind;
use host_types::{Entry, EntryList};
use std::alloc::Global;

/// The most entries of a menu.
const MOST_ENTRIES: usize = 100;

/// The fewest bytes of an entry: its tag, and the length of what is empty.
const SHORTEST_ENTRY: usize = 2;

#[tactic(auto, unfolding(crate::specs::Field::both, crate::specs::Field::mapped))]
fn remote_of(bytes: &[u8]) -> Result<(Entry, &[u8]), RecordFault>
    ensures { Reads (λ x. (x.0, x.1.now)) result (remote_entry bytes.now) }
{
    let (kind, rest) = link_kind(bytes)?;
    let (title, rest) = title_of(rest)?;
    let (selector, rest) = selector_of(rest)?;
    let (host, rest) = host_of(rest)?;
    let (port, rest) = port_of(rest)?;
    let entry = Entry::Remote {
        kind,
        title,
        selector,
        host,
        port,
    };
    Ok((entry, rest))
}

/// What stands behind a tag.
#[tactic(auto, unfolding(crate::specs::Reading::entry_behind, crate::specs::Field::both, crate::specs::Field::mapped))]
fn entry_behind(tag: u8, bytes: &[u8]) -> Result<(Entry, &[u8]), RecordFault>
    ensures { Reads (λ x. (x.0, x.1.now)) result (entry_behind tag bytes.now) }
{
    match tag {
        b'L' => {
            let (selector, rest) = selector_of(bytes)?;
            Ok((Entry::Local(selector), rest))
        }
        b'i' => {
            let (title, rest) = title_of(bytes)?;
            Ok((Entry::Info(title), rest))
        }
        b'h' => {
            let (title, rest) = title_of(bytes)?;
            let (url, rest) = link_of(rest)?;
            Ok((Entry::Url { title, url }, rest))
        }
        b'R' => remote_of(bytes),
        _ => Err(RecordFault::BadRecord),
    }
}

#[tactic(auto, unfolding(crate::specs::Reading::entry_at))]
fn entry_of(bytes: &[u8]) -> Result<(Entry, &[u8]), RecordFault>
    ensures { Reads (λ x. (x.0, x.1.now)) result (entry_at bytes.now) }
{
    let (tag, rest) = byte_of(bytes)?;
    entry_behind(tag, rest)
}

/// Adds the entry at the front of the bytes, and says whether there was memory for it, and what stands behind it. A local one, which most are, is
/// made where it is added: to hand it on would copy each field that it might have.
#[tactic(auto, unfolding(crate::specs::Reading::entry_at, crate::specs::Reading::entry_behind, crate::specs::Field::byte, crate::specs::Field::mapped))]
fn add_entry<'a>(entries: &mut Vec<Entry>, bytes: &'a [u8]) -> Result<(bool, &'a [u8]), RecordFault>
    ensures added { IfOk result (λ a. (entry : Entry) × (entry_at bytes.now ≡ Some (entry, a.1.now)) × (IsTrue a.0 → entries.new.items ≡ entries.old.items ++ entry ∷ [])) }
    ensures fault { IfErr result (λ e. (e ≡ BadRecord) × (entry_at bytes.now ≡ None)) }
{
    if let [b'L', fields @ ..] = bytes {
        let (selector, behind) = selector_of(fields)?;
        return Ok((entries.push(Entry::Local(selector)).is_ok(), behind));
    }
    let (entry, behind) = entry_of(bytes)?;
    Ok((entries.push(entry).is_ok(), behind))
}

/// The fault where memory is lacking and so many entries may come yet: one that can't be read goes before.
fn lacking(most: usize, bytes: &[u8]) -> RecordFault
    ensures { ReadingFails result (until_end entry_at most bytes.now) }
{
    let mut rest = bytes;
    for _ in 0..most {
        if rest.is_empty() {
            return RecordFault::Memory;
        }
        match entry_of(rest) {
            Ok((_, behind)) => rest = behind,
            Err(fault) => return fault,
        }
    }
    if rest.is_empty() {
        RecordFault::Memory
    } else {
        RecordFault::BadRecord
    }
}

/// Entries to the end of the bytes, at most so many.
fn entries_within(alloc: Global, most: usize, bytes: &[u8]) -> Result<EntryList, RecordFault>
    ensures { Gives (λ x. x) result (until_end entry_at most bytes.now) }
{
    let mut entries = Vec::new(alloc);
    // They are large, and would be copied each time that there is more room to be made.
    let room = most.min(bytes.len() / SHORTEST_ENTRY);
    if entries.reserve(room).is_err() {
        return Err(lacking(most, bytes));
    }
    let mut rest = bytes;
    for count in 0..most {
        if rest.is_empty() {
            return Ok(EntryList::from(entries));
        }
        let (is_added, behind) = add_entry(&mut entries, rest)?;
        if !is_added {
            return Err(lacking(most - 1 - count, behind));
        }
        rest = behind;
    }
    if rest.is_empty() {
        Ok(EntryList::from(entries))
    } else {
        Err(RecordFault::BadRecord)
    }
}

#[tactic(auto, unfolding(crate::specs::Reading::entries_at))]
fn all_entries(alloc: Global, bytes: &[u8]) -> Result<EntryList, RecordFault>
    ensures { Gives (λ x. x) result (entries_at bytes.now) }
{
    entries_within(alloc, MOST_ENTRIES, bytes)
}

/// The entries of a menu whose part has these bytes, all of them: `BadRecord` where no menu that keeps the limits has such a part.
pub fn read_entries(alloc: Global, bytes: &[u8]) -> Result<EntryList, RecordFault>
    // What is read is a menu's, written so.
    ensures found { IfOk result (λ entries. IsTrue (are_entries entries) × (bytes.now ≡ entries_bytes entries)) }
    // What is written so is read, unless memory runs out.
    ensures only { (entries : List Entry) → IsTrue (are_entries entries) → bytes.now ≡ entries_bytes entries → Gives (λ x. x) result (Some entries) }
    // Memory is lacking for no other bytes.
    ensures memory { IfErr result (MemoryOnlyFor are_entries entries_bytes bytes.now) }
{
    all_entries(alloc, bytes)
}
