// A menu of any length, as pages that a site takes.
ghost use Rattle.std.specs.Prelude.{◌≡◌, ◌++◌, ◌<◌, ◌^◌, ℕ, Ok, Err, IfOk, OnOk, length, map, take};
ghost use Rattle.change_file.specs.declared.fault.FileChange.TheVariants.{Change as FileChange};
ghost use Rattle.common_types.specs.Names.{name_of, is_field};
ghost use Rattle.folder_import.specs.Pages as spec;

use crate::ImportFault;
use change_writer::ChangeWriter;
use host_types::{Body, Bytes, Change, Entry, EntryList, Item, Selector, Stamp, Title};
use std::alloc::{AllocError, Global};

/// The most entries of a menu that is one page.
const MOST_ENTRIES: usize = 100;

/// How many entries a page has, where there is a page behind it.
const A_PAGE: usize = 99;

/// How many pages a menu of so many entries has.
fn page_count(entries: usize) -> usize
    ensures { result ≡ spec.page_count entries }
{
    if entries <= MOST_ENTRIES {
        1
    } else {
        entries.div_ceil(A_PAGE)
    }
}

/// The selector of a page, from 0.
fn page_name(alloc: Global, at: &Selector, page: usize) -> Result<Selector, ImportFault>
    requires { page < 2 ^ 63 }
    ensures { IfOk result (λ s. s ≡ spec.page_name at.now page) }
{
    if page == 0 {
        return Ok(at.clone()?);
    }
    let number = format!(in alloc; "{}", page as u64 + 1)?;
    let mut name = Vec::new(alloc);
    name.extend_from_slice(at.as_bytes())?;
    name.extend_from_slice(b"/page-")?;
    name.extend_from_slice(number.as_bytes())?;
    Ok(Selector::new(&name)?)
}

/// The entries of a page, from 0.
#[tactic(auto, using(crate::proofs::Parts::last_part))]
fn page(entries: &[Entry], page: usize) -> &[Entry]
    requires { page < spec.page_count (length entries.now) }
    ensures { result.now ≡ spec.page entries.now page }
{
    if entries.len() <= MOST_ENTRIES {
        return entries;
    }
    let left = &entries[A_PAGE * page..];
    if left.len() < A_PAGE {
        left
    } else {
        &left[..A_PAGE]
    }
}

/// The entries of a page, with a link to the next where there is one.
fn linked(
    alloc: Global,
    at: &Selector,
    entries: &[Entry],
    number: usize,
) -> Result<EntryList, ImportFault>
    requires { number < spec.page_count (length entries.now) }
    ensures { IfOk result (λ es. es ≡ spec.linked at.now entries.now number) }
{
    let mut all = page(entries, number).to_vec(alloc)?;
    if number + 1 < page_count(entries.len()) {
        all.push(Entry::Local(page_name(alloc, at, number + 1)?))?;
    }
    Ok(EntryList::from(all))
}

fn menu_item(alloc: Global, title: Title, entries: EntryList) -> Item
    ensures { result ≡ spec.menu_item title entries }
{
    Item {
        title,
        stamp: Stamp::start(),
        until: None,
        summary: Bytes::new(alloc),
        body: Body::Menu(entries),
    }
}

/// Puts a menu with all its entries, in their order: as one page where they are at most 100, and else in pages of 99, each with a link to the next. Where it ends with a fault the first pages are put, or none.
pub fn put_menu(
    alloc: Global,
    writer: &mut ChangeWriter,
    at: &Selector,
    title: &Title,
    entries: &[Entry],
) -> Result<(), ImportFault>
    ensures put { OnOk result (writer.new ≡ writer.old ++ map (λ c. FileChange c) (spec.menu_changes at.now title.now entries.now)) }
    ensures front { (n : ℕ) × (writer.new ≡ writer.old ++ map (λ c. FileChange c) (take n (spec.menu_changes at.now title.now entries.now))) }
{
    for number in 0..page_count(entries.len()) {
        let item = menu_item(alloc, title.clone()?, linked(alloc, at, entries, number)?);
        writer.add(&Change::Put(page_name(alloc, at, number)?, item))?;
    }
    Ok(())
}
