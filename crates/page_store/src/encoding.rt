// The bytes of flat pages and root slots.
ghost use Rattle.std.specs.Prelude.{◌≡◌, ◌+◌, ◌-◌, ◌*◌, ◌<◌, ◌≤◌, ◌++◌, ◌∷◌, ◌^◌, ℕ, [], IsTrue, IfOk, OnOk, length, take, drop, map};
ghost use Rattle.std.specs.Int.{w16, w32, w64, to_be_bytes};
ghost use Rattle.std.specs.List.{list_all};
ghost use Rattle.page_store.specs.Sizes.{page_size, part_size};
ghost use Rattle.page_store.specs.Batch.{is_pair};
ghost use Rattle.page_store.specs.Roots.{FitsDevice};
ghost use Rattle.page_store.specs.Switch.{IsSlotPage};
ghost use Rattle.page_store.specs.Flat.{flat_word, entry_size};
ghost use Rattle.page_store.specs.Encoding.{padded, entry_bytes, entries_bytes, flat_head_bytes, flat_bytes, fitting, page_room, paged, by_pages, pages_needed, flat_pages, IsRootTyped, record_fields, record_bytes, root_sector, root_sectors, slot_bytes};

use crate::reading::{FLAT_WORD, ROOT_WORD};
use crate::sizes::PART_SIZE;
use crate::{NewPage, Pair, Root, Slot};
use sector_device::PAGE_SIZE;
use std::alloc::{AllocError, Global};

/// How many bytes of a flat page are for its entries.
const PAGE_ROOM: usize = 4072;

#[tactic(auto, unfolding(crate::specs::Batch::is_value))]
fn put_entry(out: &mut Vec<u8>, pair: &Pair) -> Result<(), AllocError>
    requires { IsTrue (is_pair pair.now) }
    ensures { OnOk result (out.new.items ≡ out.old.items ++ entry_bytes pair.now) }
{
    let key = pair.key();
    let value = pair.value();
    out.extend_from_slice(&(key.len() as u16).to_be_bytes())?;
    out.extend_from_slice(&(value.len() as u16).to_be_bytes())?;
    out.extend_from_slice(key)?;
    out.extend_from_slice(value)
}

/// Adds the entries of a leaf to the bytes.
pub fn put_entries(out: &mut Vec<u8>, pairs: &[Pair]) -> Result<(), AllocError>
    requires { IsTrue (list_all is_pair pairs.now) }
    ensures { OnOk result (out.new.items ≡ out.old.items ++ entries_bytes pairs.now) }
{
    for pair in pairs {
        put_entry(out, pair)?;
    }
    Ok(())
}

/// The bytes, and zeros after them up to so many.
fn padded<const N: usize>(bytes: &[u8]) -> [u8; N]
    requires { length bytes.now ≤ N }
    ensures { result ≡ padded N bytes.now }
{
    let mut all = [0; N];
    all[..bytes.len()].copy_from_slice(bytes);
    all
}

/// A page of these bytes, and zeros after them. It takes no memory.
pub fn padded_page(bytes: &[u8]) -> [u8; PAGE_SIZE]
    requires { length bytes.now ≤ page_size }
    ensures { result ≡ padded page_size bytes.now }
{
    padded(bytes)
}

/// The bytes of a flat page of a generation.
#[tactic(auto, unfolding(crate::specs::Encoding::flat_bytes, crate::specs::Encoding::page_room))]
fn flat_page(
    alloc: Global,
    seal: u64,
    page: u32,
    pairs: &[Pair],
) -> Result<[u8; PAGE_SIZE], AllocError>
    requires pairs { IsTrue (list_all is_pair pairs.now) }
    requires count { length pairs.now < 2 ^ 16 }
    requires room { length (entries_bytes pairs.now) ≤ page_room }
    ensures { IfOk result (λ bytes. bytes ≡ flat_bytes seal page pairs.now) }
{
    let mut bytes = Vec::new(alloc);
    bytes.extend_from_slice(&FLAT_WORD)?;
    bytes.extend_from_slice(&page.to_be_bytes())?;
    bytes.extend_from_slice(&seal.to_be_bytes())?;
    bytes.extend_from_slice(&0u16.to_be_bytes())?;
    bytes.extend_from_slice(&(pairs.len() as u16).to_be_bytes())?;
    put_entries(&mut bytes, pairs)?;
    Ok(padded_page(&bytes))
}

/// How many pairs from the first on fit into one page.
#[tactic(auto, unfolding(crate::specs::Encoding::page_room))]
fn fitting(pairs: &[Pair]) -> usize
    requires { IsTrue (list_all is_pair pairs.now) }
    ensures { result ≡ fitting page_room pairs.now }
{
    let mut room = PAGE_ROOM;
    let mut count = 0;
    for pair in pairs {
        let size = 4 + pair.key().len() + pair.value().len();
        if size > room {
            return count;
        }
        room -= size;
        count += 1;
    }
    count
}

/// How many pages the pairs need. It takes no memory.
pub(crate) fn pages_needed(pairs: &[Pair]) -> usize
    requires { IsTrue (list_all is_pair pairs.now) }
    ensures { result ≡ pages_needed pairs.now }
{
    let mut count = 0;
    let mut rest = pairs;
    while !rest.is_empty() {
        let (_, after) = rest.split_at(fitting(rest));
        rest = after;
        count += 1;
    }
    count
}

/// The pages of these pairs from a number on.
pub(crate) fn flat_pages(
    alloc: Global,
    seal: u64,
    first: u32,
    pairs: &[Pair],
) -> Result<Vec<NewPage>, AllocError>
    requires pairs { IsTrue (list_all is_pair pairs.now) }
    requires numbers { first + pages_needed pairs.now < 2 ^ 32 }
    ensures { IfOk result (λ pages. pages.items ≡ flat_pages seal first (by_pages pairs.now)) }
{
    let mut pages = Vec::new(alloc);
    let mut page = first;
    let mut rest = pairs;
    while !rest.is_empty() {
        let (here, after) = rest.split_at(fitting(rest));
        pages.push(NewPage {
            number: page,
            bytes: flat_page(alloc, seal, page, here)?,
        })?;
        rest = after;
        page += 1;
    }
    Ok(pages)
}

/// The fields of a root slot's record.
#[tactic(auto, unfolding(crate::specs::Encoding::record_fields))]
fn record_fields(alloc: Global, root: &Root) -> Result<Vec<u8>, AllocError>
    ensures bytes { IfOk result (λ bytes. bytes.items ≡ record_fields root.now) }
    ensures length { IfOk result (λ bytes. length bytes.items ≤ 224) }
    ensures typed { IfOk result (λ bytes. IsRootTyped root.now) }
{
    let host = root.banner.host.as_bytes();
    let admin = root.banner.admin.as_bytes();
    let mut bytes = Vec::new(alloc);
    bytes.extend_from_slice(&root.banner.version.to_be_bytes())?;
    bytes.extend_from_slice(&root.pages.to_be_bytes())?;
    bytes.extend_from_slice(&root.tree.to_be_bytes())?;
    bytes.extend_from_slice(&root.height.to_be_bytes())?;
    bytes.extend_from_slice(&root.keys.to_be_bytes())?;
    bytes.push(host.len() as u8)?;
    bytes.extend_from_slice(host)?;
    bytes.extend_from_slice(&root.banner.port.to_be_bytes())?;
    bytes.push(admin.len() as u8)?;
    bytes.extend_from_slice(admin)?;
    Ok(bytes)
}

/// One root sector: behind its part all is zeros.
fn put_sector(out: &mut Vec<u8>, number: u64, seal: u64, part: &[u8]) -> Result<(), AllocError>
    requires { length part.now ≤ part_size }
    ensures { OnOk result (out.new.items ≡ out.old.items ++ root_sector number seal (padded part_size part.now)) }
{
    let zeros = [0; PART_SIZE];
    out.extend_from_slice(&ROOT_WORD)?;
    out.extend_from_slice(&number.to_be_bytes())?;
    out.extend_from_slice(&seal.to_be_bytes())?;
    out.extend_from_slice(part)?;
    out.extend_from_slice(&zeros[part.len()..])?;
    Ok(())
}

/// The sectors of a slot's page: all fields of its record stand in the first.
#[tactic(auto, unfolding(crate::specs::Encoding::slot_bytes))]
fn slot_sectors(alloc: Global, slot: &Slot) -> Result<Vec<u8>, AllocError>
    requires { slot.now.number < 2 }
    ensures bytes { IfOk result (λ bytes. bytes.items ≡ slot_bytes slot.now) }
    ensures length { IfOk result (λ bytes. length bytes.items ≡ page_size) }
    ensures typed { IfOk result (λ bytes. IsRootTyped slot.now.root) }
{
    let fields = record_fields(alloc, &slot.root)?;
    let first = 8 * slot.number as u64;
    let mut out = Vec::with_capacity(alloc, PAGE_SIZE)?;
    put_sector(&mut out, first, slot.seal, &fields)?;
    for k in 1..8 {
        put_sector(&mut out, first + k, slot.seal, &[])?;
    }
    Ok(out)
}

/// The bytes of a slot's page.
#[tactic(auto, unfolding(crate::specs::Encoding::slot_bytes))]
#[inline(always)]
pub fn slot_page(alloc: Global, slot: &Slot) -> Result<[u8; PAGE_SIZE], AllocError>
    requires { slot.now.number < 2 }
    ensures bytes { IfOk result (λ bytes. bytes ≡ slot_bytes slot.now) }
    ensures valid { IfOk result (λ bytes. (sectors : ℕ) → slot.now.seal < 2 ^ 64 → FitsDevice sectors slot.now.root → 0 < slot.now.root.banner.port → IsSlotPage sectors slot.now bytes) }
{
    let sectors = slot_sectors(alloc, slot)?;
    let Some(page) = sectors.as_array() else {
        unreachable!()
    };
    Ok(*page)
}
