// The walk of an opening: each page once, with all that is tested of it.
ghost use Rattle.std.specs.Prelude.{◌≡◌, ◌≤◌, ◌<◌, ◌*◌, ◌+◌, true, IsTrue, IfOk, IfErr, None, Some, length, option_copied, if◌then◌else◌};
ghost use Rattle.sector_device.specs.Effects.{MadeIfOk};
ghost use Rattle.std.specs.List.{list_all};
ghost use Rattle.page_alloc.specs.LedgerState.{is_free, free_count};
ghost use Rattle.page_alloc.specs.Calls.{holding};
ghost use Rattle.page_store.specs.Sectors.{page_of};
ghost use Rattle.page_store.specs.Steps.{crash_states_of};
ghost use Rattle.page_store.specs.Pages.{leaf_of, branch_of, is_inside};
ghost use Rattle.page_store.specs.Batch.{is_pair};
ghost use Rattle.page_store.specs.Content.{place_in, walk, fan, low_of, high_of};
ghost use Rattle.tree_nodes.specs.PageViews.{bounds_of, pairs_in, children_in};
ghost use Rattle.cow_tree.specs.NamedWalks.{walk_or_name, fan_or_name};
ghost use Rattle.cow_tree.specs.Walks.{TellsWalk, Names, NamesInside, OnlyHolds, ReadsTreePages, WalksPages};
ghost use Rattle.cow_tree.specs.Work.{ReadsEachOnce};
ghost use Rattle.cow_tree.specs.declared.page_fault.PageFault.TheVariants.{Device as NoRead, Damaged};

use crate::page_fault::PageFault;
use page_alloc::Ledger;
use page_store::fill_page;
use sector_device::{Device, PAGE_SIZE};
use tree_nodes::{Branch, ImageBounds, Leaf};

/// Reads a page.
pub(crate) fn load_page<D: Device>(
    device: &mut D,
    page: u32,
    bytes: &mut [u8; PAGE_SIZE],
) -> Result<(), PageFault>
    requires { 8 * page + 8 ≤ (D.state device.old).size }
    ensures page { IsTrue (D.state device.old).honest → IfOk result (λ done. page_of (D.state device.old).disk.view page ≡ bytes.new) }
    ensures fault { IfErr result (λ e. e ≡ NoRead) }
    ensures reads { ReadsTreePages D.state (crash_states_of D.moment D.possible_since) device.old device.new result }
    ensures work { MadeIfOk result 8 0 0 (D.state device.old) (D.state device.new) }
{
    match fill_page(device, page, bytes) {
        Ok(()) => Ok(()),
        Err(_) => Err(PageFault::Device),
    }
}

/// The leaf between two keys that a page's bytes are.
pub(crate) fn leaf_in<'a>(
    bounds: ImageBounds,
    page: u32,
    low: &[u8],
    high: Option<&[u8]>,
    bytes: &'a [u8; PAGE_SIZE],
) -> Result<Leaf<'a>, PageFault>
    ensures pairs { IfOk result (λ leaf. leaf_of (place_in (bounds_of bounds) 0 page) low.now (option_copied high.entry) bytes.now ≡ Some (pairs_in leaf.count leaf.entries.now)) }
    ensures count { IfOk result (λ leaf. leaf.count ≡ length (pairs_in leaf.count leaf.entries.now)) }
    ensures sizes { IfOk result (λ leaf. IsTrue (list_all is_pair (pairs_in leaf.count leaf.entries.now))) }
    ensures fault { IfErr result (λ e. (e ≡ Damaged page) × (leaf_of (place_in (bounds_of bounds) 0 page) low.now (option_copied high.entry) bytes.now ≡ None)) }
{
    match Leaf::between(bounds, page, low, high, bytes) {
        Ok(leaf) => Ok(leaf),
        Err(_) => Err(PageFault::Damaged { page }),
    }
}

/// The branch between two keys that a page's bytes are.
pub(crate) fn branch_in<'a>(
    bounds: ImageBounds,
    level: u16,
    page: u32,
    low: &[u8],
    high: Option<&[u8]>,
    bytes: &'a [u8; PAGE_SIZE],
) -> Result<Branch<'a>, PageFault>
    ensures children { IfOk result (λ branch. branch_of (place_in (bounds_of bounds) level page) low.now (option_copied high.entry) bytes.now ≡ Some (children_in branch.count branch.entries.now)) }
    ensures inside { IfOk result (λ branch. list_all (is_inside bounds.pages) (children_in branch.count branch.entries.now) ≡ true) }
    ensures fault { IfErr result (λ e. (e ≡ Damaged page) × (branch_of (place_in (bounds_of bounds) level page) low.now (option_copied high.entry) bytes.now ≡ None)) }
{
    match Branch::between(bounds, level, page, low, high, bytes) {
        Ok(branch) => Ok(branch),
        Err(_) => Err(PageFault::Damaged { page }),
    }
}

/// From which key on.
fn lower<'a>(low: &'a [u8], key: &'a [u8]) -> &'a [u8]
    ensures { result.now ≡ low_of low.now key.now }
{
    if key.is_empty() { low } else { key }
}

/// Up to which key.
fn upper<'a>(others: &Branch<'a>, high: Option<&'a [u8]>) -> Option<&'a [u8]>
    ensures { option_copied result ≡ high_of (children_in others.now.count others.now.entries.now) (option_copied high.entry) }
{
    match others.first() {
        Some((key, _, _)) => Some(key),
        None => high,
    }
}

/// How many pairs a leaf has.
pub(crate) fn count_pairs(leaf: Leaf<'_>) -> u16
    ensures { result ≡ length (pairs_in leaf.entry.count leaf.entry.entries.now) }
{
    let mut count: u16 = 0;
    let mut left = leaf;
    while let Some((_, _, others)) = left.first() {
        count += 1;
        left = others;
    }
    count
}

/// Makes a page held, where it is free.
fn reach(ledger: &mut Ledger, page: u32) -> bool
    ensures is { result ≡ is_free ledger.old page }
    ensures held { ledger.new ≡ (if result then holding page ledger.old else ledger.old) }
    ensures only { OnlyHolds ledger.old ledger.new }
    ensures count { free_count ledger.old ≡ free_count ledger.new + (if result then 1 else 0) }
{
    if !ledger.is_free(page) {
        return false;
    }
    ledger.hold(page);
    true
}

/// Walks the children of a branch, one after another, and counts their pairs.
#[cycle(walks)]
fn walk_children<D: Device>(
    device: &mut D,
    ledger: &mut Ledger,
    bounds: ImageBounds,
    level: u16,
    branch: &Branch<'_>,
    low: &[u8],
    high: Option<&[u8]>,
) -> Result<u64, PageFault>
    requires pages { length ledger.old.lives ≡ bounds.pages }
    requires fits { 8 * bounds.pages ≤ (D.state device.old).size }
    requires inside { list_all (is_inside bounds.pages) (children_in branch.now.count branch.now.entries.now) ≡ true }
    ensures answered { IsTrue (D.state device.old).honest → TellsWalk (fan (walk (page_of (D.state device.old).disk.view) (bounds_of bounds) level) low.now (option_copied high.entry) (children_in branch.now.count branch.now.entries.now)) ledger.old ledger.new result }
    ensures named { IfErr result (Names (D.state device.old) (λ bytes. fan_or_name (walk_or_name bytes (bounds_of bounds) level) low.now (option_copied high.entry) (children_in branch.now.count branch.now.entries.now)) ledger.old) }
    ensures walks { WalksPages D.state (crash_states_of D.moment D.possible_since) device.old device.new ledger.old ledger.new (NamesInside bounds.pages) result }
    ensures work { ReadsEachOnce (D.state device.old) (D.state device.new) ledger.old ledger.new }
{
    let mut count: u64 = 0;
    let mut left = *branch;
    while let Some((key, page, others)) = left.first() {
        let from = lower(low, key);
        let to = upper(&others, high);
        let more = walk_tree(device, ledger, bounds, level, page, from, to)?;
        count = count.saturating_add(more);
        left = others;
    }
    Ok(count)
}

/// Walks a tree from a page on, and counts its pairs: it holds each page that it reaches, and then reads it.
#[cycle(walks)]
pub(crate) fn walk_tree<D: Device>(
    device: &mut D,
    ledger: &mut Ledger,
    bounds: ImageBounds,
    level: u16,
    page: u32,
    low: &[u8],
    high: Option<&[u8]>,
) -> Result<u64, PageFault>
    requires pages { length ledger.old.lives ≡ bounds.pages }
    requires fits { 8 * bounds.pages ≤ (D.state device.old).size }
    requires least { 2 ≤ page }
    requires most { page < bounds.pages }
    ensures answered { IsTrue (D.state device.old).honest → TellsWalk (walk (page_of (D.state device.old).disk.view) (bounds_of bounds) level page low.now (option_copied high.entry)) ledger.old ledger.new result }
    ensures named { IfErr result (Names (D.state device.old) (λ bytes. walk_or_name bytes (bounds_of bounds) level page low.now (option_copied high.entry)) ledger.old) }
    ensures walks { WalksPages D.state (crash_states_of D.moment D.possible_since) device.old device.new ledger.old ledger.new (NamesInside bounds.pages) result }
    ensures work { ReadsEachOnce (D.state device.old) (D.state device.new) ledger.old ledger.new }
{
    if !reach(ledger, page) {
        return Err(PageFault::Damaged { page });
    }
    let mut bytes = [0; PAGE_SIZE];
    load_page(device, page, &mut bytes)?;
    if level == 0 {
        let leaf = leaf_in(bounds, page, low, high, &bytes)?;
        return Ok(u64::from(leaf.count()));
    }
    let branch = branch_in(bounds, level, page, low, high, &bytes)?;
    walk_children(device, ledger, bounds, level - 1, &branch, low, high)
}
