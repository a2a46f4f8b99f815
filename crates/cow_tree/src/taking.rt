// Pages for what a commit writes.
ghost use Rattle.std.specs.Prelude.{◌≤◌, IfOk};
ghost use Rattle.page_alloc.specs.LedgerState.{free_count};
ghost use Rattle.cow_tree.specs.Drafts.{OnlyMarks};
ghost use Rattle.cow_tree.specs.Taken.{TakesPages};

use page_alloc::Ledger;
use std::alloc::{AllocError, Global};

/// Takes so many free pages for the running commit.
pub(crate) fn take_pages(
    alloc: Global,
    ledger: &mut Ledger,
    count: usize,
) -> Result<Vec<u32>, AllocError>
    requires room { count ≤ free_count ledger.old }
    ensures taken { IfOk result (λ numbers. TakesPages count ledger.old ledger.new numbers.items) }
    ensures marks { OnlyMarks ledger.old ledger.new }
{
    let mut pages = Vec::with_capacity(alloc, count)?;
    for so_far in 0..count {
        let page = ledger.take();
        pages.push(page)?;
    }
    Ok(pages)
}
