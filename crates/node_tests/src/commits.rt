// Commits of a ledger, each of which takes a page for another one.
ghost use Rattle.std.specs.Prelude.{◌≡◌, ◌≤◌};

use crate::ledger::replace;
use crate::trouble::Trouble;
use page_alloc::Ledger;
use std::alloc::Global;

/// One page of so many is free at first.
const SPREAD: u32 = 8;

/// A ledger and its generation.
#[derive(Drop)]
struct Commits {
    ledger: Ledger,
    generation: u64,
    ghost same: { ledger.generation ≡ generation },
}

impl Commits {
    /// A ledger of so many pages, of which none is held.
    fn new(alloc: Global, pages: u32) -> Result<Commits, Trouble>
        requires { 2 ≤ pages }
    {
        let ledger = Ledger::new(alloc, pages, 1)?;
        Ok(Commits {
            ledger,
            generation: 1,
        })
    }

    /// A page is held, if it is free.
    fn hold(&mut self, page: u32) {
        if self.ledger.is_free(page) {
            self.ledger.hold(page);
        }
    }

    /// A commit that takes a page for this one, which has to be held.
    fn commit(&mut self, page: u32) -> Result<u32, Trouble> {
        let Some(next) = self.generation.checked_add(1) else {
            return Err(Trouble::Full);
        };
        let taken = replace(&mut self.ledger, page)?;
        self.ledger.advance(next);
        self.generation = next;
        Ok(taken)
    }
}

/// Commits over a ledger of which all pages are held but each eighth. A cursor goes round the pages by steps, and each commit takes a page for the one at the cursor; where that one
/// isn't held none is made. How many were made of so many, and the sum of the numbers of the pages that they took.
pub fn take_many(alloc: Global, pages: u32, step: u32, many: u32) -> Result<[usize; 2], Trouble>
    requires { 2 ≤ pages }
{
    let mut commits = Commits::new(alloc, pages)?;
    for page in 0..pages {
        if page % SPREAD != 0 {
            commits.hold(page);
        }
    }
    let mut figures = [0usize; 2];
    let mut cursor = 0u32;
    for _ in 0..many {
        if let Ok(taken) = commits.commit(cursor) {
            figures[0] = figures[0].saturating_add(1);
            figures[1] = figures[1].saturating_add(taken as usize);
        }
        cursor = cursor.wrapping_add(step) % pages;
    }
    Ok(figures)
}
