// What the pages of a ledger become at a switch, and once a pin is given back.
ghost use Rattle.std.specs.Prelude.{◌≡◌, ◌<◌, ◌≤◌, ◌+◌, ℕ, IfOk, length, replicate, slice_index_or};
ghost use Rattle.page_alloc.specs.declared.life.Life.TheVariants.{Never};
ghost use Rattle.page_alloc.specs.Lives.{lives_at, ended_at};
ghost use Rattle.page_alloc.specs.Calls.{lives_from};
ghost use Rattle.page_alloc.specs.Kept.{is_pinned, swept, marks_of, begun, ended_if_retired};
ghost use Rattle.page_alloc.specs.Runs.{use_of};

use crate::life::Life;
use crate::runs::Runs;
use std::alloc::{AllocError, Global};

/// So many pages without a life.
pub fn no_lives(alloc: Global, pages: u32) -> Result<Vec<Life>, AllocError>
    ensures { IfOk result (λ lives. lives.items ≡ replicate pages Never) }
{
    let mut lives = Vec::with_capacity(alloc, pages as usize)?;
    for _page in 0..pages {
        lives.push(Life::Never)?;
    }
    Ok(lives)
}

fn lives_at(life: Life, generation: u64) -> bool
    ensures { result ≡ lives_at generation life }
{
    match life {
        Life::Never => false,
        Life::Since(from) => from <= generation,
        Life::Between(from, until) => from <= generation && generation < until,
    }
}

fn is_pinned(pins: &[Option<u64>], life: Life) -> bool
    ensures { result ≡ is_pinned pins.now life }
{
    for pin in pins {
        if let Some(generation) = pin {
            if lives_at(life, *generation) {
                return true;
            }
        }
    }
    false
}

fn ended(life: Life, until: u64) -> Life
    ensures { result ≡ ended_at until life }
{
    match life {
        Life::Since(from) => Life::Between(from, until),
        _ => life,
    }
}

/// The waiting pages that no pin keeps any longer become free.
pub fn sweep(runs: &mut Runs, lives: &[Life], pins: &[Option<u64>])
    requires { length lives.now ≡ length runs.old.order.pages.items }
    ensures uses { (page : ℕ) → page < length lives.now → use_of runs.new.starts runs.new.order.places.items page ≡ swept pins.now (slice_index_or lives.now page Never) (use_of runs.old.starts runs.old.order.places.items page) }
    ensures size { length runs.new.order.pages.items ≡ length runs.old.order.pages.items }
{
    for place in (2..runs.starts.retired).rev() {
        let page = runs.order.pages[place];
        if !is_pinned(pins, lives[page as usize]) {
            runs.release(page);
        }
    }
}

/// What the running commit took lives from the generation on.
fn begin_lives(runs: &Runs, lives: &mut [Life], generation: u64)
    requires { length lives.old ≡ length runs.now.order.pages.items }
    ensures { (page : ℕ) → page < length lives.old → slice_index_or lives.new page Never ≡ begun generation (slice_index_or lives.old page Never) (use_of runs.now.starts runs.now.order.places.items page) }
{
    for place in runs.starts.taken..runs.starts.free {
        lives[runs.order.pages[place] as usize] = Life::Since(generation);
    }
}

/// What the running commit retired lives before the generation.
fn end_lives(runs: &Runs, lives: &mut [Life], generation: u64)
    requires { length lives.old ≡ length runs.now.order.pages.items }
    ensures { (page : ℕ) → page < length lives.old → slice_index_or lives.new page Never ≡ ended_if_retired generation (slice_index_or lives.old page Never) (use_of runs.now.starts runs.now.order.places.items page) }
{
    for place in runs.starts.retired..runs.starts.held {
        let page = runs.order.pages[place] as usize;
        lives[page] = ended(lives[page], generation);
    }
}

/// The lives of the pages from the generation on that the running commit made.
pub fn settle_lives(runs: &Runs, lives: &mut [Life], generation: u64)
    requires { length lives.old ≡ length runs.now.order.pages.items }
    ensures { lives.new ≡ lives_from generation lives.old (marks_of runs.now.starts runs.now.order.places.items) }
{
    begin_lives(runs, lives, generation);
    end_lives(runs, lives, generation);
}
