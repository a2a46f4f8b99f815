// Which pages are held and free.
ghost use Rattle.std.specs.Prelude.{◌≡◌, ◌<◌, ◌≤◌, ◌+◌, ℕ, true, false, None, IfOk, IfErr, IfSome, length, slice_index_or};
ghost use Rattle.page_alloc.specs.declared.ledger.LedgerFault.TheVariants.{Memory};
ghost use Rattle.page_alloc.specs.LedgerState.{LedgerState, is_free, is_held, free_count, is_alive, is_out, has_page, has_page_next};
ghost use Rattle.page_alloc.specs.Calls.{fresh, holding, taking, retiring, abandoned, advanced, unpinned};
ghost use Rattle.page_alloc.specs.Outcomes.{PinOutcome};

use crate::life::Life;
use crate::pin::{Pin, first_unused};
use crate::runs::Runs;
use crate::sweep::{no_lives, settle_lives, sweep};
use std::alloc::{AllocError, Global};
use std::marker::Model;
use thiserror::Error;

/// Why a call of a ledger fails.
#[derive(Clone, Copy, Debug, PartialEq, Eq, Error)]
pub enum LedgerFault {
    /// All 32 pins are out.
    #[error("Crowded")]
    Crowded,
    /// Out of memory. Only `new` answers it.
    #[error("Memory")]
    Memory,
}

/// The pages of an image: which of them the current generation and pinned ones have, what the running commit took and retired, and
/// which are free.
#[derive(Drop)]
pub struct Ledger {
    runs: Runs,
    lives: Vec<Life>,
    generation: u64,
    pins: [Option<u64>; 32],
}

impl Model for Ledger {
    ghost use Rattle.page_alloc.specs.LedgerState.{LedgerState};

    ghost Value = { LedgerState };

    ghost use Rattle.page_alloc.specs.Kept.{IsConsistent, state_of};

    ghost view = { state_of };

    ghost invariant = { IsConsistent };
}

impl Ledger {
    /// A ledger of so many pages, of which none is held. It takes memory for each page, and no other call takes any.
    pub fn new(alloc: Global, pages: u32, generation: u64) -> Result<Ledger, LedgerFault>
        requires { 2 ≤ pages }
        ensures fresh { IfOk result (λ ledger. ledger ≡ fresh pages generation) }
        ensures memory { IfErr result (λ fault. fault ≡ Memory) }
    {
        Ledger::of_pages(alloc, pages, generation).map_err(|_| LedgerFault::Memory)
    }

    fn of_pages(alloc: Global, pages: u32, generation: u64) -> Result<Ledger, AllocError>
        requires { 2 ≤ pages }
        ensures { IfOk result (λ ledger. ledger ≡ fresh pages generation) }
    {
        let runs = Runs::new(alloc, pages)?;
        let lives = no_lives(alloc, pages)?;
        Ok(Ledger {
            runs,
            lives,
            generation,
            pins: [None; 32],
        })
    }

    /// The current generation has this page, as the opening walk found.
    pub fn hold(&mut self, page: u32)
        requires { is_free self.old page ≡ true }
        ensures { self.new ≡ holding page self.old }
    {
        self.runs.hold(page);
        self.lives[page as usize] = Life::Since(self.generation);
    }

    /// Whether this page is free: `hold` asks for that.
    pub fn is_free(&self, page: u32) -> bool
        ensures { result ≡ is_free self.now page }
    {
        (page as usize) < self.lives.len() && self.runs.is_free(page)
    }

    /// Whether the current generation has this page and the running commit has not retired it.
    pub fn lives(&self, page: u32) -> bool
        ensures { result ≡ is_alive self.now page }
    {
        (page as usize) < self.lives.len() && self.runs.is_held(page)
    }

    /// A free page, for the running commit.
    pub fn take(&mut self) -> u32
        requires { 0 < free_count self.old }
        ensures free { is_free self.old result ≡ true }
        ensures held { is_held self.old result ≡ false }
        ensures taken { self.new ≡ taking result self.old }
        ensures count { free_count self.new + 1 ≡ free_count self.old }
    {
        self.runs.take()
    }

    /// The running commit gives this page up.
    pub fn retire(&mut self, page: u32)
        requires { is_alive self.old page ≡ true }
        ensures retired { self.new ≡ retiring page self.old }
        ensures count { free_count self.new ≡ free_count self.old }
    {
        self.runs.retire(page);
    }

    /// The running commit has switched: its generation is the current one.
    pub fn advance(&mut self, generation: u64)
        requires { self.old.generation < generation }
        ensures advanced { self.new ≡ advanced generation self.old }
        ensures pages { (page : ℕ) → page < length self.old.lives → has_page self.new generation page ≡ has_page_next self.old page }
        ensures pinned { (number : ℕ) → IfSome (slice_index_or self.old.pins number None) (λ kept. (page : ℕ) → page < length self.old.lives → has_page self.new kept page ≡ has_page self.old kept page) }
    {
        settle_lives(&self.runs, &mut self.lives, generation);
        self.runs.settle();
        sweep(&mut self.runs, &self.lives, &self.pins);
        self.generation = generation;
    }

    /// The running commit was refused, or failed: what it took and retired is as before.
    pub fn abandon(&mut self)
        ensures { self.new ≡ abandoned self.old }
    {
        self.runs.abandon();
    }

    /// Pins the current generation: its pages are not free until the pin is spent.
    pub fn pin(&mut self) -> Result<Pin, LedgerFault>
        ensures { PinOutcome self.old result self.new }
    {
        match first_unused(&self.pins) {
            Some(number) => {
                self.pins[number] = Some(self.generation);
                Ok(Pin::new(number))
            }
            None => Err(LedgerFault::Crowded),
        }
    }

    /// Spends a pin.
    pub fn unpin(&mut self, pin: Pin)
        requires { is_out self.old pin ≡ true }
        ensures { self.new ≡ unpinned pin self.old }
    {
        let number = pin.into_number();
        self.pins[number] = None;
        sweep(&mut self.runs, &self.lives, &self.pins);
    }

    /// The number of free pages.
    pub fn free(&self) -> usize
        ensures { result ≡ free_count self.now }
    {
        self.runs.free()
    }
}
