// All pages in one order, cut into runs by what the pages are used for: root slots, waiting, retired, held, taken, free. A page goes
// from a run to the next one by two exchanges of places, so no call takes time that grows with the image.
ghost use Rattle.std.specs.Prelude.{◌↔◌, IsTrue, ◌⊎◌, ◌≡◌, ◌<◌, ◌≤◌, ◌+◌, ◌-◌, ℕ, IfOk, length, if◌then◌else◌, nat_lt};
ghost use Rattle.page_alloc.specs.Runs.{Root, Waiting, Retired, Held, Taken, Free, use_of, undone, after_switch, at, IsInverse, AreRuns};

use crate::order::Order;
use std::alloc::{AllocError, Global};

/// The place at which each run starts. The two root slots come first, and the waiting pages after them.
#[derive(Clone, Copy, Debug, PartialEq, Eq)]
pub struct Starts {
    pub retired: usize,
    pub held: usize,
    pub taken: usize,
    pub free: usize,
}

/// Each page once, in runs.
#[derive(Drop)]
pub struct Runs {
    pub order: Order,
    pub starts: Starts,
    ghost runs: { AreRuns starts (length order.pages.items) },
}

impl Runs {
    ghost use Rattle.page_alloc.specs.Moves.{Moves, WaitsAsBefore, MovesOn};

    /// All pages but the two root slots are free.
    pub fn new(alloc: Global, pages: u32) -> Result<Runs, AllocError>
        requires { 2 ≤ pages }
        ensures size { IfOk result (λ runs. length runs.order.pages.items ≡ pages) }
        ensures uses { IfOk result (λ runs. (page : ℕ) → page < pages → use_of runs.starts runs.order.places.items page ≡ (if nat_lt page 2 then Root else Free)) }
    {
        let order = Order::new(alloc, pages)?;
        let starts = Starts {
            retired: 2,
            held: 2,
            taken: 2,
            free: 2,
        };
        Ok(Runs { order, starts })
    }

    /// The number of free pages.
    pub fn free(&self) -> usize
        ensures { result + self.now.starts.free ≡ length self.now.order.pages.items }
    {
        self.order.pages.len() - self.starts.free
    }

    pub fn is_free(&self, page: u32) -> bool
        requires { page < length self.now.order.pages.items }
        ensures { IsTrue result ↔ use_of self.now.starts self.now.order.places.items page ≡ Free }
    {
        self.starts.free <= self.order.places[page as usize] as usize
    }

    /// Whether the current generation has the page and the running commit has not retired it.
    pub fn is_held(&self, page: u32) -> bool
        requires { page < length self.now.order.pages.items }
        ensures { IsTrue result ↔ use_of self.now.starts self.now.order.places.items page ≡ Held }
    {
        let place = self.order.places[page as usize] as usize;
        self.starts.held <= place && place < self.starts.taken
    }

    /// A free page becomes a taken one.
    pub fn take(&mut self) -> u32
        requires { self.old.starts.free < length self.old.order.pages.items }
        ensures within { result < length self.old.order.pages.items }
        ensures was { use_of self.old.starts self.old.order.places.items result ≡ Free }
        ensures moves { Moves result Taken self.old self.new }
        ensures count { self.new.starts.free ≡ self.old.starts.free + 1 }
    {
        let page = self.order.pages[self.starts.free];
        self.starts.free += 1;
        page
    }

    /// A held page becomes a retired one.
    pub fn retire(&mut self, page: u32)
        requires within { page < length self.old.order.pages.items }
        requires held { use_of self.old.starts self.old.order.places.items page ≡ Held }
        ensures moves { Moves page Retired self.old self.new }
        ensures free { self.new.starts.free ≡ self.old.starts.free }
    {
        let place = self.order.places[page as usize] as usize;
        let first = self.starts.held;
        self.order.exchange(place, first);
        self.starts.held = first + 1;
    }

    /// A free page becomes a held one.
    pub fn hold(&mut self, page: u32)
        requires within { page < length self.old.order.pages.items }
        requires free { use_of self.old.starts self.old.order.places.items page ≡ Free }
        ensures moves { Moves page Held self.old self.new }
        ensures count { self.new.starts.free ≡ self.old.starts.free + 1 }
    {
        self.free_to_taken(page);
        self.taken_to_held(page);
    }

    /// What the running commit took is free again, and what it retired is held.
    pub fn abandon(&mut self)
        ensures uses { (page : ℕ) → use_of self.new.starts self.new.order.places.items page ≡ undone (use_of self.old.starts self.old.order.places.items page) }
        ensures size { length self.new.order.pages.items ≡ length self.old.order.pages.items }
    {
        self.starts.free = self.starts.taken;
        self.starts.held = self.starts.retired;
    }

    /// What the running commit took is held, and what it retired waits.
    pub fn settle(&mut self)
        ensures uses { (page : ℕ) → use_of self.new.starts self.new.order.places.items page ≡ after_switch (use_of self.old.starts self.old.order.places.items page) }
        ensures free { self.new.starts.free ≡ self.old.starts.free }
        ensures size { length self.new.order.pages.items ≡ length self.old.order.pages.items }
    {
        self.starts.taken = self.starts.free;
        self.starts.retired = self.starts.held;
    }

    /// A waiting page becomes a free one. The last waiting page takes its place.
    pub fn release(&mut self, page: u32)
        requires within { page < length self.old.order.pages.items }
        requires waiting { use_of self.old.starts self.old.order.places.items page ≡ Waiting }
        ensures moves { Moves page Free self.old self.new }
        ensures count { self.new.starts.free + 1 ≡ self.old.starts.free }
        ensures retired { self.new.starts.retired + 1 ≡ self.old.starts.retired }
        ensures waiting { (p : ℕ) → p < length self.old.order.pages.items → at self.new.order.places.items p < self.new.starts.retired → (at self.new.order.places.items p ≡ at self.old.order.places.items p) ⊎ (at self.old.order.places.items p ≡ self.new.starts.retired) }
    {
        self.waiting_to_retired(page);
        self.retired_to_held(page);
        self.held_to_taken(page);
        self.taken_to_free(page);
    }

    fn free_to_taken(&mut self, page: u32)
        requires within { page < length self.old.order.pages.items }
        requires was { use_of self.old.starts self.old.order.places.items page ≡ Free }
        ensures moves { Moves page Taken self.old self.new }
        ensures free { self.new.starts.free ≡ self.old.starts.free + 1 }
    {
        let place = self.order.places[page as usize] as usize;
        let first = self.starts.free;
        self.order.exchange(place, first);
        self.starts.free = first + 1;
    }

    fn taken_to_held(&mut self, page: u32)
        requires within { page < length self.old.order.pages.items }
        requires was { use_of self.old.starts self.old.order.places.items page ≡ Taken }
        ensures moves { Moves page Held self.old self.new }
        ensures free { self.new.starts.free ≡ self.old.starts.free }
    {
        let place = self.order.places[page as usize] as usize;
        let first = self.starts.taken;
        self.order.exchange(place, first);
        self.starts.taken = first + 1;
    }

    fn waiting_to_retired(&mut self, page: u32)
        requires within { page < length self.old.order.pages.items }
        requires was { use_of self.old.starts self.old.order.places.items page ≡ Waiting }
        ensures moves { Moves page Retired self.old self.new }
        ensures free { self.new.starts.free ≡ self.old.starts.free }
        ensures retired { self.new.starts.retired + 1 ≡ self.old.starts.retired }
        ensures waiting { (p : ℕ) → p < length self.old.order.pages.items → at self.new.order.places.items p < self.new.starts.retired → (at self.new.order.places.items p ≡ at self.old.order.places.items p) ⊎ (at self.old.order.places.items p ≡ self.new.starts.retired) }
    {
        let place = self.order.places[page as usize] as usize;
        let last = self.starts.retired - 1;
        self.order.exchange(place, last);
        self.starts.retired = last;
    }

    fn retired_to_held(&mut self, page: u32)
        requires within { page < length self.old.order.pages.items }
        requires was { use_of self.old.starts self.old.order.places.items page ≡ Retired }
        ensures { MovesOn page Held self.old self.new }
    {
        let place = self.order.places[page as usize] as usize;
        let last = self.starts.held - 1;
        self.order.exchange(place, last);
        self.starts.held = last;
    }

    fn held_to_taken(&mut self, page: u32)
        requires within { page < length self.old.order.pages.items }
        requires was { use_of self.old.starts self.old.order.places.items page ≡ Held }
        ensures { MovesOn page Taken self.old self.new }
    {
        let place = self.order.places[page as usize] as usize;
        let last = self.starts.taken - 1;
        self.order.exchange(place, last);
        self.starts.taken = last;
    }

    fn taken_to_free(&mut self, page: u32)
        requires within { page < length self.old.order.pages.items }
        requires was { use_of self.old.starts self.old.order.places.items page ≡ Taken }
        ensures moves { Moves page Free self.old self.new }
        ensures free { self.new.starts.free + 1 ≡ self.old.starts.free }
        ensures waiting { WaitsAsBefore self.old self.new }
    {
        let place = self.order.places[page as usize] as usize;
        let last = self.starts.free - 1;
        self.order.exchange(place, last);
        self.starts.free = last;
    }
}
