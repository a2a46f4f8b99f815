// All pages in one order.
ghost use Rattle.std.specs.Prelude.{◌≡◌, ◌<◌, ◌≤◌, ◌+◌, ◌-◌, ℕ, IfOk, length};
ghost use Rattle.page_alloc.specs.Runs.{at, IsInverse, exchanged};

use std::alloc::{AllocError, Global};

/// Each page once.
#[derive(Drop)]
pub struct Order {
    /// The page at each place.
    pub pages: Vec<u32>,
    /// The place of each page.
    pub places: Vec<u32>,
    ghost inverse: { IsInverse pages.items places.items },
}

/// Puts what stands at two places in each other's place.
fn exchange(pages: &mut [u32], places: &mut [u32], i: usize, j: usize)
    requires inverse { IsInverse pages.old places.old }
    requires first { i < length pages.old }
    requires second { j < length pages.old }
    ensures inverse { IsInverse pages.new places.new }
    ensures places { (page : ℕ) → page < length pages.old → at places.new page ≡ exchanged i j (at places.old page) }
{
    let first = pages[i];
    let second = pages[j];
    pages[i] = second;
    pages[j] = first;
    places[second as usize] = i as u32;
    places[first as usize] = j as u32;
}

/// The numbers below one, in order.
fn numbers(alloc: Global, count: u32) -> Result<Vec<u32>, AllocError>
    ensures size { IfOk result (λ all. length all.items ≡ count) }
    ensures each { IfOk result (λ all. (k : ℕ) → k < count → at all.items k ≡ k) }
{
    let mut all = Vec::with_capacity(alloc, count as usize)?;
    for number in 0..count {
        all.push(number)?;
    }
    Ok(all)
}

impl Order {
    /// The pages below a number, in order.
    pub fn new(alloc: Global, pages: u32) -> Result<Order, AllocError>
        ensures size { IfOk result (λ order. length order.pages.items ≡ pages) }
        ensures each { IfOk result (λ order. (page : ℕ) → page < pages → at order.places.items page ≡ page) }
    {
        let order = numbers(alloc, pages)?;
        let places = numbers(alloc, pages)?;
        Ok(Order {
            pages: order,
            places,
        })
    }

    /// Puts the pages at two places in each other's place.
    pub fn exchange(&mut self, i: usize, j: usize)
        requires first { i < length self.old.pages.items }
        requires second { j < length self.old.pages.items }
        ensures places { (page : ℕ) → page < length self.old.pages.items → at self.new.places.items page ≡ exchanged i j (at self.old.places.items page) }
        ensures size { length self.new.pages.items ≡ length self.old.pages.items }
    {
        exchange(&mut self.pages, &mut self.places, i, j);
    }
}
