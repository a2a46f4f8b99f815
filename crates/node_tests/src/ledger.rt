// The calls of a ledger.
ghost use Rattle.std.specs.Prelude.{◌≡◌};

use crate::trouble::Trouble;
use page_alloc::Ledger;
use std::alloc::Global;

/// The running commit takes a page for another.
pub fn replace(ledger: &mut Ledger, page: u32) -> Result<u32, Trouble>
    ensures generation { ledger.new.generation ≡ ledger.old.generation }
    ensures pins { ledger.new.pins ≡ ledger.old.pins }
{
    if ledger.free() == 0 || !ledger.lives(page) {
        return Err(Trouble::Full);
    }
    let taken = ledger.take();
    if !ledger.lives(page) {
        return Err(Trouble::Full);
    }
    ledger.retire(page);
    Ok(taken)
}

/// How many pages of eight are free: at first; with page 2 held; while a commit takes a page for it; after that is given up; after another such commit under a
/// pin; and once the pin is spent. And whether page 2, and the page that was taken, live then.
pub fn free_counts(alloc: Global) -> Result<[usize; 8], Trouble> {
    let mut ledger = Ledger::new(alloc, 8, 5)?;
    let mut counts = [ledger.free(); 8];
    if ledger.is_free(2) {
        ledger.hold(2);
    }
    counts[1] = ledger.free();
    let _ = replace(&mut ledger, 2)?;
    counts[2] = ledger.free();
    ledger.abandon();
    counts[3] = ledger.free();
    let pin = ledger.pin()?;
    let number = pin.number();
    let taken = match replace(&mut ledger, 2) {
        Ok(taken) => taken,
        Err(_) => 0,
    };
    ledger.advance(6);
    counts[4] = ledger.free().saturating_add(number);
    ledger.unpin(pin);
    counts[5] = ledger.free();
    counts[6] = ledger.lives(2) as usize;
    counts[7] = ledger.lives(taken) as usize;
    Ok(counts)
}
