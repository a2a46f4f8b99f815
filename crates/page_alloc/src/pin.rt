// Pins, each of which is spent once.
ghost use Rattle.std.specs.Prelude.{◌≡◌, ◌<◌, true, None, MatchOption, length, slice_index_or};
ghost use Rattle.std.specs.List.{list_all};
ghost use Rattle.page_alloc.specs.LedgerState.{is_some};

use std::marker::Model;

/// A pin that is out. It is no `Drop`, and its number is private: so it can't be let go or made up, and `Ledger::unpin` alone spends it.
pub struct Pin {
    number: usize,
}

impl Model for Pin {
    ghost use Rattle.std.specs.Prelude.{◌<◌, ℕ};

    ghost Value = { ℕ };

    ghost view = { λ p. p.number };

    ghost invariant = { λ p. p.number < 32 };
}

impl Pin {
    pub(crate) fn new(number: usize) -> Pin
        requires { number < 32 }
        ensures { result ≡ number }
    {
        Pin { number }
    }

    /// The pin's number, from 0 to 31. No other pin of its ledger that is out has it.
    pub fn number(&self) -> usize
        ensures number { result ≡ self.now }
        ensures small { result < 32 }
    {
        self.number
    }

    pub(crate) fn into_number(self) -> usize
        ensures number { result ≡ self }
        ensures small { result < 32 }
    {
        let Pin { number } = self;
        number
    }
}

/// The first number of which no pin is out.
pub(crate) fn first_unused(pins: &[Option<u64>]) -> Option<usize>
    ensures { MatchOption result (list_all is_some pins.now ≡ true) (λ number. (number < length pins.now) × (slice_index_or pins.now number None ≡ None)) }
{
    for (number, pin) in pins.iter().enumerate() {
        if pin.is_none() {
            return Some(number);
        }
    }
    None
}
