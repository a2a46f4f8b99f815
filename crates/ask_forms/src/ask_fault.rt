// Faults of answers.
ghost use Rattle.std.specs.Prelude.{◌≡◌};
ghost use Rattle.ask_forms.specs.declared.ask_fault.AskFault.TheVariants.{Memory};

use std::alloc::AllocError;
use thiserror::Error;

/// Why lines of data are no answers.
#[derive(Clone, Copy, Debug, PartialEq, Eq, Error)]
pub enum AskFault {
    /// They do not fit the form.
    #[error("WrongAnswers")]
    WrongAnswers,
    /// They fit, but a word that is asked for is another one.
    #[error("WrongWord")]
    WrongWord,
    /// Out of memory.
    #[error("Memory")]
    Memory,
}

impl From<AllocError> for AskFault {
    ghost from_gives = { λ _ e. e ≡ Memory };

    fn from(_: AllocError) -> Self {
        AskFault::Memory
    }
}
