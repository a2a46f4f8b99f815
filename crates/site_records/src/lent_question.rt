// Questions that are read without memory.
ghost use Rattle.std.specs.Prelude.{◌≡◌, take, IfOk};
ghost use Rattle.site_records.specs.Lent.{lent_question};

use arrayvec::ArrayVec;
use host_types::{Bytes, ChoiceList, Question, Title};
use std::alloc::{AllocError, Global};
use std::marker::Model;

/// A word or a choice that lies in the bytes of its part.
#[derive(Drop)]
pub struct LentWord<'a> {
    pub text: &'a [u8],
}

impl<'a> Model for LentWord<'a> {
    ghost use Rattle.std.specs.Prelude.{List, ℕ};

    ghost Value = { List ℕ };

    ghost view = { λ w. w.text.now };
}

impl<'a> Default for LentWord<'a> {
    fn default() -> Self {
        LentWord { text: &[] }
    }
}

/// The choices of a question.
pub type LentChoices<'a> = ArrayVec<LentWord<'a>, 10>;

/// A question whose word or choices lie in the bytes of its part, so that reading it takes no memory.
#[derive(Drop)]
pub enum LentQuestion<'a> {
    Ask(Title),
    AskL(Title),
    AskP(Title, LentWord<'a>),
    Choose(Title, LentChoices<'a>),
}

fn owned_word(alloc: Global, word: &LentWord<'_>) -> Result<Bytes, AllocError>
    ensures { IfOk result (λ bytes. bytes ≡ word.now) }
{
    Bytes::from_slice(alloc, word.text)
}

fn owned_choices(alloc: Global, lent: &[LentWord<'_>]) -> Result<ChoiceList, AllocError>
    ensures { IfOk result (λ choices. choices ≡ lent.now) }
{
    let mut choices = ChoiceList::new(alloc);
    for word in lent {
        choices.push(owned_word(alloc, word)?)?;
    }
    Ok(choices)
}

impl<'a> LentQuestion<'a> {
    /// The question in memory of its own.
    pub fn owned(self, alloc: Global) -> Result<Question, AllocError>
        ensures { IfOk result (λ question. question ≡ lent_question self.entry) }
    {
        Ok(match self {
            LentQuestion::Ask(prompt) => Question::Ask(prompt),
            LentQuestion::AskL(prompt) => Question::AskL(prompt),
            LentQuestion::AskP(prompt, word) => Question::AskP {
                prompt,
                word: owned_word(alloc, &word)?,
            },
            LentQuestion::Choose(prompt, choices) => Question::Choose {
                prompt,
                choices: owned_choices(alloc, choices.as_slice())?,
            },
        })
    }
}
