// Reading the questions of a form.
ghost use Rattle.std.specs.Prelude.{◌≡◌, ◌≤◌, ◌++◌, ◌∷◌, [], IfOk, IfErr, OnOk, IsTrue, List, Some, false, length};
ghost use Rattle.std.specs.List.{list_any};
ghost use Rattle.host_types.specs.Items.{is_long_question};
ghost use Rattle.host_types.specs.declared.form.Question.{Question};
ghost use Rattle.site_records.specs.Lent.{lent_question};
ghost use Rattle.site_records.specs.Records.{questions_bytes};
ghost use Rattle.site_records.specs.Limits.{are_questions, is_choice_count};
ghost use Rattle.site_records.specs.Field.{byte, passing, times, until_end};
ghost use Rattle.site_records.specs.Reading.{Reads, Gives, ReadingFails, MemoryOnlyFor, prompt_at, answer_at, choices_at, question_behind, question_at, questions_at};

use crate::RecordFault;
use crate::fields::{byte_of, is_field, short_of};
use crate::lent_question::{LentChoices, LentQuestion, LentWord};
use arrayvec::ArrayVec;
use host_types::{QuestionList, Title};
use std::alloc::{AllocError, Global};

/// The most questions of a form.
const MOST_QUESTIONS: usize = 16;

#[tactic(auto, unfolding(crate::specs::Field::passing))]
fn prompt_of(bytes: &[u8]) -> Result<(Title, &[u8]), RecordFault>
    ensures { Reads (λ x. (x.0, x.1.now)) result (prompt_at bytes.now) }
{
    let (text, rest) = short_of(bytes)?;
    if text.is_empty() {
        return Err(RecordFault::BadRecord);
    }
    match Title::new(text) {
        Ok(title) => Ok((title, rest)),
        Err(_) => Err(RecordFault::BadRecord),
    }
}

/// A word that has to be known, or a choice.
#[tactic(auto, unfolding(crate::specs::Field::passing))]
fn answer_of(bytes: &[u8]) -> Result<(LentWord<'_>, &[u8]), RecordFault>
    ensures { Reads (λ x. (x.0, x.1.now)) result (answer_at bytes.now) }
{
    let (text, rest) = short_of(bytes)?;
    if text.is_empty() || text.len() > 40 || !is_field(text) {
        return Err(RecordFault::BadRecord);
    }
    Ok((LentWord { text }, rest))
}

#[tactic(auto, unfolding(crate::specs::Field::passing))]
fn choice_count(bytes: &[u8]) -> Result<(u8, &[u8]), RecordFault>
    ensures exact { Reads (λ x. (x.0, x.1.now)) result (passing is_choice_count byte bytes.now) }
    ensures range { IfOk result (λ x. x.0 ≤ 10) }
{
    let (count, rest) = byte_of(bytes)?;
    if count < 1 || count > 10 {
        return Err(RecordFault::BadRecord);
    }
    Ok((count, rest))
}

/// So many choices.
fn choices_by(count: u8, bytes: &[u8]) -> Result<(LentChoices<'_>, &[u8]), RecordFault>
    requires { count ≤ 10 }
    ensures { Reads (λ x. (x.0.items, x.1.now)) result (times answer_at count bytes.now) }
{
    let mut choices = ArrayVec::new();
    let mut rest = bytes;
    for _ in 0..count {
        let (choice, behind) = answer_of(rest)?;
        choices.push(choice);
        rest = behind;
    }
    Ok((choices, rest))
}

#[tactic(auto, unfolding(crate::specs::Field::listed))]
fn choices_of(bytes: &[u8]) -> Result<(LentChoices<'_>, &[u8]), RecordFault>
    ensures { Reads (λ x. (x.0.items, x.1.now)) result (choices_at bytes.now) }
{
    let (count, rest) = choice_count(bytes)?;
    choices_by(count, rest)
}

/// What stands behind a tag.
#[tactic(auto, unfolding(crate::specs::Reading::question_behind, crate::specs::Field::both, crate::specs::Field::mapped))]
fn question_behind(tag: u8, bytes: &[u8]) -> Result<(LentQuestion<'_>, &[u8]), RecordFault>
    ensures { Reads (λ x. (lent_question x.0, x.1.now)) result (question_behind tag bytes.now) }
{
    match tag {
        b'A' => {
            let (prompt, rest) = prompt_of(bytes)?;
            Ok((LentQuestion::Ask(prompt), rest))
        }
        b'L' => {
            let (prompt, rest) = prompt_of(bytes)?;
            Ok((LentQuestion::AskL(prompt), rest))
        }
        b'P' => {
            let (prompt, rest) = prompt_of(bytes)?;
            let (word, rest) = answer_of(rest)?;
            Ok((LentQuestion::AskP(prompt, word), rest))
        }
        b'C' => {
            let (prompt, rest) = prompt_of(bytes)?;
            let (choices, rest) = choices_of(rest)?;
            Ok((LentQuestion::Choose(prompt, choices), rest))
        }
        _ => Err(RecordFault::BadRecord),
    }
}

#[tactic(auto, unfolding(crate::specs::Reading::question_at))]
fn question_of(bytes: &[u8]) -> Result<(LentQuestion<'_>, &[u8]), RecordFault>
    ensures { Reads (λ x. (lent_question x.0, x.1.now)) result (question_at bytes.now) }
{
    let (tag, rest) = byte_of(bytes)?;
    question_behind(tag, rest)
}

/// The fault where memory is lacking and so many questions may come yet: one that can't be read goes before.
fn lacking(most: usize, bytes: &[u8]) -> RecordFault
    ensures { ReadingFails result (until_end question_at most bytes.now) }
{
    let mut rest = bytes;
    for _ in 0..most {
        if rest.is_empty() {
            return RecordFault::Memory;
        }
        match question_of(rest) {
            Ok((_, behind)) => rest = behind,
            Err(fault) => return fault,
        }
    }
    if rest.is_empty() {
        RecordFault::Memory
    } else {
        RecordFault::BadRecord
    }
}

fn add(
    alloc: Global,
    questions: &mut QuestionList,
    question: LentQuestion<'_>,
) -> Result<(), AllocError>
    ensures { OnOk result (questions.new ≡ questions.old ++ lent_question question.entry ∷ []) }
{
    let question = question.owned(alloc)?;
    questions.push(question)?;
    Ok(())
}

/// Questions to the end of the bytes, at most so many.
fn questions_within(alloc: Global, most: usize, bytes: &[u8]) -> Result<QuestionList, RecordFault>
    ensures { Gives (λ x. x) result (until_end question_at most bytes.now) }
{
    let mut questions = QuestionList::new(alloc);
    let mut rest = bytes;
    for count in 0..most {
        if rest.is_empty() {
            return Ok(questions);
        }
        let (question, behind) = question_of(rest)?;
        match add(alloc, &mut questions, question) {
            Ok(()) => rest = behind,
            Err(_) => return Err(lacking(most - 1 - count, behind)),
        }
    }
    if rest.is_empty() {
        Ok(questions)
    } else {
        Err(RecordFault::BadRecord)
    }
}

#[tactic(auto, unfolding(crate::specs::Reading::questions_at))]
fn all_questions(alloc: Global, bytes: &[u8]) -> Result<QuestionList, RecordFault>
    ensures { Gives (λ x. x) result (questions_at bytes.now) }
{
    if bytes.is_empty() {
        return Err(RecordFault::BadRecord);
    }
    questions_within(alloc, MOST_QUESTIONS, bytes)
}

/// The questions of a form whose part has these bytes, all of them: `BadRecord` where no form that keeps the limits has such a part.
pub fn read_questions(alloc: Global, bytes: &[u8]) -> Result<QuestionList, RecordFault>
    // What is read is a form's, written so.
    ensures found { IfOk result (λ questions. IsTrue (are_questions questions) × (bytes.now ≡ questions_bytes questions)) }
    // So they can be written again.
    ensures short { IfOk result (λ questions. list_any is_long_question questions ≡ false) }
    // What is written so is read, unless memory runs out.
    ensures only { (questions : List Question) → IsTrue (are_questions questions) → bytes.now ≡ questions_bytes questions → Gives (λ x. x) result (Some questions) }
    // Memory is lacking for no other bytes.
    ensures memory { IfErr result (MemoryOnlyFor are_questions questions_bytes bytes.now) }
{
    all_questions(alloc, bytes)
}
