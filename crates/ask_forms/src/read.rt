// Answers from lines of data.
ghost use Rattle.std.specs.Prelude.{◌≡◌, IfOk, IfErr, Ok};
ghost use Rattle.std.specs.Option.{option_copied, option_map};
ghost use Rattle.ask_forms.specs.Answers as form;
ghost use Rattle.ask_forms.specs.Reading as spec;
ghost use Rattle.ask_forms.specs.Reading.{IsFault, read_by};
ghost use Rattle.ask_forms.specs.Seen.{read_of};

use crate::{Answer, AnswerList, AskFault};
use common_types::{is_number, number_of};
use host_types::{Bytes, LineList, Question, QuestionList};
use std::alloc::{AllocError, Global};

/// An answer, and the lines behind it.
#[derive(Debug, Drop)]
struct Read<'a> {
    answer: Answer,
    rest: &'a [Bytes],
}

/// The choice that a line chooses: by its text, or else by its place.
fn chosen<'a>(choices: &'a [Bytes], line: &'a Bytes) -> Option<&'a Bytes>
    ensures { option_copied result ≡ spec.chosen choices.now line.now }
{
    if choices.contains(line) {
        return Some(line);
    }
    let digits = line.as_slice();
    if !is_number(2, digits) {
        return None;
    }
    choices.get(number_of(digits))
}

fn copy_of(alloc: Global, lines: &[Bytes]) -> Result<LineList, AllocError>
    ensures { IfOk result (λ list. list ≡ lines.now) }
{
    let mut list = LineList::new(alloc);
    for line in lines {
        list.push(line.clone()?)?;
    }
    Ok(list)
}

/// A line as an answer, where there is one.
fn one_read<'a>(line: Option<&Bytes>, rest: &'a [Bytes]) -> Result<Option<Read<'a>>, AllocError>
    ensures { IfOk result (λ read. option_map read_of read ≡ spec.one_read (option_copied line.entry) rest.now) }
{
    let Some(line) = line else {
        return Ok(None);
    };
    Ok(Some(Read {
        answer: Answer::One(line.clone()?),
        rest,
    }))
}

/// So many lines as an answer, where there are so many.
fn lines_read<'a>(
    alloc: Global,
    count: &Bytes,
    rest: &'a [Bytes],
) -> Result<Option<Read<'a>>, AllocError>
    ensures { IfOk result (λ read. option_map read_of read ≡ spec.lines_read count.now rest.now) }
{
    let digits = count.as_slice();
    if !is_number(5, digits) {
        return Ok(None);
    }
    let number = number_of(digits);
    if number > rest.len() {
        return Ok(None);
    }
    Ok(Some(Read {
        answer: Answer::Many(copy_of(alloc, &rest[..number])?),
        rest: &rest[number..],
    }))
}

/// The answer to a question that the first lines give, where they give one.
fn first_read<'a>(
    alloc: Global,
    question: &Question,
    lines: &'a [Bytes],
) -> Result<Option<Read<'a>>, AllocError>
    ensures { IfOk result (λ read. option_map read_of read ≡ spec.first_read question.now lines.now) }
{
    let [line, rest @ ..] = lines else {
        return Ok(None);
    };
    match question {
        Question::Ask(_) | Question::AskP { .. } => one_read(Some(line), rest),
        Question::AskL(_) => lines_read(alloc, line, rest),
        Question::Choose { choices, .. } => one_read(chosen(choices.as_slice(), line), rest),
    }
}

/// The answers that use up all lines, where there are such.
fn answers_of(
    alloc: Global,
    questions: &[Question],
    lines: &[Bytes],
) -> Result<Option<AnswerList>, AllocError>
    ensures { IfOk result (λ list. list ≡ spec.answers_of questions.now lines.now) }
{
    let mut answers = AnswerList::new(alloc);
    let mut rest = lines;
    for question in questions {
        let Some(read) = first_read(alloc, question, rest)? else {
            return Ok(None);
        };
        answers.push(read.answer)?;
        rest = read.rest;
    }
    if rest.is_empty() {
        Ok(Some(answers))
    } else {
        Ok(None)
    }
}

/// Whether an answer is not a wrong word.
fn is_word_right(question: &Question, answer: &Answer) -> bool
    ensures { result ≡ form.is_word_right question.now answer.now }
{
    match (question, answer) {
        (Question::AskP { word, .. }, Answer::One(line)) => line == word,
        _ => true,
    }
}

fn are_words_right(questions: &[Question], answers: &[Answer]) -> bool
    ensures { result ≡ form.are_words_right questions.now answers.now }
{
    questions
        .iter()
        .zip(answers)
        .all(|(question, answer)| is_word_right(question, answer))
}

/// The answers that lines of data give to the questions of a form: `WrongAnswers` where the lines do
/// not fit the form, or else `WrongWord` where a word that is asked for is another one.
pub fn read_answers(
    alloc: Global,
    questions: &QuestionList,
    lines: &LineList,
) -> Result<AnswerList, AskFault>
    ensures ok { IfOk result (λ list. read_by questions.now lines.now ≡ Ok list) }
    ensures err { IfErr result (λ fault. IsFault (read_by questions.now lines.now) fault) }
{
    let questions = questions.as_slice();
    let Some(answers) = answers_of(alloc, questions, lines.as_slice())? else {
        return Err(AskFault::WrongAnswers);
    };
    if are_words_right(questions, answers.as_slice()) {
        Ok(answers)
    } else {
        Err(AskFault::WrongWord)
    }
}
