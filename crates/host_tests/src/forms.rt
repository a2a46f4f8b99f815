// Answers to the forms of the site.
use crate::bench::Bench;
use crate::line::Line;
use crate::replies;
use crate::sites::card_at;
use crate::trouble::Trouble;
use ask_forms::{Answer, AnswerList, post_of, read_answers};
use host_types::{Bytes, Card, CardBody, LineList, QuestionList};
use plus_blocks::ask_block;
use std::alloc::Global;

pub fn list_of(alloc: Global, lines: &[Vec<u8>]) -> Result<LineList, Trouble> {
    let mut list = LineList::new(alloc);
    for line in lines {
        list.push(Bytes::from_slice(alloc, line)?)?;
    }
    Ok(list)
}

/// The post that answers make, by its title and its text.
fn show_post(
    alloc: Global,
    line: &mut Line,
    questions: &QuestionList,
    answers: &AnswerList,
) -> Result<(), Trouble> {
    let post = post_of(alloc, questions, answers)?;
    line.bytes(post.title.as_bytes())?;
    Ok(line.bytes(post.text.as_slice())?)
}

/// One answer of all the lines, as no lines of data give it to a question for one.
fn one_answer(alloc: Global, lines: &LineList) -> Result<AnswerList, Trouble> {
    let mut answers = AnswerList::new(alloc);
    answers.push(Answer::Many(lines.clone()?))?;
    Ok(answers)
}

/// `answers SELECTOR LINE ..`: the post of the lines.
fn show_answers(
    alloc: Global,
    line: &mut Line,
    questions: &QuestionList,
    lines: &LineList,
) -> Result<(), Trouble> {
    let answers = read_answers(alloc, questions, lines)?;
    show_post(alloc, line, questions, &answers)
}

/// `one_answer SELECTOR LINE ..`
fn show_one_answer(
    alloc: Global,
    line: &mut Line,
    questions: &QuestionList,
    lines: &LineList,
) -> Result<(), Trouble> {
    let answers = one_answer(alloc, lines)?;
    show_post(alloc, line, questions, &answers)
}

/// `ask SELECTOR`
fn show_ask(alloc: Global, line: &mut Line, questions: &QuestionList) -> Result<(), Trouble> {
    Ok(line.bytes(ask_block(alloc, questions)?.as_slice())?)
}

/// The words of the form of a card.
fn of_form(
    alloc: Global,
    line: &mut Line,
    word: &str,
    card: &Card,
    rest: &[Vec<u8>],
) -> Result<(), Trouble> {
    let CardBody::Form { questions, .. } = &card.body else {
        return Err(Trouble::Line);
    };
    let lines = list_of(alloc, rest)?;
    match word {
        "answers" => show_answers(alloc, line, questions, &lines),
        "one_answer" => show_one_answer(alloc, line, questions, &lines),
        _ => show_ask(alloc, line, questions),
    }
}

/// The words of the form at a selector.
fn on_form(
    bench: &mut Bench,
    line: &mut Line,
    word: &str,
    fields: &[Vec<u8>],
) -> Result<(), Trouble> {
    let [selector, rest @ ..] = fields else {
        return Err(Trouble::Line);
    };
    match &card_at(bench, selector)? {
        Some(card) => of_form(bench.alloc, line, word, card, rest),
        None => Err(Trouble::Line),
    }
}

pub fn call(
    bench: &mut Bench,
    line: &mut Line,
    word: &str,
    fields: &[Vec<u8>],
) -> Result<(), Trouble> {
    match word {
        "answers" | "one_answer" | "ask" => on_form(bench, line, word, fields),
        _ => replies::call(bench, line, word, fields),
    }
}
