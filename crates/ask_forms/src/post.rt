// The post that answers make.
ghost use Rattle.std.specs.Prelude.{◌≡◌, ◌++◌, IfOk, OnOk, flat_map};
ghost use Rattle.std.specs.Option.{option_copied};
ghost use Rattle.host_types.specs.Items.{prompt_of};
ghost use Rattle.ask_forms.specs.Post as spec;
ghost use Rattle.ask_forms.specs.Post.{post_text, post_title, first_answered, shown};

use crate::title::title_of;
use crate::{Answer, AnswerList};
use host_types::{Bytes, Question, QuestionList, Title};
use std::alloc::{AllocError, Global};

/// A post, before it has a number.
#[derive(Debug, Drop)]
pub struct Post {
    pub title: Title,
    pub text: Bytes,
}

fn prompt_of(question: &Question) -> &Title
    ensures { result.now ≡ prompt_of question.now }
{
    match question {
        Question::Ask(prompt) | Question::AskL(prompt) => prompt,
        Question::AskP { prompt, .. } | Question::Choose { prompt, .. } => prompt,
    }
}

/// Whether the answer is shown: a word that is asked for is not.
fn is_shown(question: &Question) -> bool
    ensures { result ≡ spec.is_shown question.now }
{
    match question {
        Question::AskP { .. } => false,
        _ => true,
    }
}

fn push_lines(text: &mut Vec<u8>, lines: &[Bytes]) -> Result<(), AllocError>
    ensures { OnOk result (text.new.items ≡ text.old.items ++ flat_map spec.ended lines.now) }
{
    for line in lines {
        text.extend_from_slice(line.as_slice())?;
        text.push(b'\n')?;
    }
    Ok(())
}

fn push_answer(text: &mut Vec<u8>, prompt: &[u8], answer: &Answer) -> Result<(), AllocError>
    ensures { OnOk result (text.new.items ≡ text.old.items ++ spec.answer_text prompt.now answer.now) }
{
    text.extend_from_slice(prompt)?;
    match answer {
        Answer::One(line) => {
            text.extend_from_slice(b": ")?;
            text.extend_from_slice(line.as_slice())?;
            text.push(b'\n')?;
        }
        Answer::Many(lines) => {
            text.extend_from_slice(b":\n")?;
            push_lines(text, lines.as_slice())?;
        }
    }
    Ok(())
}

/// Each shown question with its answer, as a text.
#[tactic(auto, unfolding(crate::specs::Post::post_text))]
fn text_of(alloc: Global, questions: &[Question], answers: &[Answer]) -> Result<Bytes, AllocError>
    ensures { IfOk result (λ text. text ≡ post_text questions.now answers.now) }
{
    let mut text = Vec::new(alloc);
    for (question, answer) in questions.iter().zip(answers) {
        if is_shown(question) {
            push_answer(&mut text, prompt_of(question).as_bytes(), answer)?;
        }
    }
    Ok(Bytes::from(text))
}

fn first_line(answer: &Answer) -> &[u8]
    ensures { result.now ≡ spec.first_line answer.now }
{
    match answer {
        Answer::One(line) => line.as_slice(),
        Answer::Many(lines) => match lines.as_slice() {
            [line, ..] => line.as_slice(),
            [] => &[],
        },
    }
}

/// The first line of the first answer that is shown.
fn first_shown<'a>(questions: &[Question], answers: &'a [Answer]) -> &'a [u8]
    ensures { result.now ≡ first_answered (shown questions.now answers.now) }
{
    for (question, answer) in questions.iter().zip(answers) {
        if is_shown(question) {
            return first_line(answer);
        }
    }
    &[]
}

/// The post that answers to the questions of a form make: each question with its answer, but for
/// words that are asked for, and as its title the first line of the first of these answers, with
/// spaces for TAB, CR and NUL and at most 69 bytes, or else `Untitled`.
pub fn post_of(
    alloc: Global,
    questions: &QuestionList,
    answers: &AnswerList,
) -> Result<Post, AllocError>
    ensures title { IfOk result (λ post. post.title ≡ post_title questions.now answers.now) }
    ensures text { IfOk result (λ post. post.text ≡ post_text questions.now answers.now) }
{
    let questions = questions.as_slice();
    let answers = answers.as_slice();
    Ok(Post {
        title: title_of(alloc, first_shown(questions, answers))?,
        text: text_of(alloc, questions, answers)?,
    })
}
