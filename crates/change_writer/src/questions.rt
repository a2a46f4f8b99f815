// The questions of a form, as a file of changes writes them.
ghost use Rattle.std.specs.Prelude.{◌≡◌, ◌≤◌, IfOk, OnOk, Some, Ok, Err, All, IsUtf8, map};
ghost use Rattle.host_types.specs.declared.form.Question.TheVariants as questions;
ghost use Rattle.toml.specs.Data.{depth, items_depth, string, table, member, no_members, as_str};
ghost use Rattle.toml.specs.View.{view, items_view};
ghost use Rattle.change_file.specs.Tables.{each};
ghost use Rattle.change_file.specs.Named.{prompt_named};
ghost use Rattle.change_file.specs.Questions.{question_of};
ghost use Rattle.change_writer.specs.Said.{IsSaidPrompt, IsSaidQuestion};
ghost use Rattle.change_writer.specs.declared.fault.WriteFault.TheVariants.{Unsaid};

use crate::WriteFault;
use crate::tables::{no_table, text, with};
use host_types::{Bytes, Question, Title};
use std::alloc::Global;
use toml::Value;

/// A prompt, which has a byte at least.
fn prompt(alloc: Global, prompt: &Title) -> Result<Value, WriteFault>
    ensures text { IfOk result (λ v. view v ≡ string prompt.now) }
    ensures named { OnOk result (prompt_named prompt.now ≡ Ok prompt.now) }
    ensures said { OnOk result (IsSaidPrompt prompt.now) }
    ensures unsaid { result ≡ Err Unsaid → ¬ (IsSaidPrompt prompt.now) }
{
    let bytes = prompt.as_bytes();
    if bytes.is_empty() {
        return Err(WriteFault::Unsaid);
    }
    text(alloc, bytes)
}

/// A question of a prompt alone.
fn asked(alloc: Global, key: &str, title: &Title) -> Result<Value, WriteFault>
    ensures table { IfOk result (λ v. view v ≡ table (member key.now (string title.now) no_members)) }
    ensures named { OnOk result (prompt_named title.now ≡ Ok title.now) }
    ensures said { OnOk result (IsSaidPrompt title.now) }
    ensures unsaid { result ≡ Err Unsaid → ¬ (IsSaidPrompt title.now) }
{
    let title = prompt(alloc, title)?;
    Ok(Value::Table(with(alloc, no_table(alloc), key, title)?))
}

#[tactic(auto, using(crate::proofs::SmallTables::askp_reads))]
fn ask_word(alloc: Global, title: &Title, word: &Bytes) -> Result<Value, WriteFault>
    ensures read { IfOk result (λ v. question_of (view v) ≡ Some (Ok (questions.AskP title.now word.now))) }
    ensures depth { IfOk result (λ v. depth (view v) ≤ 2) }
    ensures said { OnOk result (IsSaidPrompt title.now × IsUtf8 word.now) }
    ensures unsaid { result ≡ Err Unsaid → ¬ (IsSaidPrompt title.now × IsUtf8 word.now) }
{
    let title = prompt(alloc, title)?;
    let word = text(alloc, word.as_slice())?;
    let table = with(alloc, no_table(alloc), "askp", title)?;
    Ok(Value::Table(with(alloc, table, "word", word)?))
}

/// Texts, in their order.
#[tactic(auto, using(crate::proofs::Lists::each_same, crate::proofs::Lists::depth_more, crate::proofs::Lists::all_more, crate::proofs::Lists::not_all))]
fn texts(alloc: Global, texts: &[Bytes]) -> Result<Vec<Value>, WriteFault>
    ensures read { IfOk result (λ vs. each as_str (map view vs.items) ≡ Some texts.now) }
    ensures depth { IfOk result (λ vs. items_depth (items_view vs.items) ≤ 0) }
    ensures said { OnOk result (All IsUtf8 texts.now) }
    ensures unsaid { result ≡ Err Unsaid → ¬ (All IsUtf8 texts.now) }
{
    let mut values = Vec::new(alloc);
    for one in texts {
        values.push(text(alloc, one.as_slice())?)?;
    }
    Ok(values)
}

#[tactic(auto, using(crate::proofs::SmallTables::choose_reads, crate::proofs::Lists::values_seen))]
fn choose(alloc: Global, title: &Title, choices: &[Bytes]) -> Result<Value, WriteFault>
    ensures read { IfOk result (λ v. question_of (view v) ≡ Some (Ok (questions.Choose title.now choices.now))) }
    ensures depth { IfOk result (λ v. depth (view v) ≤ 2) }
    ensures said { OnOk result (IsSaidPrompt title.now × All IsUtf8 choices.now) }
    ensures unsaid { result ≡ Err Unsaid → ¬ (IsSaidPrompt title.now × All IsUtf8 choices.now) }
{
    let title = prompt(alloc, title)?;
    let choices = texts(alloc, choices)?;
    let table = with(alloc, no_table(alloc), "choose", title)?;
    Ok(Value::Table(with(alloc, table, "choices", Value::Array(choices))?))
}

/// One question.
#[tactic(auto, using(crate::proofs::SmallTables::ask_reads, crate::proofs::SmallTables::askl_reads))]
fn question(alloc: Global, question: &Question) -> Result<Value, WriteFault>
    ensures read { IfOk result (λ v. question_of (view v) ≡ Some (Ok question.now)) }
    ensures depth { IfOk result (λ v. depth (view v) ≤ 2) }
    ensures said { OnOk result (IsSaidQuestion question.now) }
    ensures unsaid { result ≡ Err Unsaid → ¬ (IsSaidQuestion question.now) }
{
    match question {
        Question::Ask(title) => asked(alloc, "ask", title),
        Question::AskL(title) => asked(alloc, "askl", title),
        Question::AskP { prompt, word } => ask_word(alloc, prompt, word),
        Question::Choose { prompt, choices } => choose(alloc, prompt, choices.as_slice()),
    }
}

/// Questions, in their order.
#[tactic(auto, using(crate::proofs::Lists::each_more, crate::proofs::Lists::depth_more, crate::proofs::Lists::all_more, crate::proofs::Lists::not_all))]
pub fn questions(alloc: Global, questions: &[Question]) -> Result<Vec<Value>, WriteFault>
    ensures read { IfOk result (λ vs. each question_of (map view vs.items) ≡ Some (map (λ q. Ok q) questions.now)) }
    ensures depth { IfOk result (λ vs. items_depth (items_view vs.items) ≤ 2) }
    ensures said { OnOk result (All IsSaidQuestion questions.now) }
    ensures unsaid { result ≡ Err Unsaid → ¬ (All IsSaidQuestion questions.now) }
{
    let mut values = Vec::new(alloc);
    for one in questions {
        values.push(question(alloc, one)?)?;
    }
    Ok(values)
}
