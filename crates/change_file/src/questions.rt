// The questions of a form, as a file of changes writes them.
ghost use Rattle.std.specs.Prelude.{◌≡◌, Some, None, IfOk, IfErr, map};
ghost use Rattle.toml.specs.Data.{as_str};
ghost use Rattle.toml.specs.View.{table_view, view};
ghost use Rattle.change_file.specs.Fails.{HasNoForm, FormFails};
ghost use Rattle.change_file.specs.Tables.{each};
ghost use Rattle.change_file.specs.Questions as spec;

use crate::fault::FormFault;
use crate::named::prompt_at;
use crate::tables::{has_only, text_at, values_at};
use host_types::{Bytes, ChoiceList, Question, Refused, Title};
use std::alloc::Global;
use toml::{Table, Value};

#[tactic(auto, using(crate::proofs::Lists::each_more, crate::proofs::Lists::each_none))]
fn choices_of(alloc: Global, values: &[Value]) -> Result<Vec<Bytes>, FormFault>
    ensures ok { IfOk result (λ cs. each as_str (map view values.now) ≡ Some cs.items) }
    ensures form { result ≡ Err FormFault.Form → each as_str (map view values.now) ≡ None }
{
    let mut choices = Vec::new(alloc);
    for value in values {
        let Some(text) = value.as_str() else {
            return Err(FormFault::Form);
        };
        choices.push(Bytes::from_slice(alloc, text.as_bytes())?)?;
    }
    Ok(choices)
}

fn ask(prompt: Result<Title, Refused>) -> Result<Question, Refused>
    ensures { result ≡ spec.ask prompt }
{
    Ok(Question::Ask(prompt?))
}

fn ask_lines(prompt: Result<Title, Refused>) -> Result<Question, Refused>
    ensures { result ≡ spec.ask_lines prompt }
{
    Ok(Question::AskL(prompt?))
}

fn ask_word(prompt: Result<Title, Refused>, word: Bytes) -> Result<Question, Refused>
    ensures { result ≡ spec.ask_word prompt word }
{
    Ok(Question::AskP {
        prompt: prompt?,
        word,
    })
}

fn choose(prompt: Result<Title, Refused>, choices: ChoiceList) -> Result<Question, Refused>
    ensures { result ≡ spec.choose prompt choices }
{
    Ok(Question::Choose {
        prompt: prompt?,
        choices,
    })
}

fn ask_in(table: &Table) -> Result<Result<Question, Refused>, FormFault>
    ensures ok { IfOk result (λ q. spec.ask_in (table_view table.now) ≡ Some q) }
    ensures fault { IfErr result (HasNoForm (spec.ask_in (table_view table.now))) }
{
    match prompt_at(table, "ask") {
        Some(prompt) => Ok(ask(prompt)),
        None => Err(FormFault::Form),
    }
}

fn askl_in(table: &Table) -> Result<Result<Question, Refused>, FormFault>
    ensures ok { IfOk result (λ q. spec.askl_in (table_view table.now) ≡ Some q) }
    ensures fault { IfErr result (HasNoForm (spec.askl_in (table_view table.now))) }
{
    match prompt_at(table, "askl") {
        Some(prompt) => Ok(ask_lines(prompt)),
        None => Err(FormFault::Form),
    }
}

fn askp_in(alloc: Global, table: &Table) -> Result<Result<Question, Refused>, FormFault>
    ensures ok { IfOk result (λ q. spec.askp_in (table_view table.now) ≡ Some q) }
    ensures fault { IfErr result (FormFails (spec.askp_in (table_view table.now))) }
{
    let Some(prompt) = prompt_at(table, "askp") else {
        return Err(FormFault::Form);
    };
    let Some(word) = text_at(table, "word") else {
        return Err(FormFault::Form);
    };
    Ok(ask_word(prompt, Bytes::from_slice(alloc, word.as_bytes())?))
}

fn choose_in(alloc: Global, table: &Table) -> Result<Result<Question, Refused>, FormFault>
    ensures ok { IfOk result (λ q. spec.choose_in (table_view table.now) ≡ Some q) }
    ensures form { result ≡ Err FormFault.Form → spec.choose_in (table_view table.now) ≡ None }
{
    let Some(prompt) = prompt_at(table, "choose") else {
        return Err(FormFault::Form);
    };
    let Some(values) = values_at(table, "choices") else {
        return Err(FormFault::Form);
    };
    let choices = choices_of(alloc, values)?;
    Ok(choose(prompt, ChoiceList::from(choices)))
}

/// One question, or the refusal of its prompt.
fn question_of(alloc: Global, value: &Value) -> Result<Result<Question, Refused>, FormFault>
    ensures ok { IfOk result (λ q. spec.question_of (view value.now) ≡ Some q) }
    ensures form { result ≡ Err FormFault.Form → spec.question_of (view value.now) ≡ None }
{
    let Some(table) = value.as_table() else {
        return Err(FormFault::Form);
    };
    if has_only(table, &["ask"]) {
        ask_in(table)
    } else if has_only(table, &["askl"]) {
        askl_in(table)
    } else if has_only(table, &["askp", "word"]) {
        askp_in(alloc, table)
    } else if has_only(table, &["choose", "choices"]) {
        choose_in(alloc, table)
    } else {
        Err(FormFault::Form)
    }
}

/// Questions, in their order.
#[tactic(auto, using(crate::proofs::Lists::each_more, crate::proofs::Lists::each_none))]
pub fn questions_of(
    alloc: Global,
    values: &[Value],
) -> Result<Vec<Result<Question, Refused>>, FormFault>
    ensures ok { IfOk result (λ qs. each spec.question_of (map view values.now) ≡ Some qs.items) }
    ensures form { result ≡ Err FormFault.Form → each spec.question_of (map view values.now) ≡ None }
{
    let mut questions = Vec::new(alloc);
    for value in values {
        questions.push(question_of(alloc, value)?)?;
    }
    Ok(questions)
}
