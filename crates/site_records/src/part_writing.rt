// Writing parts: the entries of a menu, the questions of a form.
ghost use Rattle.std.specs.Prelude.{◌≡◌, ◌≤◌, ◌+◌, ◌*◌, ◌++◌, ◌∷◌, [], false, length, IfOk, OnOk};
ghost use Rattle.std.specs.List.{list_any};
ghost use Rattle.host_types.specs.Items.{is_long_word, is_long_question};
ghost use Rattle.site_records.specs.Records as spec;

use host_types::{Bytes, Entry, EntryList, Question, QuestionList};
use std::alloc::{AllocError, Global};

/// Adds a length in one byte, and the bytes.
pub fn put_short(out: &mut Vec<u8>, text: &[u8]) -> Result<(), AllocError>
    requires { length text.now ≤ 255 }
    ensures { OnOk result (out.new.items ≡ out.old.items ++ spec.short text.now) }
{
    out.push(text.len() as u8)?;
    out.extend_from_slice(text)?;
    Ok(())
}

fn put_entry(out: &mut Vec<u8>, entry: &Entry) -> Result<(), AllocError>
    ensures bytes { OnOk result (out.new.items ≡ out.old.items ++ spec.entry_bytes entry.now) }
    ensures length { OnOk result (length out.new.items ≤ length out.old.items + 431) }
{
    match entry {
        Entry::Local(selector) => {
            out.push(b'L')?;
            put_short(out, selector.as_bytes())
        }
        Entry::Info(title) => {
            out.push(b'i')?;
            put_short(out, title.as_bytes())
        }
        Entry::Url { title, url } => {
            out.push(b'h')?;
            put_short(out, title.as_bytes())?;
            put_short(out, url.as_bytes())
        }
        Entry::Remote {
            kind,
            title,
            selector,
            host,
            port,
        } => {
            out.push(b'R')?;
            out.push(kind.letter())?;
            put_short(out, title.as_bytes())?;
            put_short(out, selector.as_bytes())?;
            put_short(out, host.as_bytes())?;
            out.extend_from_slice(&port.to_be_bytes())
        }
    }
}

/// The entries of a menu in bytes: its part 0.
pub fn entries_bytes(alloc: Global, entries: &EntryList) -> Result<Bytes, AllocError>
    ensures bytes { IfOk result (λ bytes. bytes ≡ spec.entries_bytes entries.now) }
    ensures length { IfOk result (λ bytes. length bytes ≤ 431 * length entries.now) }
{
    let mut out = Vec::new(alloc);
    for entry in entries.as_slice() {
        put_entry(&mut out, entry)?;
    }
    Ok(Bytes::from(out))
}

#[tactic(auto, using(crate::proofs::Lengths::each_word))]
fn put_choices(out: &mut Vec<u8>, choices: &[Bytes]) -> Result<(), AllocError>
    requires short { list_any is_long_word choices.now ≡ false }
    ensures bytes { OnOk result (out.new.items ≡ out.old.items ++ spec.choice_list choices.now) }
    ensures length { OnOk result (length out.new.items ≤ length out.old.items + 41 * length choices.now) }
{
    for choice in choices {
        put_short(out, choice.as_slice())?;
    }
    Ok(())
}

fn put_question(out: &mut Vec<u8>, question: &Question) -> Result<(), AllocError>
    requires { is_long_question question.now ≡ false }
    ensures bytes { OnOk result (out.new.items ≡ out.old.items ++ spec.question_bytes question.now) }
    ensures length { OnOk result (length out.new.items ≤ length out.old.items + 482) }
{
    match question {
        Question::Ask(prompt) => {
            out.push(b'A')?;
            put_short(out, prompt.as_bytes())
        }
        Question::AskL(prompt) => {
            out.push(b'L')?;
            put_short(out, prompt.as_bytes())
        }
        Question::AskP { prompt, word } => {
            out.push(b'P')?;
            put_short(out, prompt.as_bytes())?;
            put_short(out, word.as_slice())
        }
        Question::Choose { prompt, choices } => {
            let choices = choices.as_slice();
            out.push(b'C')?;
            put_short(out, prompt.as_bytes())?;
            out.push(choices.len() as u8)?;
            put_choices(out, choices)
        }
    }
}

/// The questions of a form in bytes: its part 0.
#[tactic(auto, using(crate::proofs::Lengths::each_question))]
pub fn questions_bytes(alloc: Global, questions: &QuestionList) -> Result<Bytes, AllocError>
    requires { list_any is_long_question questions.now ≡ false }
    ensures bytes { IfOk result (λ bytes. bytes ≡ spec.questions_bytes questions.now) }
    ensures length { IfOk result (λ bytes. length bytes ≤ 482 * length questions.now) }
{
    let mut out = Vec::new(alloc);
    for question in questions.as_slice() {
        put_question(&mut out, question)?;
    }
    Ok(Bytes::from(out))
}
