// Heads of replies, and blocks one by one.
ghost use Rattle.std.specs.Prelude.{◌≡◌, ◌∷◌, ◌++◌, OnOk, IfOk, codes, decimal, flat_map, map};
ghost use Rattle.plus_blocks.specs.Blocks as spec;
ghost use Rattle.plus_blocks.specs.Date.{mod_date};

use crate::date::push_mod_date;
use host_types::{
    Admin, Bytes, CardView, CardViewList, ChoiceList, LineList, Question, QuestionList, Stamp,
    lines_of,
};
use std::alloc::{AllocError, Global};

/// Adds a number in decimal digits.
fn push_number(alloc: Global, out: &mut Vec<u8>, number: u64) -> Result<(), AllocError>
    ensures { OnOk result (out.new.items ≡ out.old.items ++ decimal number) }
{
    let digits = format!(in alloc; "{number}")?;
    out.extend_from_slice(digits.as_bytes())
}

/// The head of a Gopher+ reply: of so many bytes, or ended by a line that is one period.
pub fn head(alloc: Global, bytes: Option<usize>) -> Result<Bytes, AllocError>
    ensures { IfOk result (λ head. head ≡ spec.head bytes) }
{
    let mut out = Vec::new(alloc);
    match bytes {
        None => out.extend_from_slice(b"+-1\r\n")?,
        Some(bytes) => {
            out.push(b'+')?;
            push_number(alloc, &mut out, bytes as u64)?;
            out.extend_from_slice(b"\r\n")?;
        }
    }
    Ok(Bytes::from(out))
}

pub(crate) fn push_info(out: &mut Vec<u8>, line: &[u8]) -> Result<(), AllocError>
    ensures { OnOk result (out.new.items ≡ out.old.items ++ spec.info line.now) }
{
    out.extend_from_slice(b"+INFO: ")?;
    out.extend_from_slice(line)
}

/// The block of a menu line, which ends with CR LF.
pub fn info(alloc: Global, line: &[u8]) -> Result<Bytes, AllocError>
    ensures { IfOk result (λ block. block ≡ spec.info line.now) }
{
    let mut out = Vec::new(alloc);
    push_info(&mut out, line)?;
    Ok(Bytes::from(out))
}

/// Adds a line of a block.
fn push_line(out: &mut Vec<u8>, line: &[u8]) -> Result<(), AllocError>
    ensures { OnOk result (out.new.items ≡ out.old.items ++ spec.block_line line.now) }
{
    out.push(b' ')?;
    out.extend_from_slice(line)?;
    out.extend_from_slice(b"\r\n")
}

/// Adds the line of who keeps a site.
fn push_keeper(out: &mut Vec<u8>, admin: &Admin) -> Result<(), AllocError>
    ensures { OnOk result (out.new.items ≡ out.old.items ++ spec.block_line (codes "Admin: " ++ admin.now)) }
{
    out.extend_from_slice(b" Admin: ")?;
    out.extend_from_slice(admin.as_bytes())?;
    out.extend_from_slice(b"\r\n")
}

/// Adds the line of when an item last changed.
fn push_change(out: &mut Vec<u8>, stamp: Stamp) -> Result<(), AllocError>
    ensures { OnOk result (out.new.items ≡ out.old.items ++ spec.block_line (codes "Mod-Date: " ++ mod_date stamp)) }
{
    out.extend_from_slice(b" Mod-Date: ")?;
    push_mod_date(out, stamp)?;
    out.extend_from_slice(b"\r\n")
}

#[tactic(auto, unfolding(crate::specs::Blocks::block))]
pub(crate) fn push_admin(out: &mut Vec<u8>, admin: &Admin, stamp: Stamp) -> Result<(), AllocError>
    ensures { OnOk result (out.new.items ≡ out.old.items ++ spec.admin admin.now stamp) }
{
    out.extend_from_slice(b"+ADMIN:\r\n")?;
    push_keeper(out, admin)?;
    push_change(out, stamp)
}

/// The block of who keeps a site, and of when an item last changed, in UTC.
pub fn admin(alloc: Global, admin: &Admin, stamp: Stamp) -> Result<Bytes, AllocError>
    ensures { IfOk result (λ block. block ≡ spec.admin admin.now stamp) }
{
    let mut out = Vec::new(alloc);
    push_admin(&mut out, admin, stamp)?;
    Ok(Bytes::from(out))
}

/// How many bytes a kilobyte has, as views count them.
const KILOBYTE: u64 = 1024;

/// How many times 1,024 bytes, rounded up.
#[tactic(auto, unfolding(crate::specs::Blocks::kilobytes))]
fn kilobytes(bytes: u32) -> u64
    ensures { result ≡ spec.kilobytes bytes }
{
    (u64::from(bytes) + (KILOBYTE - 1)) / KILOBYTE
}

/// Adds the line of a view: its name, its language where it has one, and its size.
fn push_view(alloc: Global, out: &mut Vec<u8>, view: &CardView) -> Result<(), AllocError>
    ensures { OnOk result (out.new.items ≡ out.old.items ++ spec.block_line (spec.view_line view.now)) }
{
    out.push(b' ')?;
    out.extend_from_slice(view.name.as_slice())?;
    if !view.language.is_empty() {
        out.push(b' ')?;
        out.extend_from_slice(view.language.as_slice())?;
    }
    out.extend_from_slice(b": <")?;
    push_number(alloc, out, kilobytes(view.length))?;
    out.extend_from_slice(b"k>\r\n")
}

#[tactic(auto, unfolding(crate::specs::Blocks::block))]
pub(crate) fn push_views(
    alloc: Global,
    out: &mut Vec<u8>,
    views: &CardViewList,
) -> Result<(), AllocError>
    ensures { OnOk result (out.new.items ≡ out.old.items ++ spec.views views.now) }
{
    out.extend_from_slice(b"+VIEWS:\r\n")?;
    for view in views.as_slice() {
        push_view(alloc, out, view)?;
    }
    Ok(())
}

/// The block of a document's views.
pub fn views(alloc: Global, views: &CardViewList) -> Result<Bytes, AllocError>
    ensures { IfOk result (λ block. block ≡ spec.views views.now) }
{
    let mut out = Vec::new(alloc);
    push_views(alloc, &mut out, views)?;
    Ok(Bytes::from(out))
}

/// Adds the lines of a summary.
fn push_lines(out: &mut Vec<u8>, lines: &LineList) -> Result<(), AllocError>
    ensures { OnOk result (out.new.items ≡ out.old.items ++ flat_map spec.block_line lines.now) }
{
    for line in lines.as_slice() {
        push_line(out, line.as_slice())?;
    }
    Ok(())
}

/// Adds the block of a summary with these lines.
#[tactic(auto, unfolding(crate::specs::Blocks::block))]
fn push_summary(out: &mut Vec<u8>, lines: &LineList) -> Result<(), AllocError>
    ensures { OnOk result (out.new.items ≡ out.old.items ++ spec.block (codes "+ABSTRACT") lines.now) }
{
    out.extend_from_slice(b"+ABSTRACT:\r\n")?;
    push_lines(out, lines)
}

pub(crate) fn push_abstract(
    alloc: Global,
    out: &mut Vec<u8>,
    summary: &[u8],
) -> Result<(), AllocError>
    ensures { OnOk result (out.new.items ≡ out.old.items ++ spec.abstract_block summary.now) }
{
    if summary.is_empty() {
        return Ok(());
    }
    let lines = lines_of(alloc, summary)?;
    push_summary(out, &lines)
}

/// The block of a summary; no bytes where it has none.
pub fn abstract_block(alloc: Global, summary: &[u8]) -> Result<Bytes, AllocError>
    ensures { IfOk result (λ block. block ≡ spec.abstract_block summary.now) }
{
    let mut out = Vec::new(alloc);
    push_abstract(alloc, &mut out, summary)?;
    Ok(Bytes::from(out))
}

/// Adds each choice after a TAB.
fn push_choices(out: &mut Vec<u8>, choices: &ChoiceList) -> Result<(), AllocError>
    ensures { OnOk result (out.new.items ≡ out.old.items ++ flat_map (λ choice. 9 ∷ choice) choices.now) }
{
    for choice in choices.as_slice() {
        out.push(b'\t')?;
        out.extend_from_slice(choice.as_slice())?;
    }
    Ok(())
}

/// Adds the kind of a question, its prompt and its choices. The word of a secret question isn't shown.
fn push_asked(out: &mut Vec<u8>, question: &Question) -> Result<(), AllocError>
    ensures { OnOk result (out.new.items ≡ out.old.items ++ spec.question_line question.now) }
{
    match question {
        Question::Ask(prompt) => {
            out.extend_from_slice(b"Ask: ")?;
            out.extend_from_slice(prompt.as_bytes())
        }
        Question::AskL(prompt) => {
            out.extend_from_slice(b"AskL: ")?;
            out.extend_from_slice(prompt.as_bytes())
        }
        Question::AskP { prompt, .. } => {
            out.extend_from_slice(b"AskP: ")?;
            out.extend_from_slice(prompt.as_bytes())
        }
        Question::Choose { prompt, choices } => {
            out.extend_from_slice(b"Choose: ")?;
            out.extend_from_slice(prompt.as_bytes())?;
            push_choices(out, choices)
        }
    }
}

#[tactic(auto, unfolding(crate::specs::Blocks::block))]
pub(crate) fn push_ask(out: &mut Vec<u8>, questions: &QuestionList) -> Result<(), AllocError>
    ensures { OnOk result (out.new.items ≡ out.old.items ++ spec.ask_block questions.now) }
{
    out.extend_from_slice(b"+ASK:\r\n")?;
    for question in questions.as_slice() {
        out.push(b' ')?;
        push_asked(out, question)?;
        out.extend_from_slice(b"\r\n")?;
    }
    Ok(())
}

/// The block of a form's questions.
pub fn ask_block(alloc: Global, questions: &QuestionList) -> Result<Bytes, AllocError>
    ensures { IfOk result (λ block. block ≡ spec.ask_block questions.now) }
{
    let mut out = Vec::new(alloc);
    push_ask(&mut out, questions)?;
    Ok(Bytes::from(out))
}
