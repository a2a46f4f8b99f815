// The blocks of an item, and replies of blocks.
ghost use Rattle.std.specs.Prelude.{◌≡◌, ◌++◌, OnOk, IfOk, codes, flat_map, bytes_eq};
ghost use Rattle.std.specs.List.{list_any};
ghost use Rattle.plus_blocks.specs.Blocks as spec;

use crate::blocks::{push_abstract, push_admin, push_ask, push_info, push_views};
use host_types::{Address, Bytes, Card, CardBody, LineList, Selector, Stamp};
use std::alloc::{AllocError, Global};
use text_writer::item_line;

/// Whether a name is among these.
fn is_among(names: &[Bytes], name: &[u8]) -> bool
    ensures { result ≡ list_any (bytes_eq name.now) names.now }
{
    for one in names {
        if name == one.as_slice() {
            return true;
        }
    }
    false
}

/// Whether a block is requested: no names request all.
fn is_asked(names: &LineList, name: &[u8]) -> bool
    ensures { result ≡ spec.is_asked names.now name.now }
{
    let names = names.as_slice();
    names.is_empty() || is_among(names, name)
}

/// Adds the views of a document.
fn push_views_of(alloc: Global, out: &mut Vec<u8>, body: &CardBody) -> Result<(), AllocError>
    ensures { OnOk result (out.new.items ≡ out.old.items ++ spec.views_of body.now) }
{
    match body {
        CardBody::Views(_, views) => push_views(alloc, out, views),
        _ => Ok(()),
    }
}

/// Adds the questions of a form.
fn push_asks_of(out: &mut Vec<u8>, body: &CardBody) -> Result<(), AllocError>
    ensures { OnOk result (out.new.items ≡ out.old.items ++ spec.asks_of body.now) }
{
    match body {
        CardBody::Form { questions, .. } => push_ask(out, questions),
        _ => Ok(()),
    }
}

fn push_asked_admin(
    out: &mut Vec<u8>,
    names: &LineList,
    address: &Address<'_>,
    stamp: Stamp,
) -> Result<(), AllocError>
    ensures { OnOk result (out.new.items ≡ out.old.items ++ spec.asked_for names.now (codes "+ADMIN") (spec.admin address.now.admin stamp)) }
{
    if is_asked(names, b"+ADMIN") {
        push_admin(out, address.admin, stamp)
    } else {
        Ok(())
    }
}

fn push_asked_views(
    alloc: Global,
    out: &mut Vec<u8>,
    names: &LineList,
    body: &CardBody,
) -> Result<(), AllocError>
    ensures { OnOk result (out.new.items ≡ out.old.items ++ spec.asked_for names.now (codes "+VIEWS") (spec.views_of body.now)) }
{
    if is_asked(names, b"+VIEWS") {
        push_views_of(alloc, out, body)
    } else {
        Ok(())
    }
}

fn push_asked_abstract(
    alloc: Global,
    out: &mut Vec<u8>,
    names: &LineList,
    summary: &[u8],
) -> Result<(), AllocError>
    ensures { OnOk result (out.new.items ≡ out.old.items ++ spec.asked_for names.now (codes "+ABSTRACT") (spec.abstract_block summary.now)) }
{
    if is_asked(names, b"+ABSTRACT") {
        push_abstract(alloc, out, summary)
    } else {
        Ok(())
    }
}

fn push_asked_questions(
    out: &mut Vec<u8>,
    names: &LineList,
    body: &CardBody,
) -> Result<(), AllocError>
    ensures { OnOk result (out.new.items ≡ out.old.items ++ spec.asked_for names.now (codes "+ASK") (spec.asks_of body.now)) }
{
    if is_asked(names, b"+ASK") {
        push_asks_of(out, body)
    } else {
        Ok(())
    }
}

/// Adds the blocks of an item that are asked for.
#[tactic(auto, unfolding(crate::specs::Blocks::item_blocks))]
fn push_item(
    alloc: Global,
    out: &mut Vec<u8>,
    address: &Address<'_>,
    names: &LineList,
    selector: &Selector,
    card: &Card,
) -> Result<(), AllocError>
    ensures { OnOk result (out.new.items ≡ out.old.items ++ spec.item_blocks address.now names.now selector.now card.now) }
{
    let line = item_line(alloc, address, selector, card)?;
    push_info(out, line.as_slice())?;
    push_asked_admin(out, names, address, card.stamp)?;
    push_asked_views(alloc, out, names, &card.body)?;
    push_asked_abstract(alloc, out, names, card.summary.as_slice())?;
    push_asked_questions(out, names, &card.body)
}

/// The blocks of an item: `+INFO` always, and of the others those of these names that it has; no names ask for all.
pub fn item_blocks(
    alloc: Global,
    address: &Address<'_>,
    names: &LineList,
    selector: &Selector,
    card: &Card,
) -> Result<Bytes, AllocError>
    ensures { IfOk result (λ blocks. blocks ≡ spec.item_blocks address.now names.now selector.now card.now) }
{
    let mut blocks = Vec::new(alloc);
    push_item(alloc, &mut blocks, address, names, selector, card)?;
    Ok(Bytes::from(blocks))
}

/// The reply to `!`: the blocks of an item, ended by a line that is one period.
pub fn attributes(
    alloc: Global,
    address: &Address<'_>,
    names: &LineList,
    selector: &Selector,
    card: &Card,
) -> Result<Bytes, AllocError>
    ensures { IfOk result (λ reply. reply ≡ spec.attributes address.now names.now selector.now card.now) }
{
    let mut reply = Vec::new(alloc);
    reply.extend_from_slice(b"+-1\r\n")?;
    push_item(alloc, &mut reply, address, names, selector, card)?;
    reply.extend_from_slice(b".\r\n")?;
    Ok(Bytes::from(reply))
}

/// The reply to `$`: the blocks of each entry that gives a line, ended by a line that is one period.
#[tactic(auto, unfolding(crate::specs::Blocks::entry_attributes))]
pub fn entry_attributes(alloc: Global, blocks: &LineList) -> Result<Bytes, AllocError>
    ensures { IfOk result (λ reply. reply ≡ spec.entry_attributes blocks.now) }
{
    let mut out = Vec::new(alloc);
    out.extend_from_slice(b"+-1\r\n")?;
    for of_entry in blocks.as_slice() {
        out.extend_from_slice(of_entry.as_slice())?;
    }
    out.extend_from_slice(b".\r\n")?;
    Ok(Bytes::from(out))
}
