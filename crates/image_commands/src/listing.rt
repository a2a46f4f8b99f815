// The lines of items.
ghost use Rattle.std.specs.Prelude.{◌≡◌, ◌++◌, OnOk};
ghost use Rattle.image_commands.specs.Listing as spec;

use common_types::escaped;
use host_types::{Card, CardBody, Selector};
use plus_blocks::push_listed_date;
use std::alloc::{AllocError, Global};

/// How much the line of an item says.
#[derive(Clone, Copy, Debug, PartialEq, Eq)]
pub enum ListForm {
    /// What it is, its selector and its title.
    Short,
    /// When it was last changed and its size, too.
    Long,
}

/// `>` of an item that has moved, and else the letter that its menu line begins with.
fn listed_letter(body: &CardBody) -> u8
    ensures { result ≡ spec.listed_letter body.now }
{
    match body {
        CardBody::Views(kind, _) => kind.letter(),
        CardBody::Menu(_) | CardBody::Board { .. } | CardBody::Form { .. } => b'1',
        CardBody::Search { .. } => b'7',
        CardBody::Moved { .. } => b'>',
    }
}

/// Adds the selector and the title of an item.
fn list_name(
    alloc: Global,
    text: &mut Vec<u8>,
    selector: &Selector,
    card: &Card,
) -> Result<(), AllocError>
    ensures { OnOk result (text.new.items ≡ text.old.items ++ spec.named selector.now card.now) }
{
    let name = escaped(alloc, selector.as_bytes())?;
    let title = escaped(alloc, card.title.as_bytes())?;
    text.push(b' ')?;
    text.extend_from_slice(name.as_bytes())?;
    text.push(b' ')?;
    text.extend_from_slice(title.as_bytes())?;
    text.push(b'\n')?;
    Ok(())
}

/// Adds the line of an item.
pub fn list_item(
    alloc: Global,
    text: &mut Vec<u8>,
    selector: &Selector,
    card: &Card,
) -> Result<(), AllocError>
    ensures { OnOk result (text.new.items ≡ text.old.items ++ spec.listed_line selector.now card.now) }
{
    text.push(listed_letter(&card.body))?;
    list_name(alloc, text, selector, card)
}

/// Of a document the bytes of its first view, of a menu its entries, of a board the posts that it has had, of a form its questions.
fn size_of(body: &CardBody) -> Option<u64>
    ensures { result ≡ spec.size_of body.now }
{
    match body {
        CardBody::Views(_, views) => Some(u64::from(views.as_slice().first()?.length)),
        CardBody::Menu(entries) => Some(entries.as_slice().len() as u64),
        CardBody::Board { next, .. } => Some(next.saturating_sub(1)),
        CardBody::Form { questions, .. } => Some(questions.as_slice().len() as u64),
        CardBody::Search { .. } | CardBody::Moved { .. } => None,
    }
}

/// Adds a size, or a line where there is none.
fn push_size(alloc: Global, text: &mut Vec<u8>, size: Option<u64>) -> Result<(), AllocError>
    ensures { OnOk result (text.new.items ≡ text.old.items ++ spec.size_text size) }
{
    match size {
        Some(size) => text.extend_from_slice(format!(in alloc; "{size}")?.as_bytes())?,
        None => text.push(b'-')?,
    }
    Ok(())
}

/// Adds the letter, the date and the size of an item.
fn list_figures(alloc: Global, text: &mut Vec<u8>, card: &Card) -> Result<(), AllocError>
    ensures { OnOk result (text.new.items ≡ text.old.items ++ spec.figures_of card.now) }
{
    text.push(listed_letter(&card.body))?;
    text.push(b' ')?;
    push_listed_date(text, card.stamp)?;
    text.push(b' ')?;
    push_size(alloc, text, size_of(&card.body))
}

/// Adds the long line of an item.
fn list_long(
    alloc: Global,
    text: &mut Vec<u8>,
    selector: &Selector,
    card: &Card,
) -> Result<(), AllocError>
    ensures { OnOk result (text.new.items ≡ text.old.items ++ spec.long_line selector.now card.now) }
{
    list_figures(alloc, text, card)?;
    list_name(alloc, text, selector, card)
}

/// Adds the line of an item in a form.
pub(crate) fn list_in(
    alloc: Global,
    form: ListForm,
    text: &mut Vec<u8>,
    selector: &Selector,
    card: &Card,
) -> Result<(), AllocError>
    ensures { OnOk result (text.new.items ≡ text.old.items ++ spec.line_in form selector.now card.now) }
{
    match form {
        ListForm::Short => list_item(alloc, text, selector, card),
        ListForm::Long => list_long(alloc, text, selector, card),
    }
}
