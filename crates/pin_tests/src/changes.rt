// Documents, and changes of a site.
use crate::trouble::Trouble;
use host_types::{Body, Bytes, Change, Item, Question, QuestionList, Selector, Stamp, Title};
use std::alloc::{AllocError, Global};
use test_help::Dice;

/// How many bytes a line of a document has, with its LF.
const LINE: usize = 512;

/// A text of lines of letters, and what is sent of it.
#[derive(Drop)]
pub(crate) struct Document {
    pub text: Vec<u8>,
    pub sent: Vec<u8>,
}

fn letters(alloc: Global, dice: &mut Dice) -> Result<Vec<u8>, AllocError> {
    let mut letters = Vec::new(alloc);
    for _ in 1..LINE {
        letters.push(b"abcdefghijklmnopqrstuvwxyz"[dice.roll(26)])?;
    }
    Ok(letters)
}

impl Document {
    /// A document of so many lines.
    pub fn new(alloc: Global, dice: &mut Dice, lines: usize) -> Result<Document, AllocError> {
        let mut text = Vec::new(alloc);
        let mut sent = Vec::new(alloc);
        for _ in 0..lines {
            let line = letters(alloc, dice)?;
            text.extend_from_slice(&line)?;
            text.push(b'\n')?;
            sent.extend_from_slice(&line)?;
            sent.extend_from_slice(b"\r\n")?;
        }
        sent.extend_from_slice(b".\r\n")?;
        Ok(Document { text, sent })
    }
}

/// A change that puts an item without a summary.
fn put(alloc: Global, selector: &[u8], body: Body) -> Result<Change, Trouble> {
    let item = Item {
        title: Title::new(b"An item")?,
        stamp: Stamp::start(),
        until: None,
        summary: Bytes::new(alloc),
        body,
    };
    Ok(Change::Put(Selector::new(selector)?, item))
}

/// Puts a text.
pub fn put_text(alloc: Global, selector: &[u8], text: &[u8]) -> Result<Change, Trouble> {
    let text = Bytes::from_slice(alloc, text)?;
    let item = Item::text(alloc, Title::new(b"A text")?, Stamp::start(), text)?;
    Ok(Change::Put(Selector::new(selector)?, item))
}

/// Puts the board `/book`, of 100 posts at most.
pub fn put_board(alloc: Global) -> Result<Change, Trouble> {
    put(alloc, b"/book", Body::Board { cap: 100, next: 1 })
}

/// Puts the form `/sign` for the board: a name, and lines of a message.
pub fn put_form(alloc: Global) -> Result<Change, Trouble> {
    let mut questions = QuestionList::new(alloc);
    questions.push(Question::Ask(Title::new(b"Your name")?))?;
    questions.push(Question::AskL(Title::new(b"Message")?))?;
    let board = Selector::new(b"/book")?;
    put(alloc, b"/sign", Body::Form { board, questions })
}

pub fn remove(selector: &[u8]) -> Result<Change, Trouble> {
    Ok(Change::Remove(Selector::new(selector)?))
}
