// Items that lines put, and answers to the form.
use crate::trouble::Trouble;
use host_types::{Body, Bytes, Change, Item, Question, QuestionList, Selector, Stamp, Title};
use std::alloc::{AllocError, Global};

/// The board that the form posts on.
const BOARD: &[u8] = b"/book";

/// A line of a text: 59 letters.
const LINE: &str = "xxxxxxxxxxxxxxxxxxxxxxxxxxxxxxxxxxxxxxxxxxxxxxxxxxxxxxxxxxx";

/// So many lines of 59 letters, each with this end.
fn add_lines(text: &mut String, lines: u32, end: &str) -> Result<(), AllocError> {
    for _ in 0..lines {
        text.push_str(LINE)?;
        text.push_str(end)?;
    }
    Ok(())
}

/// A change that puts an item without a summary.
fn put(alloc: Global, selector: &[u8], title: &[u8], body: Body) -> Result<Change, Trouble> {
    let item = Item {
        title: Title::new(title)?,
        stamp: Stamp::start(),
        until: None,
        summary: Bytes::new(alloc),
        body,
    };
    Ok(Change::Put(Selector::new(selector)?, item))
}

/// A change that puts a text.
fn put_bytes(alloc: Global, selector: &[u8], text: &str) -> Result<Change, Trouble> {
    let text = Bytes::from_slice(alloc, text.as_bytes())?;
    let item = Item::text(alloc, Title::new(b"Text")?, Stamp::start(), text)?;
    Ok(Change::Put(Selector::new(selector)?, item))
}

/// Puts a text of so many lines.
pub fn put_text(alloc: Global, selector: &[u8], lines: u32) -> Result<Change, Trouble> {
    let mut text = String::new(alloc);
    add_lines(&mut text, lines, "\n")?;
    put_bytes(alloc, selector, &text)
}

/// Puts a text of so many different words, which begin with all letters by turns.
pub fn put_words(alloc: Global, selector: &[u8], count: u32) -> Result<Change, Trouble> {
    let mut text = String::new(alloc);
    for place in 0..count {
        let letter = b"abcdefghijklmnopqrstuvwxyz"[place as usize % 26] as char;
        text.push_str(&format!(in alloc; "{letter}{place}\n")?)?;
    }
    put_bytes(alloc, selector, &text)
}

/// Puts the board, which keeps so many posts.
pub fn put_board(alloc: Global, cap: u16) -> Result<Change, Trouble> {
    put(alloc, BOARD, b"Book", Body::Board { cap, next: 1 })
}

/// Puts a form for the board: a name, and lines of a message.
pub fn put_form(alloc: Global, selector: &[u8]) -> Result<Change, Trouble> {
    let mut questions = QuestionList::new(alloc);
    questions.push(Question::Ask(Title::new(b"Your name")?))?;
    questions.push(Question::AskL(Title::new(b"Message")?))?;
    let board = Selector::new(BOARD)?;
    put(alloc, selector, b"Sign", Body::Form { board, questions })
}

/// What stands at a selector goes.
pub fn remove(selector: &[u8]) -> Result<Change, Trouble> {
    Ok(Change::Remove(Selector::new(selector)?))
}

/// An answer to the form: a name, and so many lines of a message.
pub fn answer(alloc: Global, name: &str, lines: u32) -> Result<String, AllocError> {
    let mut text = format!(in alloc; "/sign\t+\t1\r\n+-1\r\n{name}\r\n{lines}\r\n")?;
    add_lines(&mut text, lines, "\r\n")?;
    text.push_str(".\r\n")?;
    Ok(text)
}

/// The post that such an answer makes.
pub fn post(alloc: Global, name: &str, lines: u32) -> Result<Change, Trouble> {
    let mut text = format!(in alloc; "Your name: {name}\nMessage:\n")?;
    add_lines(&mut text, lines, "\n")?;
    Ok(Change::Post {
        board: Selector::new(BOARD)?,
        title: Title::new(name.as_bytes())?,
        text: Bytes::from_slice(alloc, text.as_bytes())?,
    })
}
