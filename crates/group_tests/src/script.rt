// Events as a line names them.
use crate::items::{answer, post, put_board, put_form, put_text, put_words, remove};
use crate::trouble::Trouble;
use bstr::ByteVec;
use group_world::Event;
use host_types::{Bytes, Change, Stamp};
use std::alloc::Global;

/// The moment of all events before a line names another: 28 July 1993, 17:02:01.
pub const EVENING: u64 = 743_878_921;

/// Room for the whole of a reply.
const WHOLE: usize = 40_000;

/// Events in order, of which so many fill the site beforehand, and the posts among them as the changes that they make.
#[derive(Drop)]
pub(crate) struct Script {
    alloc: Global,
    now: Stamp,
    all: Vec<Event>,
    begun: usize,
    pub posts: Vec<(Change, Stamp)>,
}

/// The number that decimal digits write.
pub fn number(field: &str) -> Result<u32, Trouble> {
    field.parse::<u32>().or(Err(Trouble::Line))
}

/// How many posts a board keeps.
pub fn cap_of(field: &str) -> Result<u16, Trouble> {
    field.parse::<u16>().or(Err(Trouble::Line))
}

/// One number, or the first and the last.
fn numbers(field: &str) -> Option<(u64, u64)> {
    let (first, last) = field.split_once("..").unwrap_or((field, field));
    let first = first.parse::<u64>().ok()?;
    Some((first, last.parse::<u64>().ok()?))
}

/// A name, with a number in the place of `#`.
fn name_of(alloc: Global, name: &str, id: u64) -> Result<String, Trouble> {
    match name.split_once('#') {
        Some((front, behind)) => Ok(format!(in alloc; "{front}{id}{behind}")?),
        None => Ok(String::from_str(alloc, name)?),
    }
}

impl Script {
    pub fn new(alloc: Global) -> Result<Script, Trouble> {
        Ok(Script {
            alloc,
            now: Stamp::new(EVENING)?,
            all: Vec::new(alloc),
            begun: 0,
            posts: Vec::new(alloc),
        })
    }

    /// All events.
    pub fn all(&self) -> &[Event] {
        &self.all
    }

    /// The events that fill the site.
    pub fn filling(&self) -> &[Event] {
        self.all.get(..self.begun).unwrap_or(&[])
    }

    /// The events behind those.
    pub fn events(&self) -> &[Event] {
        self.all.get(self.begun..).unwrap_or(&[])
    }

    /// All events so far fill the site.
    fn begin(&mut self) {
        self.begun = self.all.len();
    }

    fn push(&mut self, event: Event) -> Result<(), Trouble> {
        Ok(self.all.push(event)?)
    }

    fn admin(&mut self, change: Change) -> Result<(), Trouble> {
        let now = self.now;
        self.push(Event::Admin { change, now })
    }

    /// The board, the form, and the document `/doc` fill the site.
    pub fn fill(&mut self, cap: u16, lines: u32) -> Result<(), Trouble> {
        self.admin(put_board(self.alloc, cap)?)?;
        self.admin(put_form(self.alloc, b"/sign")?)?;
        self.admin(put_text(self.alloc, b"/doc", lines)?)?;
        self.begin();
        Ok(())
    }

    fn say(&mut self, id: u64, piece: &[u8]) -> Result<(), Trouble> {
        let now = self.now;
        let piece = Bytes::from_slice(self.alloc, piece)?;
        self.push(Event::Bytes { id, piece, now })
    }

    /// `say PIECE`
    fn say_escaped(&mut self, id: u64, piece: &str) -> Result<(), Trouble> {
        let piece = Vec::unescape_bytes(self.alloc, piece)?;
        self.say(id, &piece)
    }

    /// `post NAME LINES`
    fn post(&mut self, id: u64, name: &str, lines: &str) -> Result<(), Trouble> {
        let name = name_of(self.alloc, name, id)?;
        let lines = number(lines)?;
        let made = post(self.alloc, &name, lines)?;
        self.posts.push((made, self.now))?;
        let asked = answer(self.alloc, &name, lines)?;
        self.say(id, asked.as_bytes())
    }

    fn draw(&mut self, id: u64, room: usize) -> Result<(), Trouble> {
        self.push(Event::Draw { id, room })
    }

    /// An event of a session.
    fn read_of(&mut self, id: u64, fields: &[&str]) -> Result<(), Trouble> {
        let now = self.now;
        match fields {
            ["say", piece] => self.say_escaped(id, piece),
            ["post", name, lines] => self.post(id, name, lines),
            ["end"] => self.push(Event::End { id, now }),
            ["draw"] => self.draw(id, WHOLE),
            ["draw", room] => self.draw(id, number(room)? as usize),
            ["leave"] => self.push(Event::Leave { id }),
            _ => Err(Trouble::Line),
        }
    }

    /// `at SECONDS`
    fn set_moment(&mut self, seconds: u32) -> Result<(), Trouble> {
        self.now = Stamp::new(u64::from(seconds))?;
        Ok(())
    }

    fn join(&mut self, count: u32) -> Result<(), Trouble> {
        for _ in 0..count {
            self.push(Event::Join)?;
        }
        Ok(())
    }

    /// An event of no session.
    fn read_other(&mut self, fields: &[&str]) -> Result<(), Trouble> {
        match fields {
            ["join", count] => self.join(number(count)?),
            ["flush"] => self.push(Event::Flush),
            ["put", at, lines] => {
                self.admin(put_text(self.alloc, at.as_bytes(), number(lines)?)?)
            }
            ["words", at, count] => {
                self.admin(put_words(self.alloc, at.as_bytes(), number(count)?)?)
            }
            ["form", at] => self.admin(put_form(self.alloc, at.as_bytes())?),
            ["board", cap] => self.admin(put_board(self.alloc, cap_of(cap)?)?),
            ["remove", at] => self.admin(remove(at.as_bytes())?),
            ["at", seconds] => self.set_moment(number(seconds)?),
            ["begin"] => {
                self.begin();
                Ok(())
            }
            _ => Err(Trouble::Line),
        }
    }

    /// The events of some words. Those of sessions come behind a number, or behind the first and the last.
    pub fn read(&mut self, fields: &[&str]) -> Result<(), Trouble> {
        let [ids, rest @ ..] = fields else {
            return Err(Trouble::Line);
        };
        let Some((first, last)) = numbers(ids) else {
            return self.read_other(fields);
        };
        for id in first..=last {
            self.read_of(id, rest)?;
        }
        Ok(())
    }
}
