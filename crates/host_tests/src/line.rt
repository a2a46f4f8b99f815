// Lines of the two files, as fields.
use crate::trouble::Trouble;
use bstr::ByteVec;
use common_types::escaped;
use host_types::LineList;
use std::alloc::{AllocError, Global};

/// A line that is printed: a word, and each field after a space, escaped.
#[derive(Drop)]
pub(crate) struct Line {
    alloc: Global,
    text: String,
}

impl Line {
    pub fn new(alloc: Global) -> Result<Line, AllocError> {
        Ok(Line {
            alloc,
            text: String::from_str(alloc, "ok")?,
        })
    }

    pub fn as_str(&self) -> &str {
        self.text.as_str()
    }

    /// One more field as it is.
    pub fn word(&mut self, word: &str) -> Result<(), AllocError> {
        self.text.push_str(" ")?;
        self.text.push_str(word)?;
        Ok(())
    }

    /// One more field of any bytes.
    pub fn bytes(&mut self, bytes: &[u8]) -> Result<(), AllocError> {
        let shown = escaped(self.alloc, bytes)?;
        self.word(&shown)
    }

    pub fn number(&mut self, number: u64) -> Result<(), AllocError> {
        let shown = format!(in self.alloc; "{number}")?;
        self.word(&shown)
    }

    /// A field for each line of a list.
    pub fn list(&mut self, list: &LineList) -> Result<(), AllocError> {
        for bytes in list.as_slice() {
            self.bytes(bytes.as_slice())?;
        }
        Ok(())
    }
}

/// The text of a field, which is empty where its bytes are none.
pub fn text_of(field: &[u8]) -> &str {
    std::str::from_utf8(field).unwrap_or("")
}

/// The number that decimal digits write.
pub fn number(field: &[u8]) -> Result<u64, Trouble> {
    text_of(field).parse::<u64>().or(Err(Trouble::Line))
}

/// The same of a port or of how many posts a board keeps.
pub fn small_number(field: &[u8]) -> Result<u16, Trouble> {
    text_of(field).parse::<u16>().or(Err(Trouble::Line))
}

/// Adds the bytes that a part of a field represents: escapes, or behind a count and `*` so many times the same.
fn push_part(alloc: Global, bytes: &mut Vec<u8>, part: &str) -> Result<(), Trouble> {
    let Some((count, repeated)) = part.split_once('*') else {
        bytes.extend_from_slice(&Vec::unescape_bytes(alloc, part)?)?;
        return Ok(());
    };
    let repeated = Vec::unescape_bytes(alloc, repeated)?;
    for _ in 0..number(count.as_bytes())? {
        bytes.extend_from_slice(&repeated)?;
    }
    Ok(())
}

/// The bytes of a field, whose parts have `|` between them.
fn bytes_of(alloc: Global, field: &str) -> Result<Vec<u8>, Trouble> {
    let mut bytes = Vec::new(alloc);
    for part in field.split('|') {
        push_part(alloc, &mut bytes, part)?;
    }
    Ok(bytes)
}

/// The fields of a line, which have one space between each two.
pub fn fields_of(alloc: Global, text: &str) -> Result<Vec<Vec<u8>>, Trouble> {
    let mut fields = Vec::new(alloc);
    for field in text.split(' ') {
        fields.push(bytes_of(alloc, field)?)?;
    }
    Ok(fields)
}
