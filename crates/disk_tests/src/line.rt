// Lines of the two files, as fields.
use crate::trouble::Trouble;
use std::alloc::{AllocError, Global};

/// A line that is printed: fields after spaces, in the form that fields are read in.
#[derive(Drop)]
pub(crate) struct Line {
    pub alloc: Global,
    pub text: Vec<u8>,
}

impl Line {
    /// One more field as it is.
    pub fn word(&mut self, word: &str) -> Result<(), Trouble> {
        self.text.push(b' ')?;
        Ok(self.text.extend_from_slice(word.as_bytes())?)
    }

    pub fn number(&mut self, number: u64) -> Result<(), Trouble> {
        let shown = format!(in self.alloc; "{number}")?;
        self.word(&shown)
    }

    /// One more field of any bytes.
    pub fn bytes(&mut self, bytes: &[u8]) -> Result<(), Trouble> {
        self.text.push(b' ')?;
        Ok(self.runs(bytes)?)
    }

    /// Bytes, of which those that follow each other and are the same stand by their count.
    fn runs(&mut self, bytes: &[u8]) -> Result<(), AllocError> {
        let (mut last, mut count) = (0, 0usize);
        for byte in bytes {
            if *byte != last {
                self.run(last, count)?;
                last = *byte;
                count = 0;
            }
            count = count.saturating_add(1);
        }
        self.run(last, count)
    }

    /// A byte so many times: by its count where that is eight or more.
    fn run(&mut self, byte: u8, count: usize) -> Result<(), AllocError> {
        if count < 8 {
            for _ in 0..count {
                self.byte(byte)?;
            }
            return Ok(());
        }
        self.byte(byte)?;
        let part = format!(in self.alloc; "{{{count}}}")?;
        self.text.extend_from_slice(part.as_bytes())?;
        Ok(())
    }

    /// A byte as it is where it is printed, and else by its two digits.
    fn byte(&mut self, byte: u8) -> Result<(), AllocError> {
        if byte > b' ' && byte < 127 && byte != b'\\' && byte != b'{' {
            self.text.push(byte)?;
            return Ok(());
        }
        self.text.push(b'\\')?;
        self.text.push(digit(byte / 16))?;
        self.text.push(digit(byte % 16))?;
        Ok(())
    }
}

/// The hexadecimal digit of a number below 16.
fn digit(number: u8) -> u8 {
    if number < 10 {
        b'0'.saturating_add(number)
    } else {
        b'W'.saturating_add(number)
    }
}

/// The number of a hexadecimal digit.
fn digit_value(digit: u8) -> u8 {
    if digit >= b'a' {
        digit.wrapping_sub(b'W')
    } else {
        digit.wrapping_sub(b'0')
    }
}

/// The text of a field, which is empty where its bytes are none.
pub fn text_of(field: &[u8]) -> &str {
    std::str::from_utf8(field).unwrap_or("")
}

/// The number that decimal digits write.
pub fn number(field: &[u8]) -> Result<u64, Trouble> {
    text_of(field).parse::<u64>().or(Err(Trouble::Line))
}

/// The same of a number below 65,536.
pub fn small_number(field: &[u8]) -> Result<u16, Trouble> {
    text_of(field).parse::<u16>().or(Err(Trouble::Line))
}

/// Where a field is read.
#[derive(Clone, Copy)]
enum Place {
    Plain,
    /// Behind `\`.
    First,
    /// Behind the first of two digits, which has this value.
    Second(u8),
    /// Behind `{` and digits of this number.
    Count(u64),
}

/// A field that is read byte by byte: bytes that are printed, `\` with two digits of one that is not, and `{N}` behind a byte that stands N times.
#[derive(Drop)]
struct Field {
    bytes: Vec<u8>,
    place: Place,
}

impl Field {
    fn new(alloc: Global) -> Field {
        Field {
            bytes: Vec::new(alloc),
            place: Place::Plain,
        }
    }

    /// Repeats the last byte, so that it stands so many times.
    fn repeat(&mut self, times: u64) -> Result<(), AllocError> {
        let last = self.bytes.as_slice().last().copied().unwrap_or(0);
        for _ in 1..times {
            self.bytes.push(last)?;
        }
        Ok(())
    }

    /// Reads a byte behind `{`.
    fn read_count(&mut self, count: u64, byte: u8) -> Result<Place, AllocError> {
        if byte == b'}' {
            self.repeat(count)?;
            return Ok(Place::Plain);
        }
        let digit = u64::from(digit_value(byte));
        Ok(Place::Count(count.saturating_mul(10).saturating_add(digit)))
    }

    /// Reads one more byte.
    fn read(&mut self, byte: u8) -> Result<(), AllocError> {
        self.place = match self.place {
            Place::Plain if byte == b'\\' => Place::First,
            Place::Plain if byte == b'{' => Place::Count(0),
            Place::Plain => {
                self.bytes.push(byte)?;
                Place::Plain
            }
            Place::First => Place::Second(digit_value(byte)),
            Place::Second(first) => {
                let second = digit_value(byte);
                self.bytes
                    .push(first.wrapping_mul(16).wrapping_add(second))?;
                Place::Plain
            }
            Place::Count(count) => self.read_count(count, byte)?,
        };
        Ok(())
    }
}

/// The fields of a line, which have one space between each two.
pub fn fields_of(alloc: Global, text: &[u8]) -> Result<Vec<Vec<u8>>, AllocError> {
    let mut fields = Vec::new(alloc);
    let mut field = Field::new(alloc);
    for byte in text {
        if *byte == b' ' {
            fields.push(field.bytes)?;
            field = Field::new(alloc);
        } else {
            field.read(*byte)?;
        }
    }
    fields.push(field.bytes)?;
    Ok(fields)
}

/// Puts bytes into the front of a buffer.
pub fn copy(buffer: &mut [u8], bytes: &[u8]) {
    for (to, from) in buffer.iter_mut().zip(bytes) {
        *to = *from;
    }
}
