// The fields of a line.
use crate::trouble::Trouble;
use std::alloc::Global;

/// The number that decimal digits write.
pub fn number(field: &str) -> Result<u32, Trouble> {
    field.parse::<u32>().or(Err(Trouble::Line))
}

/// The same of a level.
pub fn level_of(field: &str) -> Result<u16, Trouble> {
    field.parse::<u16>().or(Err(Trouble::Line))
}

/// Two fields with a space between them.
pub fn two_of(fields: &str) -> Result<(&str, &str), Trouble> {
    match fields.split_once(' ') {
        Some(two) => Ok(two),
        None => Err(Trouble::Line),
    }
}

/// One piece of a field of bytes.
fn add_piece(alloc: Global, piece: &str, bytes: &mut Vec<u8>) -> Result<(), Trouble> {
    let (digits, count) = piece.split_once('*').unwrap_or((piece, "1"));
    let one = hex::decode(alloc, digits.as_bytes())?;
    for _ in 0..number(count)? {
        bytes.extend_from_slice(&one)?;
    }
    Ok(())
}

/// The bytes of a field: pieces after one another with `+` between them, each of digits, or of the digits of one byte, `*` and how often it stands. `-` has none.
pub fn bytes_of(alloc: Global, field: &str) -> Result<Vec<u8>, Trouble> {
    let mut bytes = Vec::new(alloc);
    if field == "-" {
        return Ok(bytes);
    }
    for piece in field.split('+') {
        add_piece(alloc, piece, &mut bytes)?;
    }
    Ok(bytes)
}
