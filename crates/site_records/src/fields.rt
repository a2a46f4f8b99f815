// Fields, read from the front of some bytes.
ghost use Rattle.std.specs.Prelude.{◌≡◌, ◌≤◌, IfOk};
ghost use Rattle.std.specs.Int.{w16, w32, w64};
ghost use Rattle.std.specs.List.{list_all};
ghost use Rattle.host_types.specs.Names as names;
ghost use Rattle.host_types.specs.Names.{is_visible};
ghost use Rattle.site_records.specs.Field.{number, byte, counted};
ghost use Rattle.site_records.specs.Reading.{Reads, stamp_at, until_at, title_at, summary_at, selector_at, host_at, link_at, port_at};

use crate::RecordFault;
use host_types::{GREATEST_STAMP, Host, LONGEST_SUMMARY, Selector, Stamp, Title, Url};

#[tactic(auto, unfolding(crate::specs::Field::byte))]
pub fn byte_of(bytes: &[u8]) -> Result<(u8, &[u8]), RecordFault>
    ensures { Reads (λ x. (x.0, x.1.now)) result (byte bytes.now) }
{
    match bytes {
        [first, rest @ ..] => Ok((*first, rest)),
        [] => Err(RecordFault::BadRecord),
    }
}

#[tactic(auto, unfolding(crate::specs::Field::number))]
pub fn u16_of(bytes: &[u8]) -> Result<(u16, &[u8]), RecordFault>
    ensures { Reads (λ x. (x.0, x.1.now)) result (number w16 bytes.now) }
{
    if bytes.len() < 2 {
        return Err(RecordFault::BadRecord);
    }
    let (front, rest) = bytes.split_at(2);
    Ok((u16::from_be_bytes([front[0], front[1]]), rest))
}

#[tactic(auto, unfolding(crate::specs::Field::number))]
pub fn u32_of(bytes: &[u8]) -> Result<(u32, &[u8]), RecordFault>
    ensures { Reads (λ x. (x.0, x.1.now)) result (number w32 bytes.now) }
{
    if bytes.len() < 4 {
        return Err(RecordFault::BadRecord);
    }
    let (front, rest) = bytes.split_at(4);
    let number = u32::from_be_bytes([front[0], front[1], front[2], front[3]]);
    Ok((number, rest))
}

#[tactic(auto, unfolding(crate::specs::Field::number))]
pub fn u64_of(bytes: &[u8]) -> Result<(u64, &[u8]), RecordFault>
    ensures { Reads (λ x. (x.0, x.1.now)) result (number w64 bytes.now) }
{
    if bytes.len() < 8 {
        return Err(RecordFault::BadRecord);
    }
    let (front, rest) = bytes.split_at(8);
    let number = u64::from_be_bytes([
        front[0], front[1], front[2], front[3], front[4], front[5], front[6], front[7],
    ]);
    Ok((number, rest))
}

/// A length in one byte, and that many bytes.
#[tactic(auto, unfolding(crate::specs::Field::counted))]
pub fn short_of(bytes: &[u8]) -> Result<(&[u8], &[u8]), RecordFault>
    ensures { Reads (λ x. (x.0.now, x.1.now)) result (counted byte bytes.now) }
{
    let (count, rest) = byte_of(bytes)?;
    let count = usize::from(count);
    if rest.len() < count {
        return Err(RecordFault::BadRecord);
    }
    Ok(rest.split_at(count))
}

#[tactic(auto, unfolding(crate::specs::Field::passing))]
pub fn selector_of(bytes: &[u8]) -> Result<(Selector, &[u8]), RecordFault>
    ensures { Reads (λ x. (x.0, x.1.now)) result (selector_at bytes.now) }
{
    let (text, rest) = short_of(bytes)?;
    match Selector::new(text) {
        Ok(selector) => Ok((selector, rest)),
        Err(_) => Err(RecordFault::BadRecord),
    }
}

#[tactic(auto, unfolding(crate::specs::Field::passing))]
pub fn title_of(bytes: &[u8]) -> Result<(Title, &[u8]), RecordFault>
    ensures { Reads (λ x. (x.0, x.1.now)) result (title_at bytes.now) }
{
    let (text, rest) = short_of(bytes)?;
    match Title::new(text) {
        Ok(title) => Ok((title, rest)),
        Err(_) => Err(RecordFault::BadRecord),
    }
}

#[tactic(auto, unfolding(crate::specs::Field::passing))]
pub fn host_of(bytes: &[u8]) -> Result<(Host, &[u8]), RecordFault>
    ensures { Reads (λ x. (x.0, x.1.now)) result (host_at bytes.now) }
{
    let (text, rest) = short_of(bytes)?;
    match Host::new(text) {
        Ok(host) => Ok((host, rest)),
        Err(_) => Err(RecordFault::BadRecord),
    }
}

#[tactic(auto, unfolding(crate::specs::Field::passing))]
pub fn link_of(bytes: &[u8]) -> Result<(Url, &[u8]), RecordFault>
    ensures { Reads (λ x. (x.0, x.1.now)) result (link_at bytes.now) }
{
    let (text, rest) = short_of(bytes)?;
    match Url::new(text) {
        Ok(url) => Ok((url, rest)),
        Err(_) => Err(RecordFault::BadRecord),
    }
}

#[tactic(auto, unfolding(crate::specs::Field::passing))]
pub fn port_of(bytes: &[u8]) -> Result<(u16, &[u8]), RecordFault>
    ensures { Reads (λ x. (x.0, x.1.now)) result (port_at bytes.now) }
{
    let (port, rest) = u16_of(bytes)?;
    if port < 1 {
        return Err(RecordFault::BadRecord);
    }
    Ok((port, rest))
}

#[tactic(auto, unfolding(crate::specs::Field::passing))]
pub fn seconds_of(bytes: &[u8]) -> Result<(u64, &[u8]), RecordFault>
    ensures exact { Reads (λ x. (x.0, x.1.now)) result (stamp_at bytes.now) }
    ensures range { IfOk result (λ x. x.0 ≤ 253402300799) }
{
    let (seconds, rest) = u64_of(bytes)?;
    if seconds > GREATEST_STAMP {
        return Err(RecordFault::BadRecord);
    }
    Ok((seconds, rest))
}

/// What stands for no expiry.
pub const NEVER: u64 = u64::MAX;

/// From when on an item isn't found.
#[tactic(auto, unfolding(crate::specs::Field::passing, crate::specs::Field::mapped))]
pub fn until_of(bytes: &[u8]) -> Result<(Option<Stamp>, &[u8]), RecordFault>
    ensures { Reads (λ x. (x.0, x.1.now)) result (until_at bytes.now) }
{
    let (seconds, rest) = u64_of(bytes)?;
    if seconds == NEVER {
        return Ok((None, rest));
    }
    match Stamp::new(seconds) {
        Ok(until) => Ok((Some(until), rest)),
        Err(_) => Err(RecordFault::BadRecord),
    }
}

/// A length in two bytes, and that many bytes.
#[tactic(auto, unfolding(crate::specs::Field::counted))]
fn long_of(bytes: &[u8]) -> Result<(&[u8], &[u8]), RecordFault>
    ensures { Reads (λ x. (x.0.now, x.1.now)) result (counted (number w16) bytes.now) }
{
    let (count, rest) = u16_of(bytes)?;
    let count = usize::from(count);
    if rest.len() < count {
        return Err(RecordFault::BadRecord);
    }
    Ok(rest.split_at(count))
}

#[tactic(auto, unfolding(crate::specs::Field::passing))]
pub fn summary_of(bytes: &[u8]) -> Result<(&[u8], &[u8]), RecordFault>
    ensures { Reads (λ x. (x.0.now, x.1.now)) result (summary_at bytes.now) }
{
    let (text, rest) = long_of(bytes)?;
    if text.len() > LONGEST_SUMMARY {
        return Err(RecordFault::BadRecord);
    }
    Ok((text, rest))
}

/// Whether a menu line can hold the bytes in one field: they have no TAB, CR, LF and NUL.
pub fn is_field(bytes: &[u8]) -> bool
    ensures { result ≡ names.is_field bytes.now }
{
    for byte in bytes {
        if *byte == 0 || *byte == b'\t' || *byte == b'\n' || *byte == b'\r' {
            return false;
        }
    }
    true
}

/// Whether each byte is a printed character that is no space.
pub fn are_visible(bytes: &[u8]) -> bool
    ensures { result ≡ list_all is_visible bytes.now }
{
    for byte in bytes {
        if *byte < 33 || *byte > 126 {
            return false;
        }
    }
    true
}
