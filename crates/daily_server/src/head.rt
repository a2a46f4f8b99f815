// What a client asks for and is told, as the log names it.
ghost use Rattle.std.specs.Prelude.{◌≡◌, [], ◌++◌, take};
ghost use Rattle.std.specs.List.{position};
ghost use Rattle.std.specs.Option.{option_copied};
ghost use Rattle.daily_server.specs.Heads as spec;
ghost use Rattle.daily_server.specs.Stored as stored;

use arrayvec::ArrayVec;

/// How many bytes of a request the log looks at.
const LOOKED_AT: usize = 256;

/// The first 256 bytes that a client sent, or was told.
#[derive(Drop)]
pub struct Head {
    bytes: ArrayVec<u8, LOOKED_AT>,
}

fn is_end(byte: u8) -> bool
    ensures { result ≡ spec.is_end byte }
{
    byte == b'\t' || byte == b'\r' || byte == b'\n'
}

/// Where the first LF stands.
fn first_lf(bytes: &[u8]) -> Option<usize>
    ensures { result ≡ position stored.is_lf bytes.now }
{
    bytes.iter().position(|byte| *byte == b'\n')
}

/// Where the first tab stands.
fn first_tab(bytes: &[u8]) -> Option<usize>
    ensures { result ≡ position stored.is_tab bytes.now }
{
    bytes.iter().position(|byte| *byte == b'\t')
}

/// What stands before the first LF.
fn line_in(bytes: &[u8]) -> &[u8]
    ensures { result.now ≡ stored.line_in bytes.now }
{
    match first_lf(bytes) {
        Some(end) => &bytes[..end],
        None => bytes,
    }
}

/// What stands behind the first tab.
fn behind_tab(bytes: &[u8]) -> &[u8]
    ensures { result.now ≡ stored.behind_tab bytes.now }
{
    match first_tab(bytes) {
        Some(at) => &bytes[at + 1..],
        None => &[],
    }
}

/// What stands before the first tab, CR or LF.
fn selector_in(bytes: &[u8]) -> &[u8]
    ensures { result.now ≡ spec.selector_in bytes.now }
{
    match first_end(bytes) {
        Some(end) => &bytes[..end],
        None => bytes,
    }
}

/// Where the first tab, CR or LF stands.
fn first_end(bytes: &[u8]) -> Option<usize>
    ensures { result ≡ position spec.is_end bytes.now }
{
    bytes.iter().position(|byte| is_end(*byte))
}

impl Head {
    /// Nothing was sent or told yet.
    pub fn new() -> Head
        ensures { result.bytes.items ≡ [] }
    {
        Head {
            bytes: ArrayVec::new(),
        }
    }

    /// More was sent, or told.
    pub fn hear(&mut self, piece: &[u8])
        ensures { self.new.bytes.items ≡ take 256 (self.old.bytes.items ++ piece.now) }
    {
        let room = self.bytes.remaining_capacity().min(piece.len());
        if self.bytes.try_extend_from_slice(&piece[..room]).is_err() {
            unreachable!();
        }
    }

    /// What stands before the first tab, CR or LF of it: the selector that was asked for.
    pub fn selector(&self) -> &[u8]
        ensures { result.now ≡ spec.selector_in self.now.bytes.items }
    {
        selector_in(self.bytes.as_slice())
    }

    /// Whether it is of a request with data.
    pub(crate) fn has_data(&self) -> bool
        ensures { result ≡ stored.has_data self.now.bytes.items }
    {
        let line = line_in(self.bytes.as_slice());
        behind_tab(behind_tab(line)).starts_with(b"1")
    }

    /// The selector in the first line of a reply that it is of.
    pub(crate) fn named(&self) -> Option<&[u8]>
        ensures { option_copied result ≡ stored.named_by self.now.bytes.items }
    {
        let bytes = self.bytes.as_slice();
        if bytes.starts_with(b"+-1\r\n") {
            Some(selector_in(behind_tab(&bytes[5..])))
        } else {
            None
        }
    }
}
