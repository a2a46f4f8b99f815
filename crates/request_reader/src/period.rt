// The line of data that is one period.
ghost use Rattle.std.specs.Prelude.{◌≡◌, true, take};
ghost use Rattle.std.specs.List.{list_any, before_first};
ghost use Rattle.host_types.specs.Lines.{lines};
ghost use Rattle.request_reader.specs.Lines.{ended_lines};
ghost use Rattle.request_reader.specs.DataLines.{is_period};
ghost use Rattle.request_reader.specs.Scanned.{IsScannedTo};

use crate::line::first_of;
use host_types::without_cr;

/// How far data were scanned.
#[derive(Clone, Copy, Debug)]
pub struct Scanned {
    /// Where the line that is one period begins, or else the first line whose LF has not come.
    pub at: usize,
    /// Whether a line that is one period begins there.
    pub is_found: bool,
}

fn is_period(line: &[u8]) -> bool
    ensures { result ≡ is_period line.now }
{
    line == b".".as_slice()
}

/// Looks for a line that is one period, behind the bytes that were scanned already.
#[tactic(auto, using(crate::proofs::Periods::no_rest))]
pub fn scan(bytes: &[u8], scanned: usize) -> Scanned
    requires { IsScannedTo bytes.now scanned }
    ensures at { IsScannedTo bytes.now result.at }
    ensures found { result.is_found ≡ list_any is_period (ended_lines bytes.now) }
    ensures lines { result.is_found ≡ true
        → lines (take result.at bytes.now) ≡ before_first is_period (ended_lines bytes.now) }
{
    let mut at = scanned;
    while at < bytes.len() {
        let rest = &bytes[at..];
        let end = first_of(b'\n', rest);
        if end == rest.len() {
            return Scanned {
                at,
                is_found: false,
            };
        }
        if is_period(without_cr(&rest[..end])) {
            return Scanned { at, is_found: true };
        }
        at += end + 1;
    }
    Scanned {
        at,
        is_found: false,
    }
}
