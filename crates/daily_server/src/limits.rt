// How long a client may stay.
ghost use Rattle.std.specs.Prelude.{◌≡◌};
ghost use Rattle.daily_server.specs.Limits as spec;

use daily_turns::ConnectionStage;

/// For how many seconds a client may neither send nor take anything.
pub const LONGEST_SILENCE: u64 = 30;

/// For how many seconds a client may stay of which no line has come whole.
pub const LONGEST_LINE: u64 = 15;

/// For how many seconds one may stay whose request is not whole.
pub const LONGEST_REQUEST: u64 = 120;

/// For how many seconds any may stay.
pub const LONGEST_CONNECTION: u64 = 600;

/// For how many seconds a client may stay whose session is so far, by whether a line has come whole.
pub fn longest_stay(stage: ConnectionStage, has_line: bool) -> u64
    ensures { result ≡ spec.longest_stay stage has_line }
{
    match stage {
        ConnectionStage::Listening(_) if has_line => LONGEST_REQUEST,
        ConnectionStage::Listening(_) => LONGEST_LINE,
        _ => LONGEST_CONNECTION,
    }
}

/// Whether the time of a client is over, which may stay for so many seconds, came at one second and last sent or took something at another.
pub fn is_over(longest: u64, came: u64, moved: u64, now: u64) -> bool
    ensures { result ≡ spec.is_over longest came moved now }
{
    now.saturating_sub(moved) >= LONGEST_SILENCE || now.saturating_sub(came) >= longest
}
