// Why a request is refused.
ghost use Rattle.std.specs.Prelude.{◌≡◌};
ghost use Rattle.admin_lines.specs.Faults as spec;

use thiserror::Error;

/// Why what came on a connection is no request.
#[derive(Clone, Copy, Debug, PartialEq, Eq, Error)]
pub enum RequestFault {
    /// No line ends within the longest head.
    #[error("request: LongLine")]
    LongLine,
    /// The line does not begin with a request's word.
    #[error("request: NoRequest")]
    NoRequest,
    /// What follows the word is no length.
    #[error("request: NoLength")]
    NoLength,
    /// The length is more than a file of changes has here.
    #[error("request: TooMuch")]
    TooMuch,
    /// The connection ended before the request was whole.
    #[error("request: Cut")]
    Cut,
    /// The office held still, and was not let go on within a second.
    #[error("request: Late")]
    Late,
}

/// What is told of a request that is refused, without its LF.
pub fn request_line(fault: RequestFault) -> &'static str
    ensures { result.now ≡ spec.request_line fault }
{
    match fault {
        RequestFault::LongLine => "request: LongLine",
        RequestFault::NoRequest => "request: NoRequest",
        RequestFault::NoLength => "request: NoLength",
        RequestFault::TooMuch => "request: TooMuch",
        RequestFault::Cut => "request: Cut",
        RequestFault::Late => "request: Late",
    }
}
