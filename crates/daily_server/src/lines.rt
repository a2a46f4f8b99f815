// The line of the log for a client that has gone.
ghost use Rattle.std.specs.Prelude.{◌≡◌, IfOk};
ghost use Rattle.std.specs.Option.{option_copied};
ghost use Rattle.std.specs.String.{string_bytes};
ghost use Rattle.daily_server.specs.Lines as spec;
ghost use Rattle.daily_server.specs.Origins as origins;

use crate::LogForm;
use common_types::escaped;
use daily_turns::Ending;
use host_types::Stamp;
use plus_blocks::push_log_date;
use std::alloc::{AllocError, Global};
use std::net::IpAddr;

/// What the log says of a client that has gone.
#[derive(Clone, Copy, Debug)]
pub struct LogRecord<'a> {
    /// When it had gone.
    pub moment: Stamp,
    /// Its address.
    pub from: &'a str,
    /// What it asked for.
    pub selector: &'a [u8],
    pub ending: Ending,
    /// How many bytes it took.
    pub taken: u64,
    /// The selector of the post that it stored.
    pub stored: Option<&'a [u8]>,
}

/// The word for how a session ended.
fn ending_word(ending: Ending) -> &'static str
    ensures { result.now ≡ spec.ending_word ending }
{
    match ending {
        Ending::Served => "served",
        Ending::Full => "full",
        Ending::Failed => "failed",
        Ending::Cut => "cut",
        Ending::Late => "late",
        Ending::Crowd => "crowd",
        Ending::Often => "often",
    }
}

/// An address as the log names it: one that is mapped into IPv6 by the IPv4 address in it.
pub(crate) fn address_text(alloc: Global, from: IpAddr) -> Result<String, AllocError>
    ensures { IfOk result (λ text. string_bytes text ≡ origins.address_text from) }
{
    from.to_canonical().to_string(alloc)
}

/// A space and the selector of the post that was stored, if one was.
fn stored_words(alloc: Global, stored: Option<&[u8]>) -> Result<Vec<u8>, AllocError>
    ensures { IfOk result (λ t. t.items ≡ spec.stored_words (option_copied stored.entry)) }
{
    let mut words = Vec::new(alloc);
    if let Some(selector) = stored {
        words.push(b' ')?;
        words.extend_from_slice(escaped(alloc, selector)?.as_bytes())?;
    }
    Ok(words)
}

/// The line in this program's own form: seconds since the start of 1970, the client's address, the selector in quotes with escapes, how it ended, how many bytes it took, and the selector of the post that it stored, if one was.
fn own_line(alloc: Global, gone: &LogRecord<'_>) -> Result<Vec<u8>, AllocError>
    ensures { IfOk result (λ t. t.items ≡ spec.own_line gone.now.moment gone.now.from.now gone.now.selector.now gone.now.ending gone.now.taken (option_copied gone.now.stored)) }
{
    let (seconds, taken) = (gone.moment.seconds(), gone.taken);
    let mut line = Vec::new(alloc);
    line.extend_from_slice(format!(in alloc; "{seconds} ")?.as_bytes())?;
    line.extend_from_slice(gone.from.as_bytes())?;
    line.extend_from_slice(b" \"")?;
    line.extend_from_slice(escaped(alloc, gone.selector)?.as_bytes())?;
    line.extend_from_slice(b"\" ")?;
    line.extend_from_slice(ending_word(gone.ending).as_bytes())?;
    line.extend_from_slice(format!(in alloc; " {taken}")?.as_bytes())?;
    line.extend_from_slice(&stored_words(alloc, gone.stored)?)?;
    Ok(line)
}

/// The status of HTTP that says how a session ended.
fn status_of(ending: Ending) -> &'static str
    ensures { result.now ≡ spec.status_of ending }
{
    match ending {
        Ending::Served => "200",
        Ending::Full => "503",
        Ending::Failed => "500",
        Ending::Cut => "499",
        Ending::Late => "408",
        Ending::Crowd | Ending::Often => "429",
    }
}

/// A selector as the path of a request.
fn path_of(alloc: Global, selector: &[u8]) -> Result<String, AllocError>
    ensures { IfOk result (λ t. string_bytes t ≡ spec.path_of selector.now) }
{
    if selector.is_empty() {
        String::from_str(alloc, "/")
    } else {
        escaped(alloc, selector)
    }
}

/// How many bytes were sent.
fn size_of(alloc: Global, taken: u64) -> Result<String, AllocError>
    ensures { IfOk result (λ t. string_bytes t ≡ spec.size_of taken) }
{
    if taken == 0 {
        String::from_str(alloc, "-")
    } else {
        format!(in alloc; "{taken}")
    }
}

/// The line in the common log format.
fn common_line(alloc: Global, gone: &LogRecord<'_>) -> Result<Vec<u8>, AllocError>
    ensures { IfOk result (λ t. t.items ≡ spec.common_line gone.now.moment gone.now.from.now gone.now.selector.now gone.now.ending gone.now.taken) }
{
    let mut line = Vec::new(alloc);
    line.extend_from_slice(gone.from.as_bytes())?;
    line.extend_from_slice(b" - - [")?;
    push_log_date(&mut line, gone.moment)?;
    line.extend_from_slice(b"] \"GET ")?;
    line.extend_from_slice(path_of(alloc, gone.selector)?.as_bytes())?;
    line.extend_from_slice(b" HTTP/1.0\" ")?;
    line.extend_from_slice(status_of(gone.ending).as_bytes())?;
    line.push(b' ')?;
    line.extend_from_slice(size_of(alloc, gone.taken)?.as_bytes())?;
    Ok(line)
}

/// The line of a client that has gone, without its LF.
pub fn log_line(alloc: Global, form: LogForm, gone: &LogRecord<'_>) -> Result<Vec<u8>, AllocError>
    ensures { IfOk result (λ t. t.items ≡ spec.log_line form gone.now.moment gone.now.from.now gone.now.selector.now gone.now.ending gone.now.taken (option_copied gone.now.stored)) }
{
    match form {
        LogForm::Own => own_line(alloc, gone),
        LogForm::Common => common_line(alloc, gone),
    }
}
