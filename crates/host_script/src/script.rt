// Lines of a script.
ghost use Rattle.std.specs.Prelude.{◌≡◌, IsOk, IfOk, IfErr, IsUtf8, map};
ghost use Rattle.std.specs.Str.{all_ascii_digits};
ghost use Rattle.host_script.specs.Number.{number_of};
ghost use Rattle.host_script.specs.Script.{alone_of, bytes_of, command_of, draw_of, end_of, field_bytes, fields, leave_of, line_command, now_of, one_field_of, text_of, three_fields_of, two_fields_of};

use bstr::ByteVec;
use host_types::{Bytes, Stamp};
use std::alloc::{AllocError, Global};

/// The greatest room of a draw.
pub const MOST_ROOM: u64 = 65_536;

/// One line of a script.
#[derive(Debug, Drop, PartialEq, Eq)]
pub enum Command {
    /// `now SECONDS`: the moment from here on.
    Now(Stamp),
    /// `text SELECTOR TITLE BODY`: puts a text into the site.
    Text {
        selector: Bytes,
        title: Bytes,
        body: Bytes,
    },
    /// `join`: a new session.
    Join,
    /// `bytes ID TEXT`: a piece of a session's input.
    Bytes {
        id: u64,
        text: Bytes,
    },
    /// `end ID`: the end of a session's input.
    End(u64),
    /// `draw ID N`: at most so many bytes of a session's reply.
    Draw {
        id: u64,
        room: usize,
    },
    /// `leave ID`: the end of a session.
    Leave(u64),
    /// `flush`: the posts that wait are made.
    Flush,
}

/// Why a line is no command.
#[derive(Clone, Copy, Debug, PartialEq, Eq)]
pub enum ScriptLineFault {
    /// The line has none of the forms, or a number is out of range.
    Form,
    Memory,
}

impl From<AllocError> for ScriptLineFault {
    ghost use Rattle.std.specs.Prelude.{◌≡◌};
    ghost use Rattle.host_script.specs.declared.script.ScriptLineFault.TheVariants.{Memory};

    ghost from_gives = { λ _ e. e ≡ Memory };

    fn from(_: AllocError) -> Self {
        ScriptLineFault::Memory
    }
}

fn is_digits(field: &[u8]) -> bool
    ensures { result ≡ all_ascii_digits field.now }
{
    field.iter().all(|digit| digit.is_ascii_digit())
}

/// The number that decimal digits alone write, below 2^64.
fn number(field: &str) -> Option<u64>
    ensures { result ≡ number_of field.now }
{
    if !is_digits(field.as_bytes()) {
        return None;
    }
    field.parse::<u64>().ok()
}

/// The bytes that the escapes of a field represent.
fn unescaped(alloc: Global, field: &str) -> Result<Bytes, AllocError>
    ensures { IfOk result (λ b. b ≡ field_bytes field.now) }
{
    Ok(Bytes::from(Vec::unescape_bytes(alloc, field)?))
}

#[tactic(auto, unfolding(crate::specs::Script::now_of))]
fn now(seconds: &str) -> Option<Command>
    ensures { result ≡ now_of seconds.now }
{
    let stamp = Stamp::new(number(seconds)?).ok()?;
    Some(Command::Now(stamp))
}

fn text(alloc: Global, selector: &str, title: &str, body: &str) -> Result<Command, ScriptLineFault>
    ensures ok { IfOk result (λ c. c ≡ text_of selector.now title.now body.now) }
    ensures err { IfErr result (λ e. e ≡ ScriptLineFault.Memory) }
{
    Ok(Command::Text {
        selector: unescaped(alloc, selector)?,
        title: unescaped(alloc, title)?,
        body: unescaped(alloc, body)?,
    })
}

fn bytes(alloc: Global, id: &str, text: &str) -> Result<Command, ScriptLineFault>
    ensures ok { IfOk result (λ c. bytes_of id.now text.now ≡ Some c) }
    ensures form { result ≡ Err ScriptLineFault.Form → bytes_of id.now text.now ≡ None }
{
    let Some(id) = number(id) else {
        return Err(ScriptLineFault::Form);
    };
    Ok(Command::Bytes {
        id,
        text: unescaped(alloc, text)?,
    })
}

fn end(id: &str) -> Option<Command>
    ensures { result ≡ end_of id.now }
{
    Some(Command::End(number(id)?))
}

#[tactic(auto, unfolding(crate::specs::Script::draw_of))]
fn draw(id: &str, room: &str) -> Option<Command>
    ensures { result ≡ draw_of id.now room.now }
{
    let id = number(id)?;
    let room = number(room)?;
    if room > MOST_ROOM {
        return None;
    }
    Some(Command::Draw {
        id,
        room: room as usize,
    })
}

fn leave(id: &str) -> Option<Command>
    ensures { result ≡ leave_of id.now }
{
    Some(Command::Leave(number(id)?))
}

fn alone(word: &str) -> Option<Command>
    ensures { result ≡ alone_of word.now }
{
    match word {
        "join" => Some(Command::Join),
        "flush" => Some(Command::Flush),
        _ => None,
    }
}

fn one_field(word: &str, field: &str) -> Option<Command>
    ensures { result ≡ one_field_of word.now field.now }
{
    match word {
        "now" => now(field),
        "end" => end(field),
        "leave" => leave(field),
        _ => None,
    }
}

fn two_fields(alloc: Global, word: &str, id: &str, field: &str) -> Result<Command, ScriptLineFault>
    ensures ok { IfOk result (λ c. two_fields_of word.now id.now field.now ≡ Some c) }
    ensures form { result ≡ Err ScriptLineFault.Form → two_fields_of word.now id.now field.now ≡ None }
{
    match word {
        "bytes" => bytes(alloc, id, field),
        "draw" => draw(id, field).ok_or(ScriptLineFault::Form),
        _ => Err(ScriptLineFault::Form),
    }
}

fn three_fields(
    alloc: Global,
    word: &str,
    selector: &str,
    title: &str,
    body: &str,
) -> Result<Command, ScriptLineFault>
    ensures ok { IfOk result (λ c. three_fields_of word.now selector.now title.now body.now ≡ Some c) }
    ensures form { result ≡ Err ScriptLineFault.Form
        → three_fields_of word.now selector.now title.now body.now ≡ None }
{
    match word {
        "text" => text(alloc, selector, title, body),
        _ => Err(ScriptLineFault::Form),
    }
}

/// The command that the fields of a line make.
fn of_fields(alloc: Global, fields: &[&str]) -> Result<Command, ScriptLineFault>
    ensures ok { IfOk result (λ c. command_of (map (λ f. f.now) fields.now) ≡ Some c) }
    ensures form { result ≡ Err ScriptLineFault.Form → command_of (map (λ f. f.now) fields.now) ≡ None }
{
    match fields {
        [] => Err(ScriptLineFault::Form),
        [word] => alone(word).ok_or(ScriptLineFault::Form),
        [word, field] => one_field(word, field).ok_or(ScriptLineFault::Form),
        [word, id, field] => two_fields(alloc, word, id, field),
        [word, selector, title, body] => three_fields(alloc, word, selector, title, body),
        _ => Err(ScriptLineFault::Form),
    }
}

fn of_text(alloc: Global, line: &str) -> Result<Command, ScriptLineFault>
    ensures ok { IfOk result (λ c. command_of (fields line.now) ≡ Some c) }
    ensures form { result ≡ Err ScriptLineFault.Form → command_of (fields line.now) ≡ None }
{
    let fields: Vec<&str> = line.split(' ').collect(alloc)?;
    of_fields(alloc, fields.as_slice())
}

/// The command of a line, without its LF. Fields have one space between each two; TEXT, SELECTOR, TITLE and
/// BODY are escaped, so that a space in them is `\x20`.
pub fn parse(alloc: Global, line: &[u8]) -> Result<Command, ScriptLineFault>
    ensures ok { IfOk result (λ c. line_command line.now ≡ Some c) }
    ensures text { IsOk result → IsUtf8 line.now }
    ensures form { result ≡ Err ScriptLineFault.Form → IsUtf8 line.now → line_command line.now ≡ None }
{
    let Ok(text) = std::str::from_utf8(line) else {
        return Err(ScriptLineFault::Form);
    };
    if matches!(line, [.., b'\r']) {
        return Err(ScriptLineFault::Form);
    }
    of_text(alloc, text)
}
