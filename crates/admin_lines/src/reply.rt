// The reply to a request: written, and read once the connection has ended.
ghost use Rattle.std.specs.Prelude.{◌≡◌, ◌≤◌, IfOk, length};
ghost use Rattle.std.specs.List.{list_any};
ghost use Rattle.std.specs.String.{string_bytes};
ghost use Rattle.admin_lines.specs.Heads.{is_lf};
ghost use Rattle.admin_lines.specs.Replies as spec;

use std::alloc::{AllocError, Global};
use thiserror::Error;

/// What a reply says.
#[derive(Clone, Copy, Debug, PartialEq, Eq)]
pub struct AdminReply {
    /// Whether all was done that was asked for.
    pub done: bool,
    /// Where its text begins: lines for standard output where all was done, and else for standard error.
    pub start: usize,
}

/// Why some bytes are no reply.
#[derive(Clone, Copy, Debug, PartialEq, Eq, Error)]
pub enum ReplyFault {
    /// The connection ended before a line.
    #[error("reply: Cut")]
    Cut,
    /// The first line is none of a reply.
    #[error("reply: NoReply")]
    NoReply,
}

/// A reply of one line of text, which is given without its LF.
pub fn reply_text(alloc: Global, done: bool, text: &str) -> Result<String, AllocError>
    ensures { IfOk result (λ t. string_bytes t ≡ spec.reply done text.now) }
{
    if done {
        format!(in alloc; "done\n{text}\n")
    } else {
        format!(in alloc; "fault\n{text}\n")
    }
}

/// Whether an LF is among these bytes.
fn has_lf(bytes: &[u8]) -> bool
    ensures { result ≡ list_any is_lf bytes.now }
{
    bytes.iter().any(|byte| *byte == b'\n')
}

/// What a reply says that has ended.
pub fn read_reply(bytes: &[u8]) -> Result<AdminReply, ReplyFault>
    ensures read { result ≡ spec.reply_in bytes.now }
    ensures within { IfOk result (λ reply. reply.start ≤ length bytes.now) }
{
    if bytes.starts_with(b"done\n") {
        Ok(AdminReply {
            done: true,
            start: 5,
        })
    } else if bytes.starts_with(b"fault\n") {
        Ok(AdminReply {
            done: false,
            start: 6,
        })
    } else if has_lf(bytes) {
        Err(ReplyFault::NoReply)
    } else {
        Err(ReplyFault::Cut)
    }
}
