// What a reply says, as a text.
ghost use Rattle.std.specs.Prelude.{◌≡◌, ◌++◌, ◌∷◌, [], ℕ, Bool, List, Err, IfOk, IsUtf8};
ghost use Rattle.std.specs.String.{string_bytes};
ghost use Rattle.admin_lines.specs.Replies.{reply};
ghost use Rattle.admin_lines.specs.declared.reply.ReplyFault.{ReplyFault as Unreadable};
ghost use Rattle.admin_client.specs.declared.answer.AnswerFault.TheVariants.{Memory, Reply};

use admin_lines::{ReplyFault, read_reply, replies_are_read};
use std::alloc::{AllocError, Global};
use std::str;
use thiserror::Error;

/// What an administrator's office answers: whether all was done that was asked for, and lines for standard output where it was, and else for standard error, without the last LF.
#[derive(Debug, Drop)]
pub struct AdminAnswer {
    pub done: bool,
    pub text: String,
}

/// Why there is no answer.
#[derive(Clone, Copy, Debug, PartialEq, Eq, Error)]
pub enum AnswerFault {
    /// What came is no reply.
    #[error("{0}")]
    Reply(ReplyFault),
    /// Out of memory.
    #[error("memory")]
    Memory,
}

impl From<AllocError> for AnswerFault {
    ghost from_gives = { λ _ fault. fault ≡ Memory };

    fn from(_: AllocError) -> Self {
        AnswerFault::Memory
    }
}

/// The text of these bytes, which ends with an LF that is left out.
fn text_in(alloc: Global, bytes: &[u8]) -> Result<String, AnswerFault>
    ensures text { IfOk result (λ t. bytes.now ≡ string_bytes t ++ 10 ∷ []) }
    ensures refused { (fault : Unreadable) (text : List ℕ) → result ≡ Err (Reply fault) → IsUtf8 text → bytes.now ≡ text ++ 10 ∷ [] → ⊥ }
{
    let Some((last, front)) = bytes.split_last() else {
        return Err(AnswerFault::Reply(ReplyFault::Cut));
    };
    if *last != b'\n' {
        return Err(AnswerFault::Reply(ReplyFault::Cut));
    }
    let Ok(text) = str::from_utf8(front) else {
        return Err(AnswerFault::Reply(ReplyFault::NoReply));
    };
    Ok(String::from_str(alloc, text)?)
}

/// What a reply says that has ended.
pub(crate) fn answer_in(alloc: Global, bytes: &[u8]) -> Result<AdminAnswer, AnswerFault>
    ensures says { IfOk result (λ a. bytes.now ≡ reply a.done (string_bytes a.text)) }
    ensures refused { (fault : Unreadable) (done : Bool) (text : List ℕ) → result ≡ Err (Reply fault) → IsUtf8 text → bytes.now ≡ reply done text → ⊥ }
{
    replies_are_read();
    let read = match read_reply(bytes) {
        Ok(read) => read,
        Err(fault) => return Err(AnswerFault::Reply(fault)),
    };
    let text = match text_in(alloc, &bytes[read.start..]) {
        Ok(text) => text,
        Err(fault) => return Err(fault),
    };
    Ok(AdminAnswer {
        done: read.done,
        text,
    })
}
