// Replies that tell an error.
ghost use Rattle.std.specs.Prelude.{◌≡◌, IfOk};
ghost use Rattle.text_writer.specs.Errors as spec;
ghost use Rattle.text_writer.specs.Errors.{words_of, code_of};

use host_types::Bytes;
use std::alloc::{AllocError, Global};

/// What a client gets in place of an item.
#[derive(Clone, Copy, Debug, PartialEq, Eq)]
pub enum ErrorText {
    ItemNotFound,
    ViewNotFound,
    NotAMenu,
    FormNeedsAnswers,
    AnswersDoNotFit,
    WrongWord,
    BoardNotFound,
    BoardIsFull,
    UrlNotAllowed,
    RequestTooLong,
    RequestNotUnderstood,
    TryAgainLater,
    ItemHasMoved,
}

impl ErrorText {
    /// The text.
    #[tactic(auto, unfolding(crate::specs::Errors::words_of))]
    pub fn as_bytes(self) -> &'static [u8]
        ensures { result.now ≡ words_of self }
    {
        match self {
            ErrorText::ItemNotFound => b"Item not found",
            ErrorText::ViewNotFound => b"View not found",
            ErrorText::NotAMenu => b"Not a menu",
            ErrorText::FormNeedsAnswers => b"Form needs answers",
            ErrorText::AnswersDoNotFit => b"Answers do not fit the form",
            ErrorText::WrongWord => b"Wrong word",
            ErrorText::BoardNotFound => b"Board not found",
            ErrorText::BoardIsFull => b"Board is full",
            ErrorText::UrlNotAllowed => b"URL not allowed",
            ErrorText::RequestTooLong => b"Request too long",
            ErrorText::RequestNotUnderstood => b"Request not understood",
            ErrorText::TryAgainLater => b"Try again later",
            ErrorText::ItemHasMoved => b"Item has moved",
        }
    }

    /// The code of a Gopher+ error: 1 not available, 2 try again later, 3 moved (the Gopher+ paper, section 2.3).
    pub fn code(self) -> u8
        ensures { result ≡ code_of self }
    {
        match self {
            ErrorText::TryAgainLater => 2,
            ErrorText::ItemHasMoved => 3,
            _ => 1,
        }
    }
}

/// A menu of one line of type 3 with the text, and the line that is one period (RFC 1436, section 3.8).
#[tactic(auto, unfolding(crate::specs::Errors::plain_error))]
fn plain_error(alloc: Global, error: ErrorText) -> Result<Bytes, AllocError>
    ensures { IfOk result (λ r. r ≡ spec.plain_error (words_of error)) }
{
    let mut reply = Vec::new(alloc);
    reply.push(b'3')?;
    reply.extend_from_slice(error.as_bytes())?;
    reply.extend_from_slice(b"\t\terror.host\t1\r\n.\r\n")?;
    Ok(Bytes::from(reply))
}

/// A head that tells an error, its code and text, the lines of a new place, and the line that is one period.
#[tactic(auto, unfolding(crate::specs::Errors::plus_error))]
fn plus_error(alloc: Global, error: ErrorText, place: &[u8]) -> Result<Bytes, AllocError>
    ensures { IfOk result (λ r. r ≡ spec.plus_error (code_of error) (words_of error) place.now) }
{
    let code = error.code();
    let digits = format!(in alloc; "{code}")?;
    let mut reply = Vec::new(alloc);
    reply.extend_from_slice(b"--1\r\n")?;
    reply.extend_from_slice(digits.as_bytes())?;
    reply.push(b' ')?;
    reply.extend_from_slice(error.as_bytes())?;
    reply.extend_from_slice(b"\r\n")?;
    reply.extend_from_slice(place)?;
    reply.extend_from_slice(b".\r\n")?;
    Ok(Bytes::from(reply))
}

/// The reply that tells an error, to a client that asked by Gopher+ or plainly. The place is the menu line of where an item went, or empty.
pub fn error_reply(
    alloc: Global,
    is_plus: bool,
    error: ErrorText,
    place: &[u8],
) -> Result<Bytes, AllocError>
    ensures { IfOk result (λ r. r ≡ spec.error_reply is_plus error place.now) }
{
    if is_plus {
        plus_error(alloc, error, place)
    } else {
        plain_error(alloc, error)
    }
}
