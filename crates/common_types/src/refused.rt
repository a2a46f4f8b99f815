use thiserror::Error;

/// Why a change is not made, or a name is not valid.
#[derive(Clone, Copy, Debug, PartialEq, Eq, Error)]
pub enum Refused {
    /// A name or a word that is too short or has bytes that it may not have, a count, cap or port of 0, equal views, or a move onto itself.
    #[error("BadName")]
    BadName,
    /// Something is above its greatest.
    #[error("TooLong")]
    TooLong,
    /// The selector is one of posts or of links, or the body is a note of a move, which no change may put.
    #[error("Reserved")]
    Reserved,
    /// Nothing that could go or move stands there.
    #[error("Missing")]
    Missing,
    /// A board with posts stands there.
    #[error("NotEmpty")]
    NotEmpty,
    /// The empty selector always has a menu: nothing else can be put there, and it cannot go or move.
    #[error("Root")]
    Root,
    /// No board stands there.
    #[error("NotABoard")]
    NotABoard,
    /// The answers do not fit the form.
    #[error("WrongAnswers")]
    WrongAnswers,
    /// A word that has to be known was another one.
    #[error("WrongWord")]
    WrongWord,
    /// The board has no number for another post.
    #[error("Spent")]
    Spent,
}
