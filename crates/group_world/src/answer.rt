// What the calls of a hub answer.

/// What a piece of input, or its end, comes to.
#[derive(Clone, Copy, Debug, PartialEq, Eq)]
pub enum InputStatus {
    /// The request isn't whole yet.
    More,
    /// A reply stands, and further pieces are ignored.
    Ready,
    /// The input ended before a whole request, and there is no reply.
    Finished,
    /// The post waits for others, and further pieces are ignored.
    Waiting,
}

/// What a draw gives.
#[derive(Clone, Copy, Debug, PartialEq, Eq)]
pub enum Drawn {
    /// So many bytes, in the front of the buffer.
    Bytes(usize),
    /// No byte is left.
    Finished,
}

/// What a flush comes to.
#[derive(Clone, Copy, Debug, PartialEq, Eq)]
pub struct Flushed {
    /// How many of those that waited are answered.
    pub answered: usize,
    /// How many still wait.
    pub left: usize,
}
