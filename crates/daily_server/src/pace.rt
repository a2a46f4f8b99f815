// How long an office lets a wait last.

/// How long an office lets the next wait last.
#[derive(Clone, Copy, Debug, PartialEq, Eq)]
pub enum Pace {
    /// As long as the clients do: it does nothing until it is called.
    Idle,
    /// A second at most: somebody is in whose time may be over.
    Waits,
    /// Not at all: it would do something in its next turn.
    Busy,
}
