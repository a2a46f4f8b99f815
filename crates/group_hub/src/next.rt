// What sessions are to have once the posts are made.
use crate::session::Phase;

/// What a session is to have once the posts are made.
pub enum Next<P> {
    /// Its post doesn't wait.
    Stays,
    /// It finds no form any more, and is answered from the site as it stands.
    Gone(Phase<P>),
    /// It is answered from the site at its place in the group.
    Replied(Phase<P>),
}

/// Which sessions are put into their next phases.
#[derive(Clone, Copy, Debug, PartialEq, Eq)]
pub enum Putting {
    /// All that waited.
    All,
    /// Those whose form is gone.
    Gone,
}
