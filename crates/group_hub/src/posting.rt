// What becomes of posts.

/// What becomes of a right post.
#[derive(Clone, Copy, Debug, PartialEq, Eq)]
pub enum Posting {
    /// It is made before its session is answered.
    AtOnce,
    /// It waits for others.
    Waits,
    /// It would wait, but as many as may wait already do.
    Crowded,
}
