// What a key-value store tells of its size.

/// How much is kept, how much room is left, and of which generation the image is.
#[derive(Clone, Copy, Debug, PartialEq, Eq)]
pub struct Figures {
    /// How many pairs there are.
    pub keys: u64,
    /// How many pages a commit may write.
    pub free: u64,
    /// The generation of the current root slot.
    pub generation: u64,
}
