/// The life of a page, by generations.
#[derive(Clone, Copy, Debug, PartialEq, Eq)]
pub enum Life {
    /// No generation that this ledger knows of had it.
    Never,
    /// From this generation on.
    Since(u64),
    /// From the first generation on, and before the second, which retired it.
    Between(u64, u64),
}
